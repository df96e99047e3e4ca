//! Headers of modules, their exports and imports, and tags (X.680 clauses 13, 31 and 32).

ghost use Rattle.asn_tree_headers.specs.Environments.{added};
ghost use Rattle.std.specs.Prelude.{◌≡◌};

use asn_memory::{List, Text};
use std::ops::Add;

/// The header of a module (X.680 13.1).
#[derive(Drop)]
pub struct ModuleReference {
    pub name: Text,
    pub module_identifier: Option<DefinitiveIdentifier>,
    pub encoding_reference_default: Option<EncodingReferenceDefault>,
    pub tagging_environment: TaggingEnvironment,
    pub extensibility_environment: ExtensibilityEnvironment,
    /// The imports in order, one for each `FROM`.
    pub imports: List<Import>,
    /// The exports, where EXPORTS stands.
    pub exports: Option<Exports>,
}

/// The object identifier that names a module (X.680 13.1).
#[derive(Drop)]
pub enum DefinitiveIdentifier {
    DefinitiveOID(ObjectIdentifierValue),
    DefinitiveOIDandIRI {
        oid: ObjectIdentifierValue,
        iri: Text,
    },
}

/// The encoding reference of a module (X.680 13.1).
#[derive(Drop)]
pub struct EncodingReferenceDefault(pub Text);

/// How the tags of a module are read (X.680 13).
#[derive(Clone, Copy, Debug, Default, PartialEq, Eq)]
pub enum TaggingEnvironment {
    Automatic,
    #[default]
    Implicit,
    Explicit,
}

/// A module's environment and then a tag's own: the right one, unless it is automatic, then the left.
impl Add for &TaggingEnvironment {
    type Output = TaggingEnvironment;

    ghost add_gives = { λ left right sum. sum ≡ added left.now right.now };

    fn add(self, own: &TaggingEnvironment) -> TaggingEnvironment {
        match own {
            TaggingEnvironment::Automatic => *self,
            TaggingEnvironment::Implicit => TaggingEnvironment::Implicit,
            TaggingEnvironment::Explicit => TaggingEnvironment::Explicit,
        }
    }
}

/// The law of the environments that stand where nothing is said otherwise: implicit tags, and explicit extension markers.
pub fn default_environments()
    ensures tagging { (e : TaggingEnvironment) → ⟦<TaggingEnvironment as Default>⟧.is_default e → e ≡ TaggingEnvironment.Implicit }
    ensures extensibility { (e : ExtensibilityEnvironment) → ⟦<ExtensibilityEnvironment as Default>⟧.is_default e → e ≡ ExtensibilityEnvironment.Explicit }
{}

/// Whether a module implies extension markers (X.680 13).
#[derive(Clone, Copy, Debug, Default, PartialEq, Eq)]
pub enum ExtensibilityEnvironment {
    Implied,
    #[default]
    Explicit,
}

/// Symbols imported from one module (X.680 13.1).
#[derive(Drop)]
pub struct Import {
    /// The imported names in order.
    pub types: List<Text>,
    pub global_module_reference: GlobalModuleReference,
    pub with: Option<With>,
}

/// Which other versions of a module serve an import (X.680 13.1).
#[derive(Clone, Copy, Debug, PartialEq, Eq)]
pub enum With {
    Successors,
    Descendants,
}

/// The module that an import names (X.680 13.1).
#[derive(Drop)]
pub struct GlobalModuleReference {
    pub module_reference: Text,
    pub assigned_identifier: AssignedIdentifier,
}

/// The identifier assigned to an imported module (X.680 13.1).
#[derive(Drop)]
pub enum AssignedIdentifier {
    ObjectIdentifierValue(ObjectIdentifierValue),
    ExternalValueReference(ExternalValueReference),
    ValueReference(Text),
    ParameterizedValue {
        value_reference: Text,
        actual_parameter_list: Text,
    },
    Empty,
}

/// A value reference with its module's name (X.680 14.1).
#[derive(Drop)]
pub struct ExternalValueReference {
    pub module_reference: Text,
    pub value_reference: Text,
}

/// What a module exports (X.680 13.1).
#[derive(Drop)]
pub enum Exports {
    /// These names.
    Identifier(List<Text>),
    All,
}

/// An object identifier value (X.680 32.3).
#[derive(Drop)]
pub struct ObjectIdentifierValue(pub List<ObjectIdentifierArc>);

/// An arc of an object identifier: a name, a number, or both (X.680 32.3).
#[derive(Drop)]
pub struct ObjectIdentifierArc {
    pub name: Option<Text>,
    pub number: Option<u128>,
}

/// The class of a tag (X.680 31.2).
#[derive(Clone, Copy, Debug, PartialEq, Eq)]
pub enum TagClass {
    Universal,
    Application,
    Private,
    ContextSpecific,
}

/// A tag written before a type (X.680 31.2).
#[derive(Clone, Copy, Debug, PartialEq, Eq)]
pub struct AsnTag {
    pub environment: TaggingEnvironment,
    pub tag_class: TagClass,
    pub id: u64,
}
