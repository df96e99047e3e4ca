//! Making headers of modules, object identifiers and tags.

ghost use Rattle.asn_tree_headers.specs.MakingHeaders.{class_named, definitive_of, header_of, import_of, with_of};
ghost use Rattle.asn_tree_headers.specs.declared.headers.Exports.TheVariants.{Identifier};
ghost use Rattle.std.specs.Option.{option_copied};
ghost use Rattle.std.specs.Prelude.{◌≡◌, IfOk, None, Some, map};

use crate::headers::{
    AsnTag, AssignedIdentifier, DefinitiveIdentifier, EncodingReferenceDefault, Exports,
    ExtensibilityEnvironment, GlobalModuleReference, Import, ModuleReference, ObjectIdentifierArc,
    ObjectIdentifierValue, TagClass, TaggingEnvironment, With,
};
use asn_memory::{List, Mem, Text};
use asn_tree_equality::{beside, listed, texts_of};
use std::alloc::Global;

/// The object identifier of these arcs.
impl From<List<ObjectIdentifierArc>> for ObjectIdentifierValue {
    ghost use Rattle.std.specs.Prelude.{◌≡◌};

    ghost from_gives = { λ arcs made. made.0 ≡ arcs };

    fn from(arcs: List<ObjectIdentifierArc>) -> ObjectIdentifierValue {
        ObjectIdentifierValue(arcs)
    }
}

/// The arc with this number and no name.
impl From<u128> for ObjectIdentifierArc {
    ghost use Rattle.std.specs.Prelude.{◌≡◌, None, Some};

    ghost from_gives = { λ number arc. arc ≡ record { name = None; number = Some number } };

    fn from(number: u128) -> ObjectIdentifierArc {
        ObjectIdentifierArc {
            name: None,
            number: Some(number),
        }
    }
}

/// The tag of the class that the word names, ContextSpecific for any other word and for none, with this number; its
/// environment is Automatic where none is given.
impl From<((Option<&str>, u64), Option<TaggingEnvironment>)> for AsnTag {
    ghost use Rattle.std.specs.Prelude.{◌≡◌, unwrap_or};
    ghost use Rattle.std.specs.Option.{option_copied};
    ghost use Rattle.asn_tree_headers.specs.declared.headers.TaggingEnvironment.TheVariants.{Automatic};
    ghost use Rattle.asn_tree_headers.specs.MakingHeaders.{class_named};

    ghost from_gives = { λ parts tag. tag ≡ record {
      environment = unwrap_or parts.1 Automatic;
      tag_class = class_named (option_copied parts.0.0);
      id = parts.0.1;
    } };

    fn from(parts: ((Option<&str>, u64), Option<TaggingEnvironment>)) -> AsnTag {
        let ((word, id), environment) = parts;
        AsnTag {
            environment: environment.unwrap_or(TaggingEnvironment::Automatic),
            tag_class: class_named(word),
            id,
        }
    }
}

fn class_named(word: Option<&str>) -> TagClass
    ensures { result ≡ class_named (option_copied word.entry) }
{
    match word {
        Some("APPLICATION") => TagClass::Application,
        Some("UNIVERSAL") => TagClass::Universal,
        Some("PRIVATE") => TagClass::Private,
        _ => TagClass::ContextSpecific,
    }
}

impl EncodingReferenceDefault {
    /// The encoding reference of this name.
    pub fn from_parts(alloc: Global, name: &str) -> Mem<EncodingReferenceDefault>
        ensures { IfOk result (λ made. made.0 ≡ name.now) }
    {
        Ok(EncodingReferenceDefault(Text::new(alloc, name)?))
    }
}

impl GlobalModuleReference {
    /// The module of that name, with the identifier assigned to it.
    pub fn from_parts(
        alloc: Global,
        name: &str,
        assigned_identifier: AssignedIdentifier,
    ) -> Mem<GlobalModuleReference>
        ensures { IfOk result (λ made. made ≡ record {
          module_reference = name.now;
          assigned_identifier = assigned_identifier;
        }) }
    {
        let (module_reference, assigned_identifier) = beside(
            Text::new(alloc, name),
            assigned_identifier,
        )?;
        Ok(GlobalModuleReference {
            module_reference,
            assigned_identifier,
        })
    }
}

/// `WITH SUCCESSORS` asks for the later versions, any other text for all that descend from the one named.
fn with_of(text: &str) -> With
    ensures { result ≡ with_of text.now }
{
    match text {
        "WITH SUCCESSORS" => With::Successors,
        _ => With::Descendants,
    }
}

impl Import {
    /// The import of these names from the module, with the text of its `WITH` where one stands: `WITH SUCCESSORS` is
    /// Successors, any other text Descendants.
    pub fn from_parts(
        alloc: Global,
        names: &[&str],
        source: (GlobalModuleReference, Option<&str>),
    ) -> Mem<Import>
        ensures { IfOk result (λ made. made ≡
            import_of (map (λ n. n.now) names.now) source.entry.0 (option_copied source.entry.1)) }
    {
        let (global_module_reference, with) = source;
        let (types, global_module_reference) = beside(
            texts_of(alloc, names),
            global_module_reference,
        )?;
        let with = match with {
            Some(text) => Some(with_of(text)),
            None => None,
        };
        Ok(Import {
            types,
            global_module_reference,
            with,
        })
    }
}

impl Exports {
    /// The export of these names.
    pub fn from_parts(alloc: Global, names: &[&str]) -> Mem<Exports>
        ensures { IfOk result (λ made. made ≡ Identifier (map (λ n. n.now) names.now)) }
    {
        Ok(Exports::Identifier(texts_of(alloc, names)?))
    }
}

impl DefinitiveIdentifier {
    /// The object identifier, with the IRI where one stands.
    pub fn from_parts(
        alloc: Global,
        oid: ObjectIdentifierValue,
        iri: Option<&str>,
    ) -> Mem<DefinitiveIdentifier>
        ensures { IfOk result (λ made. made ≡ definitive_of oid (option_copied iri.entry)) }
    {
        match iri {
            Some(iri) => {
                let (iri, oid) = beside(Text::new(alloc, iri), oid)?;
                Ok(DefinitiveIdentifier::DefinitiveOIDandIRI { oid, iri })
            }
            None => Ok(DefinitiveIdentifier::DefinitiveOID(oid)),
        }
    }
}

impl ModuleReference {
    /// The header of that name: its definitive identifier, its environments, its exports and its imports. Absent
    /// environments are no encoding reference, explicit tags and no implied extension markers.
    pub fn from_parts(
        alloc: Global,
        name: &str,
        module_identifier: Option<DefinitiveIdentifier>,
        environments: Option<
            (
                Option<EncodingReferenceDefault>,
                TaggingEnvironment,
                ExtensibilityEnvironment,
            ),
        >,
        exports: Option<Exports>,
        imports: Option<List<Import>>,
    ) -> Mem<ModuleReference>
        ensures { IfOk result (λ made.
            made ≡ header_of name.now module_identifier environments exports imports) }
    {
        let held = (module_identifier, environments, exports, imports);
        let (name, held) = beside(Text::new(alloc, name), held)?;
        let (module_identifier, environments, exports, imports) = held;
        let (encoding_reference_default, tagging_environment, extensibility_environment) =
            match environments {
                Some(environments) => environments,
                None => (
                    None,
                    TaggingEnvironment::Explicit,
                    ExtensibilityEnvironment::Explicit,
                ),
            };
        Ok(ModuleReference {
            name,
            module_identifier,
            encoding_reference_default,
            tagging_environment,
            extensibility_environment,
            imports: listed(alloc, imports),
            exports,
        })
    }
}

impl ObjectIdentifierArc {
    /// The arc with this name and no number.
    pub fn from_parts(alloc: Global, name: &str) -> Mem<ObjectIdentifierArc>
        ensures { IfOk result (λ made. made ≡ record { name = Some name.now; number = None }) }
    {
        Ok(ObjectIdentifierArc {
            name: Some(Text::new(alloc, name)?),
            number: None,
        })
    }

    /// The arc with this name and this number.
    pub fn from_name_and_number(alloc: Global, name: &str, number: u128) -> Mem<ObjectIdentifierArc>
        ensures { IfOk result (λ made. made ≡ record { name = Some name.now; number = Some number }) }
    {
        Ok(ObjectIdentifierArc {
            name: Some(Text::new(alloc, name)?),
            number: Some(number),
        })
    }
}
