//! Headers of modules, their exports and imports, object identifiers, and tags with their environments.
//!
//! It stands on asn_memory and asn_tree_equality. What a header holds leads to no type, so nothing here knows the trees of types.
#![tactic(auto)]

mod equality;
mod headers;
mod making;

pub use equality::equal_marks;
pub use headers::{
    AsnTag, AssignedIdentifier, DefinitiveIdentifier, EncodingReferenceDefault, Exports,
    ExtensibilityEnvironment, ExternalValueReference, GlobalModuleReference, Import,
    ModuleReference, ObjectIdentifierArc, ObjectIdentifierValue, TagClass, TaggingEnvironment,
    With, default_environments,
};
