//! Calls on the trees of ASN.1 modules.
//!
//! It stands on the trees, and knows nothing of texts or of names' meaning. A call on a type of the trees is a function of
//! a trait that is named after the type with `Calls` behind it. The numbers of an enumeration and the tagging of
//! definitions stand in rooms of their own, asn_tree_numbers and asn_tree_tagging, and are handed on.
#![tactic(auto)]

mod builtin;
mod constrainable;
mod constraints;
mod definitions;
mod headers;
mod integers;
mod laws;
mod members;
mod names;
mod paths;
mod strings;
mod syntax;
mod types;
mod values;

pub use asn_tree_numbers::{enumerate, numbers_are_distinct, numbers_are_one};
pub use asn_tree_tagging::{ToplevelDefinitionTagging, environments_add_up};
pub use constrainable::Constrainable;
pub use constraints::ConstraintCalls;
pub use definitions::{
    ToplevelDefinitionCalls, ToplevelInformationDefinitionCalls, ToplevelTypeDefinitionCalls,
};
pub use headers::ModuleReferenceCalls;
pub use integers::{IntegerCalls, IntegerTypeCalls};
pub use laws::{
    flat_syntax_has_the_tokens, int_type_holds_what_is_admitted, max_restrictive_is_least,
    name_types_come_in_order,
};
pub use members::{IterNameTypes, NameTypes};
pub use paths::{InformationObjectFieldReferenceCalls, ObjectFieldIdentifierCalls};
pub use strings::{CharacterStringTypeCalls, characters};
pub use syntax::{
    InformationObjectFieldCalls, InformationObjectSyntaxCalls, SyntaxApplicationCalls,
    SyntaxTokenCalls,
};
pub use types::ASN1TypeCalls;
pub use values::{ASN1ValueCalls, StructLikeFieldValueCalls};
