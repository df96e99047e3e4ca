//! The leaves of the trees, which lead to no type: marks that a reader has found, plain kinds and words (character string types,
//! integer types, real numbers, prefixes and character sets), the names of fields with the syntax in which a class's objects are
//! written, and what warnings and refusals name.
//!
//! It stands on asn_memory and thiserror, and on asn_tree_equality for the laws of equality. It knows no tree. The lexical readers
//! answer the marks, and the trees' constructors take them, so that neither room has to know the other.
#![tactic(auto)]

mod errors;
mod fault_equality;
mod making;
mod markers;
mod objects;
mod plain;
mod syntax_equality;
mod word_equality;

pub use errors::{GrammarError, GrammarErrorType, LinkFault, LinkerError, LinkerErrorType};
pub use fault_equality::{equal_fault_kinds, equal_faults, equal_refusals, equal_warnings};
pub use markers::{ExtensionMarker, OptionalMarker, RangeSeperator, equal_markers};
pub use objects::{InformationObjectSyntax, ObjectFieldIdentifier, SyntaxExpression, SyntaxToken};
pub use plain::{
    CharacterStringType, INTERNAL_IO_FIELD_REF_TYPE_NAME_PREFIX, INTERNAL_NESTED_TYPE_NAME_PREFIX,
    IntegerType, NUMERIC_STRING_CHARSET, PRINTABLE_STRING_CHARSET, RealValue, character_sets,
    prefixes,
};
pub use word_equality::equal_words;
