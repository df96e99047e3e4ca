//! Calls on a class's own syntax (X.681 clause 10) and on the objects that are written in it (X.681 11.6).
//!
//! `matching` tells whether an item of an object may stand at the place of a token, `flattening` lists the tokens of a
//! syntax at any depth of groups.

ghost use Rattle.asn_tree_notation.specs.Syntax.{field_or_empty, given_name, token_text};
ghost use Rattle.std.specs.Prelude.{◌≡◌};

use crate::paths::ObjectFieldIdentifierCalls;
use asn_memory::Text;
use asn_tree::{InformationObjectField, SyntaxToken};

mod flattening;
mod matching;

pub use flattening::InformationObjectSyntaxCalls;
pub use matching::SyntaxApplicationCalls;

/// Calls on `SyntaxToken`.
pub trait SyntaxTokenCalls {
    /// The token as it is written: the word, `,`, or the field's name with its `&`.
    fn as_str(&self) -> &str;

    /// The field's name with its `&`; empty for a word and for a comma.
    fn name_or_empty(&self) -> &str;
}

impl SyntaxTokenCalls for SyntaxToken {
    fn as_str(&self) -> &str
        ensures { result.now ≡ token_text self.now }
    {
        match self {
            SyntaxToken::Literal(word) => word.as_str(),
            SyntaxToken::Comma => ",",
            SyntaxToken::Field(field) => field.identifier().as_str(),
        }
    }

    fn name_or_empty(&self) -> &str
        ensures { result.now ≡ field_or_empty self.now }
    {
        match self {
            SyntaxToken::Field(field) => field.identifier().as_str(),
            SyntaxToken::Literal(_) | SyntaxToken::Comma => "",
        }
    }
}

/// Calls on `InformationObjectField`.
pub trait InformationObjectFieldCalls {
    /// The name of the field that the object gives, with its `&`.
    fn identifier(&self) -> &Text;
}

impl InformationObjectFieldCalls for InformationObjectField {
    fn identifier(&self) -> &Text
        ensures { result.now ≡ given_name self.now }
    {
        match self {
            InformationObjectField::TypeField(field) => &field.identifier,
            InformationObjectField::FixedValueField(field) => &field.identifier,
            InformationObjectField::ObjectSetField(field) => &field.identifier,
        }
    }
}
