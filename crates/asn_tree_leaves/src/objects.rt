//! The names of fields, and the tokens and parts of a class's own syntax (X.681).

use asn_memory::{List, Text};

/// A part of a class's own syntax (X.681 10.5).
#[derive(Drop)]
pub enum SyntaxExpression {
    /// A token that stands in each object, unless a group around it is left out.
    Required(SyntaxToken),
    /// A group between brackets, which may be left out.
    Optional(List<SyntaxExpression>),
}

/// A token of a class's own syntax (X.681 10.5).
#[derive(Drop)]
pub enum SyntaxToken {
    /// A word in capital letters.
    Literal(Text),
    Comma,
    /// The place of a field.
    Field(ObjectFieldIdentifier),
}

/// The syntax in which a class's objects are written (X.681 10.5).
#[derive(Drop)]
pub struct InformationObjectSyntax {
    /// Its parts in order.
    pub expressions: List<SyntaxExpression>,
}

/// The name of a field with its `&` (X.681 clause 7).
#[derive(Drop)]
pub enum ObjectFieldIdentifier {
    /// A small letter follows the `&`: a value or an object.
    SingleValue(Text),
    /// A capital letter follows the `&`: a type or a set.
    MultipleValue(Text),
}
