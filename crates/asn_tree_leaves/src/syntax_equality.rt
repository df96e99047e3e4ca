//! Equality of names of fields, and of the tokens and parts of a syntax.

ghost use Rattle.asn_tree_equality.specs.Equality.{same_by, same_by-laws};
ghost use Rattle.std.specs.Prelude.{◌≡◌, ◌↔◌, IsTrue};

use crate::objects::{
    InformationObjectSyntax, ObjectFieldIdentifier, SyntaxExpression, SyntaxToken,
};
use asn_memory::List;
use asn_tree_equality::{SameTree, same};

#[cycle(comparing_syntax)]
fn same_syntax_expression(left: &SyntaxExpression, right: &SyntaxExpression) -> bool
    ensures { IsTrue result ↔ (left.now ≡ right.now) }
{
    match (left, right) {
        (SyntaxExpression::Required(x), SyntaxExpression::Required(y)) => x.is_same(y),
        (SyntaxExpression::Optional(x), SyntaxExpression::Optional(y)) => same_syntax_expressions(
            x, y,
        ),
        _ => false,
    }
}

#[cycle(comparing_syntax)]
fn same_syntax_expressions(left: &List<SyntaxExpression>, right: &List<SyntaxExpression>) -> bool
    ensures { IsTrue result ↔ (left.now ≡ right.now) }
{
    let (xs, ys) = (left.as_slice(), right.as_slice());
    if xs.len() != ys.len() {
        return false;
    }
    for i in 0..xs.len() {
        if !(same_syntax_expression(&xs[i], &ys[i])) {
            return false;
        }
    }
    true
}

impl SameTree for SyntaxExpression {
    fn is_same(&self, other: &Self) -> bool {
        same_syntax_expression(self, other)
    }
}

impl PartialEq for SyntaxExpression {
    ghost use Rattle.asn_tree_leaves.specs.contracts.objects.SyntaxExpression.{the_row};

    ghost eq = { same_by the_row.coded };

    ghost laws = { same_by-laws the_row.coded };

    fn eq(&self, other: &Self) -> bool
        ensures equal { IsTrue result ↔ (self.now ≡ other.now) }
        ensures gives { result ≡ same_by the_row.coded self.now other.now }
    {
        same(self, other)
    }
}

impl SameTree for SyntaxToken {
    fn is_same(&self, other: &Self) -> bool {
        match (self, other) {
            (SyntaxToken::Literal(left), SyntaxToken::Literal(right)) => left.is_same(right),
            (SyntaxToken::Comma, SyntaxToken::Comma) => true,
            (SyntaxToken::Field(left), SyntaxToken::Field(right)) => left.is_same(right),
            _ => false,
        }
    }
}

impl PartialEq for SyntaxToken {
    ghost use Rattle.asn_tree_leaves.specs.contracts.objects.SyntaxToken.{the_row};

    ghost eq = { same_by the_row.coded };

    ghost laws = { same_by-laws the_row.coded };

    fn eq(&self, other: &Self) -> bool
        ensures equal { IsTrue result ↔ (self.now ≡ other.now) }
        ensures gives { result ≡ same_by the_row.coded self.now other.now }
    {
        same(self, other)
    }
}

impl SameTree for InformationObjectSyntax {
    fn is_same(&self, other: &Self) -> bool {
        self.expressions.is_same(&other.expressions)
    }
}

impl PartialEq for InformationObjectSyntax {
    ghost use Rattle.asn_tree_leaves.specs.contracts.objects.InformationObjectSyntax.{the_row};

    ghost eq = { same_by the_row.coded };

    ghost laws = { same_by-laws the_row.coded };

    fn eq(&self, other: &Self) -> bool
        ensures equal { IsTrue result ↔ (self.now ≡ other.now) }
        ensures gives { result ≡ same_by the_row.coded self.now other.now }
    {
        same(self, other)
    }
}

impl SameTree for ObjectFieldIdentifier {
    fn is_same(&self, other: &Self) -> bool {
        match (self, other) {
            (ObjectFieldIdentifier::SingleValue(left), ObjectFieldIdentifier::SingleValue(right)) =>
                left.is_same(right),
            (
                ObjectFieldIdentifier::MultipleValue(left),
                ObjectFieldIdentifier::MultipleValue(right),
            ) => left.is_same(right),
            _ => false,
        }
    }
}

impl PartialEq for ObjectFieldIdentifier {
    ghost use Rattle.asn_tree_leaves.specs.contracts.objects.ObjectFieldIdentifier.{the_row};

    ghost eq = { same_by the_row.coded };

    ghost laws = { same_by-laws the_row.coded };

    fn eq(&self, other: &Self) -> bool
        ensures equal { IsTrue result ↔ (self.now ≡ other.now) }
        ensures gives { result ≡ same_by the_row.coded self.now other.now }
    {
        same(self, other)
    }
}
