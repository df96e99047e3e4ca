//! The tokens of a class's own syntax at any depth of groups.

ghost use Rattle.asn_tree_notation.specs.Syntax.{flattened, marked_optional, tokens_in, tokens_of, with_mark};
ghost use Rattle.std.specs.Prelude.{◌≡◌, ◌++◌, map, false, IfOk, OnOk};

use asn_memory::{List, Mem, Text};
use asn_tree::{InformationObjectSyntax, ObjectFieldIdentifier, SyntaxExpression, SyntaxToken};
use std::alloc::Global;

/// Calls on `InformationObjectSyntax`.
pub trait InformationObjectSyntaxCalls {
    /// The tokens in order, at any depth of groups, each with true exactly where no optional group holds it
    /// (X.681 10.5, 10.12).
    ///
    /// Err: want of memory.
    fn flatten(&self, alloc: Global) -> Mem<List<(bool, SyntaxToken)>>;
}

impl InformationObjectSyntaxCalls for InformationObjectSyntax {
    fn flatten(&self, alloc: Global) -> Mem<List<(bool, SyntaxToken)>>
        ensures { IfOk result (λ tokens. tokens ≡ flattened self.now.expressions) }
    {
        let mut tokens = List::new(alloc);
        for part in self.expressions.as_slice() {
            add_part(alloc, &mut tokens, part)?;
        }
        Ok(tokens)
    }
}

// Adds the tokens of a part that stands in no group.
fn add_part(
    alloc: Global,
    tokens: &mut List<(bool, SyntaxToken)>,
    part: &SyntaxExpression,
) -> Mem<()>
    ensures { OnOk result (tokens.new ≡ tokens.old ++ with_mark part.now) }
{
    match part {
        SyntaxExpression::Required(token) => tokens.add((true, copied(alloc, token)?)),
        SyntaxExpression::Optional(group) => add_group(alloc, tokens, group),
    }
}

// Adds the tokens of a group, in the groups that it holds too.
#[cycle(flattening)]
fn add_group(
    alloc: Global,
    tokens: &mut List<(bool, SyntaxToken)>,
    group: &List<SyntaxExpression>,
) -> Mem<()>
    ensures { OnOk result (tokens.new ≡ tokens.old ++ map marked_optional (tokens_of group.now)) }
{
    for part in group.as_slice() {
        add_in_group(alloc, tokens, part)?;
    }
    Ok(())
}

#[cycle(flattening)]
#[tactic(auto, using(crate::proofs::SyntaxTokens::token_alone, crate::proofs::SyntaxTokens::group_opened))]
fn add_in_group(
    alloc: Global,
    tokens: &mut List<(bool, SyntaxToken)>,
    part: &SyntaxExpression,
) -> Mem<()>
    ensures { OnOk result (tokens.new ≡ tokens.old ++ map marked_optional (tokens_in part.now)) }
{
    match part {
        SyntaxExpression::Required(token) => tokens.add((false, copied(alloc, token)?)),
        SyntaxExpression::Optional(group) => add_group(alloc, tokens, group),
    }
}

// A copy of a token.
fn copied(alloc: Global, token: &SyntaxToken) -> Mem<SyntaxToken>
    ensures { IfOk result (λ copy. copy ≡ token.now) }
{
    match token {
        SyntaxToken::Literal(word) => Ok(SyntaxToken::Literal(Text::new(alloc, word.as_str())?)),
        SyntaxToken::Comma => Ok(SyntaxToken::Comma),
        SyntaxToken::Field(field) => Ok(SyntaxToken::Field(copied_field(alloc, field)?)),
    }
}

// A copy of the name of a field.
fn copied_field(alloc: Global, field: &ObjectFieldIdentifier) -> Mem<ObjectFieldIdentifier>
    ensures { IfOk result (λ copy. copy ≡ field.now) }
{
    match field {
        ObjectFieldIdentifier::SingleValue(name) => {
            Ok(ObjectFieldIdentifier::SingleValue(Text::new(alloc, name.as_str())?))
        }
        ObjectFieldIdentifier::MultipleValue(name) => {
            Ok(ObjectFieldIdentifier::MultipleValue(Text::new(alloc, name.as_str())?))
        }
    }
}
