//! The tokens of a class's own syntax, and what stands behind a part of it (X.681 10.5, 10.12).

ghost use Rattle.asn_meaning_heads.specs.Tokens.{due_in, marked_by, shown_behind, shown_token, tokens_by};
ghost use Rattle.asn_meaning.specs.Objects.{part_of};
ghost use Rattle.asn_tree_notation.specs.Syntax.{is_text_of, token_text, up_to_required};
ghost use Rattle.std.specs.List.{list_any};
ghost use Rattle.std.specs.Prelude.{◌≡◌, true, [], ◌∷◌, ◌++◌, drop, map};
ghost use Rattle.asn_tree_leaves.specs.declared.objects.SyntaxToken.TheVariants.{Literal};

use asn_memory::List;
use asn_tree::{ObjectFieldIdentifier, SyntaxExpression, SyntaxToken};

/// A token: one of a tree, or one of the built-in class, which no tree holds.
#[derive(Clone, Copy)]
pub enum Token<'a> {
    /// A word in capital letters.
    Word(&'a str),
    Comma,
    /// The place of a value or an object, by the field's name with its `&`.
    ValuePlace(&'a str),
    /// The place of a type or a set, by the field's name with its `&`.
    TypePlace(&'a str),
}

/// What stands behind a part of a syntax.
#[cycle(behind)]
#[derive(Drop)]
pub enum Behind<'p, 's> {
    /// Nothing.
    End,
    /// A word that must stand.
    Word(&'p str),
    /// The parts from this index on, in a group or in none, and what stands behind them.
    Parts {
        parts: &'p List<SyntaxExpression>,
        from: usize,
        grouped: bool,
        others: &'s Behind<'p, 's>,
    },
}

impl<'p, 's> Behind<'p, 's> {
    /// Nothing.
    #[tactic(auto, using(crate::proofs::Due::behind_end))]
    pub fn end() -> Behind<'p, 's>
        ensures { shown_behind result ≡ [] }
    {
        Behind::End
    }

    /// A word that must stand.
    #[tactic(auto, using(crate::proofs::Due::behind_word))]
    pub fn word(word: &'p str) -> Behind<'p, 's>
        ensures { shown_behind result ≡ (true, Literal word.now) ∷ [] }
    {
        Behind::Word(word)
    }

    /// The parts from this index on, in a group or in none, and what stands behind them.
    #[tactic(auto, using(crate::proofs::Due::behind_parts))]
    pub fn parts(
        parts: &'p List<SyntaxExpression>,
        from: usize,
        grouped: bool,
        others: &'s Behind<'p, 's>,
    ) -> Behind<'p, 's>
        ensures { shown_behind result ≡ tokens_by grouped (map part_of (drop from parts.now)) ++ shown_behind others.now }
    {
        Behind::Parts {
            parts,
            from,
            grouped,
            others,
        }
    }
}

/// A token of a tree.
pub fn token_of<'a>(token: &'a SyntaxToken) -> Token<'a>
    ensures { shown_token result ≡ token.now }
{
    match token {
        SyntaxToken::Literal(word) => Token::Word(word.as_str()),
        SyntaxToken::Comma => Token::Comma,
        SyntaxToken::Field(ObjectFieldIdentifier::SingleValue(name)) => {
            Token::ValuePlace(name.as_str())
        }
        SyntaxToken::Field(ObjectFieldIdentifier::MultipleValue(name)) => {
            Token::TypePlace(name.as_str())
        }
    }
}

/// A token as it is written.
fn text_of(token: &SyntaxToken) -> &str
    ensures { result.now ≡ token_text token.now }
{
    match token {
        SyntaxToken::Literal(word) => word.as_str(),
        SyntaxToken::Comma => ",",
        SyntaxToken::Field(ObjectFieldIdentifier::SingleValue(name)) => name.as_str(),
        SyntaxToken::Field(ObjectFieldIdentifier::MultipleValue(name)) => name.as_str(),
    }
}

/// Whether the text is the token, where one that must stand is the last that may come next.
fn due_token(token: &SyntaxToken, grouped: bool, text: &str) -> Option<bool>
    ensures { result ≡ due_in text.now (marked_by grouped ((true, token.now) ∷ [])) }
{
    if text_of(token) == text {
        return Some(true);
    }
    if grouped { None } else { Some(false) }
}

/// Whether the text is one of the part's tokens up to the first that must stand. None: it is not, and none must stand.
#[cycle(naming)]
#[tactic(auto, using(crate::proofs::Due::due_of_token, crate::proofs::Due::due_of_group))]
fn due_at(part: &SyntaxExpression, grouped: bool, text: &str) -> Option<bool>
    ensures { result ≡ due_in text.now (marked_by grouped (part_of part.now).tokens) }
{
    match part {
        SyntaxExpression::Required(token) => due_token(token, grouped, text),
        SyntaxExpression::Optional(group) => due_among(group, 0, true, text),
    }
}

/// Whether the text is one of the tokens of the parts from this index on, up to the first that must stand. None: it is
/// not, and none must stand.
#[cycle(naming)]
#[tactic(auto, using(crate::proofs::Due::due_ends, crate::proofs::Due::due_here, crate::proofs::Due::due_past))]
fn due_among(parts: &List<SyntaxExpression>, from: usize, grouped: bool, text: &str) -> Option<bool>
    ensures { result ≡ due_in text.now (tokens_by grouped (map part_of (drop from parts.now))) }
{
    let parts = parts.as_slice();
    for i in from..parts.len() {
        let due = due_at(&parts[i], grouped, text);
        if due.is_some() {
            return due;
        }
    }
    None
}

/// Whether the text is one of the tokens that may come next: those up to the first that must stand (X.681 10.12).
#[tactic(auto, using(crate::proofs::Due::due_at_end, crate::proofs::Due::due_at_word, crate::proofs::Due::due_in_parts, crate::proofs::Due::due_behind_parts))]
pub fn is_due(text: &str, behind: &Behind<'_, '_>) -> bool
    ensures { result ≡ list_any (is_text_of text.now) (up_to_required (shown_behind behind.now)) }
{
    match behind {
        Behind::End => false,
        Behind::Word(word) => *word == text,
        Behind::Parts {
            parts,
            from,
            grouped,
            others,
        } => match due_among(parts, *from, *grouped, text) {
            Some(due) => due,
            None => is_due(text, others),
        },
    }
}
