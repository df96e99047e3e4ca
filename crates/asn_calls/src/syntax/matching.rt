//! Whether an item of an object may stand at the place of a token of its class's own syntax.

ghost use Rattle.asn_tree_notation.specs.Syntax.{gives_type, gives_value, is_comma, is_number, is_text_of, is_word, later_tokens, matches, up_to_required};
ghost use Rattle.asn_tree_settings.specs.Settings.{starts_with_digit};
ghost use Rattle.std.specs.List.{list_any};
ghost use Rattle.std.specs.Prelude.{◌≡◌};

use crate::syntax::SyntaxTokenCalls;
use asn_tree::{ObjectFieldIdentifier, SyntaxApplication, SyntaxToken};

/// Calls on `SyntaxApplication`.
pub trait SyntaxApplicationCalls {
    /// Whether the item may stand at the place of the token (X.681 10.12, 11.6), where `syntax` has the tokens of the
    /// whole syntax as `flatten` lists them, and the token is the one at `current_index`.
    ///
    /// A comma matches a comma, and a word the same word. A type field matches an object set, a type, and a name that
    /// is none of the later tokens up to the next that no optional group holds, that one included; an index that is
    /// out of range has no later tokens. A value field matches a value, and decimal digits of a number that is at most
    /// `i128::MAX`. Of a name what stands before its last dot and its constraints are not compared.
    fn matches(
        &self,
        next_token: &SyntaxToken,
        syntax: &[(bool, SyntaxToken)],
        current_index: usize,
    ) -> bool;
}

impl SyntaxApplicationCalls for SyntaxApplication {
    fn matches(
        &self,
        next_token: &SyntaxToken,
        syntax: &[(bool, SyntaxToken)],
        current_index: usize,
    ) -> bool
        ensures { result ≡ matches self.now next_token.now syntax.now current_index }
    {
        match next_token {
            SyntaxToken::Comma => matches!(self, SyntaxApplication::Comma),
            SyntaxToken::Literal(word) => is_word(self, word.as_str()),
            SyntaxToken::Field(ObjectFieldIdentifier::MultipleValue(_)) => {
                gives_type(self, behind(syntax, current_index))
            }
            SyntaxToken::Field(ObjectFieldIdentifier::SingleValue(_)) => gives_value(self),
        }
    }
}

// Whether the item is the word.
fn is_word(item: &SyntaxApplication, word: &str) -> bool
    ensures { result ≡ is_word word.now item.now }
{
    match item {
        SyntaxApplication::Literal(text) => text.as_str() == word,
        SyntaxApplication::LiteralOrTypeReference(name) => name.identifier.as_str() == word,
        _ => false,
    }
}

// Whether the item may give a type or a set, where these tokens stand behind the field's.
fn gives_type(item: &SyntaxApplication, behind: &[(bool, SyntaxToken)]) -> bool
    ensures { result ≡ gives_type (up_to_required behind.now) item.now }
{
    match item {
        SyntaxApplication::ObjectSetDeclaration(_) | SyntaxApplication::TypeReference(_) => true,
        SyntaxApplication::LiteralOrTypeReference(name) => {
            !is_due(name.identifier.as_str(), behind)
        }
        _ => false,
    }
}

// Whether the item may give a value.
fn gives_value(item: &SyntaxApplication) -> bool
    ensures { result ≡ gives_value item.now }
{
    match item {
        SyntaxApplication::ValueReference(_) => true,
        SyntaxApplication::Literal(text) => is_number(text.as_str()),
        SyntaxApplication::LiteralOrTypeReference(name) => is_number(name.identifier.as_str()),
        _ => false,
    }
}

// Whether the text is one of the tokens up to the next that no optional group holds.
fn is_due(text: &str, tokens: &[(bool, SyntaxToken)]) -> bool
    ensures { result ≡ list_any (is_text_of text.now) (up_to_required tokens.now) }
{
    for (required, token) in tokens {
        if token.as_str() == text {
            return true;
        }
        if *required {
            return false;
        }
    }
    false
}

// The tokens behind the index.
fn behind(syntax: &[(bool, SyntaxToken)], index: usize) -> &[(bool, SyntaxToken)]
    ensures { result.now ≡ later_tokens index syntax.now }
{
    if index < syntax.len() {
        &syntax[index + 1..]
    } else {
        &[]
    }
}

// Whether the text is decimal digits of a number that is at most `i128::MAX`.
fn is_number(text: &str) -> bool
    ensures { result ≡ is_number text.now }
{
    starts_with_digit(text.as_bytes()) && text.parse::<i128>().is_ok()
}

// Whether the first byte is a digit.
fn starts_with_digit(bytes: &[u8]) -> bool
    ensures { result ≡ starts_with_digit bytes.now }
{
    match bytes {
        [first, ..] => b'0' <= *first && *first <= b'9',
        [] => false,
    }
}
