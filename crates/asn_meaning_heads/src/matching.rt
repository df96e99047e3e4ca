//! What an item of an object gives at the place of a token of its class's own syntax (X.681 10.12, 11.6).

ghost use Rattle.asn_meaning_heads.specs.Following.{shown_alone, shown_fields, where_it};
ghost use Rattle.asn_meaning_heads.specs.Tokens.{shown_behind, shown_token};
ghost use Rattle.asn_meaning.specs.Objects.{item_gives, number_word, type_given, value_given};
ghost use Rattle.asn_tree_notation.specs.Syntax.{gives_type, gives_value, is_comma, is_number, is_word, matches, up_to_required};
ghost use Rattle.asn_tree_settings.specs.Settings.{starts_with_digit};
ghost use Rattle.asn_tree.specs.declared.objects.SyntaxApplication.{out-SyntaxApplication};
ghost use Rattle.std.specs.Option.{option_map};
ghost use Rattle.std.specs.Prelude.{◌≡◌, true, None, Some, pos, [], ◌∷◌, if◌then◌else◌};
ghost use Rattle.std.specs.Str.Parse.{digits_value};

use crate::kinds::{Reference, TypeForm};
use crate::objects::{GivenField, Gives};
use crate::tokens::{Behind, Token, is_due};
use crate::values::ValueForm;
use asn_tree::SyntaxApplication;

/// Whether the first byte is a digit.
fn starts_with_digit(bytes: &[u8]) -> bool
    ensures { result ≡ starts_with_digit bytes.now }
{
    match bytes {
        [first, ..] => b'0' <= *first && *first <= b'9',
        [] => false,
    }
}

/// The number that decimal digits write, where it is at most `i128::MAX`; leading zeros pass.
fn decimal_number(text: &str) -> Option<i128>
    ensures { result ≡ (if is_number text.now then Some (pos (digits_value 10 text.now)) else None) }
{
    if starts_with_digit(text.as_bytes()) {
        text.parse::<i128>().ok()
    } else {
        None
    }
}

/// Whether the item is a comma.
fn is_comma(item: &SyntaxApplication) -> bool
    ensures { result ≡ is_comma item.now }
{
    match item {
        SyntaxApplication::Comma => true,
        SyntaxApplication::ObjectSetDeclaration(_) => false,
        SyntaxApplication::ValueReference(_) => false,
        SyntaxApplication::TypeReference(_) => false,
        SyntaxApplication::Literal(_) => false,
        SyntaxApplication::LiteralOrTypeReference(_) => false,
    }
}

/// Whether the item is the word; of a name, what stands before and behind it is not compared.
fn is_word(item: &SyntaxApplication, word: &str) -> bool
    ensures { result ≡ is_word word.now item.now }
{
    match item {
        SyntaxApplication::Literal(text) => text.as_str() == word,
        SyntaxApplication::LiteralOrTypeReference(name) => name.identifier.as_str() == word,
        SyntaxApplication::ObjectSetDeclaration(_) => false,
        SyntaxApplication::ValueReference(_) => false,
        SyntaxApplication::TypeReference(_) => false,
        SyntaxApplication::Comma => false,
    }
}

/// The type or the set that an item gives for a field of this name. None: it is neither; a plain name that may come next as
/// a token is no type.
fn type_at<'a>(
    item: &'a SyntaxApplication,
    name: &'a str,
    behind: &Behind<'_, '_>,
) -> Option<GivenField<'a>>
    ensures { option_map shown_alone result ≡ where_it (gives_type (up_to_required (shown_behind behind.now)) item.now) (type_given name.now (out-SyntaxApplication item.now)) }
{
    match item {
        SyntaxApplication::ObjectSetDeclaration(set) => Some(GivenField {
            name,
            gives: Gives::Set(set),
        }),
        SyntaxApplication::ValueReference(_) => None,
        SyntaxApplication::TypeReference(ty) => Some(GivenField {
            name,
            gives: Gives::Type(TypeForm::Written(ty)),
        }),
        SyntaxApplication::Comma => None,
        SyntaxApplication::Literal(_) => None,
        SyntaxApplication::LiteralOrTypeReference(reference) => {
            if is_due(reference.identifier.as_str(), behind) {
                return None;
            }
            Some(GivenField {
                name,
                gives: Gives::Type(TypeForm::Reference(Reference::Written(reference))),
            })
        }
    }
}

/// The number that a word writes, for a field of this name.
fn number_at<'a>(word: &str, name: &'a str) -> Option<GivenField<'a>>
    ensures { option_map shown_alone result ≡ where_it (is_number word.now) (number_word name.now word.now ∷ []) }
{
    match decimal_number(word) {
        None => None,
        Some(number) => Some(GivenField {
            name,
            gives: Gives::Value(ValueForm::Number(number)),
        }),
    }
}

/// The value that an item gives for a field of this name; a number may stand as a word. None: it is no value.
fn value_at<'a>(item: &'a SyntaxApplication, name: &'a str) -> Option<GivenField<'a>>
    ensures { option_map shown_alone result ≡ where_it (gives_value item.now) (value_given name.now (out-SyntaxApplication item.now)) }
{
    match item {
        SyntaxApplication::ObjectSetDeclaration(_) => None,
        SyntaxApplication::ValueReference(value) => Some(GivenField {
            name,
            gives: Gives::Value(ValueForm::Written(value)),
        }),
        SyntaxApplication::TypeReference(_) => None,
        SyntaxApplication::Comma => None,
        SyntaxApplication::Literal(word) => number_at(word.as_str(), name),
        SyntaxApplication::LiteralOrTypeReference(reference) => {
            number_at(reference.identifier.as_str(), name)
        }
    }
}

/// What an item gives at the place of a token: a field, or for a word and for a comma none. None: it may not stand there.
pub fn item_at<'a>(
    item: &'a SyntaxApplication,
    token: Token<'a>,
    behind: &Behind<'_, '_>,
) -> Option<Option<GivenField<'a>>>
    ensures { option_map shown_fields result ≡ where_it (matches item.now (shown_token token.entry) ((true, shown_token token.entry) ∷ shown_behind behind.now) 0) (item_gives (shown_token token.entry) (out-SyntaxApplication item.now)) }
{
    match token {
        Token::Word(word) => {
            if is_word(item, word) {
                Some(None)
            } else {
                None
            }
        }
        Token::Comma => { if is_comma(item) { Some(None) } else { None } }
        Token::ValuePlace(name) => match value_at(item, name) {
            None => None,
            Some(field) => Some(Some(field)),
        },
        Token::TypePlace(name) => match type_at(item, name, behind) {
            None => None,
            Some(field) => Some(Some(field)),
        },
    }
}
