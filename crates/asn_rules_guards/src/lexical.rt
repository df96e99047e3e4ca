//! Bytes and words: what can stand at an offset of a text.
//!
//! The lowest file of this crate; the guards and both interpreters call it.

ghost use Rattle.std.specs.Prelude.{◌≡◌, ◌≤◌, length, IsTrue, nat_eq};
ghost use Rattle.std.specs.List.{list_any};
ghost use Rattle.asn_rules_guards.specs.Lexical.{in_class, is_alnum, sight, stands, width, word_ends};

use crate::asked::{ByteClass, Sight};

/// Whether the byte is of the class.
pub fn is_in_class(class: ByteClass, byte: u8) -> bool
    ensures { result ≡ in_class class byte }
{
    match class {
        ByteClass::Blank => byte == b' ' || (9 <= byte && byte <= 13),
        ByteClass::Digit => b'0' <= byte && byte <= b'9',
        ByteClass::Lower => b'a' <= byte && byte <= b'z',
        ByteClass::Upper => b'A' <= byte && byte <= b'Z',
        ByteClass::Letter => (b'A' <= byte && byte <= b'Z') || (b'a' <= byte && byte <= b'z'),
        ByteClass::Alnum => {
            (b'0' <= byte && byte <= b'9')
                || (b'A' <= byte && byte <= b'Z')
                || (b'a' <= byte && byte <= b'z')
        }
        ByteClass::Cap => (b'A' <= byte && byte <= b'Z') || (b'0' <= byte && byte <= b'9'),
        ByteClass::HexLetter => b'A' <= byte && byte <= b'F',
        ByteClass::TimeMark => is_one_of(byte, b"+-:.,/CDHMRPSTWYZ"),
        ByteClass::LabelMark => is_one_of(byte, b"-_~./"),
        ByteClass::LineFeed => byte == 10,
        ByteClass::Any => true,
    }
}

fn is_one_of(byte: u8, bytes: &[u8]) -> bool
    ensures { result ≡ list_any (λ b. nat_eq byte b) bytes.now }
{
    bytes.iter().any(|b| byte == *b)
}

fn is_alnum_byte(byte: u8) -> bool
    ensures { result ≡ is_alnum byte }
{
    is_in_class(ByteClass::Alnum, byte)
}

/// Whether a word ends before these bytes: there is no letter or digit, nor a hyphen that is followed by one (X.680 12.38).
pub fn is_word_end(rest: &[u8]) -> bool
    ensures { result ≡ word_ends rest.now }
{
    match rest {
        [] => true,
        [byte] => !is_alnum_byte(*byte),
        [byte, next, ..] => !(is_alnum_byte(*byte) || (*byte == b'-' && is_alnum_byte(*next))),
    }
}

/// Whether what is looked for stands in front of the rest of a text.
pub fn stands_in(look: &Sight, rest: &[u8]) -> bool
    ensures value { result ≡ stands (sight look.now) rest.now }
    ensures within { IsTrue result → width (sight look.now) ≤ length rest.now }
{
    match look {
        Sight::Bytes(bytes) => rest.starts_with(bytes),
        Sight::Word(word) => rest.starts_with(word) && is_word_end(&rest[word.len()..]),
        Sight::OneOf(class) => match rest {
            [] => false,
            [byte, ..] => is_in_class(*class, *byte),
        },
    }
}

/// How many bytes it takes where it stands.
pub fn width_of(look: &Sight) -> usize
    ensures { result ≡ width (sight look.now) }
{
    match look {
        Sight::Bytes(bytes) => bytes.len(),
        Sight::Word(word) => word.len(),
        Sight::OneOf(_) => 1,
    }
}
