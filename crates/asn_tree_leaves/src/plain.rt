//! Types and values that hold no other tree, and the words and characters that they are told by.

ghost use Rattle.asn_tree_leaves.specs.Plain.{numeric_characters, printable_characters};
ghost use Rattle.asn_tree_leaves.specs.declared.plain.TheConstants.{INTERNAL_IO_FIELD_REF_TYPE_NAME_PREFIX, INTERNAL_NESTED_TYPE_NAME_PREFIX, NUMERIC_STRING_CHARSET, PRINTABLE_STRING_CHARSET};
ghost use Rattle.std.specs.Prelude.{◌≡◌, codes};

/// The common type of a programming language that holds the values of an INTEGER.
#[derive(Clone, Copy, Debug, PartialEq, Eq)]
pub enum IntegerType {
    Int8,
    Uint8,
    Int16,
    Uint16,
    Int32,
    Uint32,
    Int64,
    Uint64,
    /// Whole numbers without a bound.
    Unbounded,
}

/// The restricted character string types (X.680 41.1).
#[derive(Clone, Copy, Debug, PartialEq, Eq)]
pub enum CharacterStringType {
    NumericString,
    VisibleString,
    IA5String,
    TeletexString,
    VideotexString,
    GraphicString,
    GeneralString,
    UniversalString,
    UTF8String,
    BMPString,
    PrintableString,
}

impl From<&str> for CharacterStringType {
    ghost use Rattle.std.specs.Prelude.{◌≡◌};
    ghost use Rattle.asn_tree_leaves.specs.Plain.{string_type};

    ghost from_gives = { λ word ty. ty ≡ string_type word.now };

    /// The type of that name, as it stands in a module; UTF8String for any other word.
    fn from(word: &str) -> CharacterStringType {
        match word {
            "NumericString" => CharacterStringType::NumericString,
            "VisibleString" => CharacterStringType::VisibleString,
            "IA5String" => CharacterStringType::IA5String,
            "TeletexString" => CharacterStringType::TeletexString,
            "VideotexString" => CharacterStringType::VideotexString,
            "GraphicString" => CharacterStringType::GraphicString,
            "GeneralString" => CharacterStringType::GeneralString,
            "UniversalString" => CharacterStringType::UniversalString,
            "BMPString" => CharacterStringType::BMPString,
            "PrintableString" => CharacterStringType::PrintableString,
            _ => CharacterStringType::UTF8String,
        }
    }
}

/// A value of REAL: `mantissa` times `base` to the power of `exponent` (X.680 21.5).
#[derive(Clone, Copy, Debug, PartialEq, Eq)]
pub struct RealValue {
    pub mantissa: i128,
    pub base: u8,
    pub exponent: i32,
}

/// The law of the prefixes: what each is.
pub fn prefixes()
    ensures field { INTERNAL_IO_FIELD_REF_TYPE_NAME_PREFIX.now ≡ codes "ObjectField$" }
    ensures nested { INTERNAL_NESTED_TYPE_NAME_PREFIX.now ≡ codes "Nested$" }
{}

/// The law of the character sets: NumericString has the space and the digits (X.680 41.2), PrintableString the letters, the
/// digits and eleven marks (X.680 41.4), each once.
pub fn character_sets()
    ensures numeric { NUMERIC_STRING_CHARSET ≡ numeric_characters }
    ensures printable { PRINTABLE_STRING_CHARSET ≡ printable_characters }
{}

/// What the name of a type begins with that stands for a field of an object class.
pub const INTERNAL_IO_FIELD_REF_TYPE_NAME_PREFIX: &str = "ObjectField$";

/// What the name of a type begins with that stands within another type.
pub const INTERNAL_NESTED_TYPE_NAME_PREFIX: &str = "Nested$";

/// The characters of NumericString: the digits and the space (X.680 41.2).
pub const NUMERIC_STRING_CHARSET: [char; 11] = [
    ' ', '0', '1', '2', '3', '4', '5', '6', '7', '8', '9',
];

/// The characters of PrintableString (X.680 41.4).
pub const PRINTABLE_STRING_CHARSET: [char; 74] = [
    'A', 'B', 'C', 'D', 'E', 'F', 'G', 'H', 'I', 'J', 'K', 'L', 'M', 'N', 'O', 'P', 'Q', 'R', 'S',
    'T', 'U', 'V', 'W', 'X', 'Y', 'Z', 'a', 'b', 'c', 'd', 'e', 'f', 'g', 'h', 'i', 'j', 'k', 'l',
    'm', 'n', 'o', 'p', 'q', 'r', 's', 't', 'u', 'v', 'w', 'x', 'y', 'z', '0', '1', '2', '3', '4',
    '5', '6', '7', '8', '9', ' ', '\'', '(', ')', '+', ',', '-', '.', '/', ':', '=', '?',
];
