//! Rules 23 to 53: values.
//!
//! The words of a row are explained in `lexical_rules.rt`; `'X'` skips blanks and comments, and then stands as a whole
//! word, and `words(A, B)` is one of these words behind blanks and comments. `whole.rt` alone calls this file.

ghost use Rattle.std.specs.Prelude.{◌≡◌, ◌≤◌, ◌-◌, List};
ghost use Rattle.asn_rules.specs.Expression.{Expression as Row, expression, rule_of};
ghost use Rattle.asn_rules.specs.ValueRules.{value_rules_before};

use crate::expression::Expression;
use crate::expression::Expression::{Call, Guarded, Many, Not};
use crate::forms::{
    ANY, BLANK, BLANKS, DIGIT, EMPTY, GAP, HEX_LETTER, TIME_MARK, bytes, choice, keyword,
    keyword_as, option, seq, some, symbol,
};
use crate::marks::Mark;
use crate::names::{
    ALL_VALUE, ASN1_VALUE, BINARY, BIT_STRING_VALUE, BOOLEAN_VALUE, CHARACTER_STRING_VALUE,
    CHOICE_VALUE, DIGITS, DOT_NOTATION, ELSEWHERE_DECLARED_VALUE, EXPONENT, HEXADECIMAL,
    IDENTIFIER, INTEGER_VALUE, MBE_NOTATION, NAME_LIST, NAMED_BITS, NULL_VALUE, NUMBER_I32,
    NUMBER_I128, NUMBER_U64, NUMBER_U128, OBJECT_IDENTIFIER_ARC, OBJECT_IDENTIFIER_VALUE,
    OCTET_NUMBER, PATH_STEP, QUADRUPLE, QUOTED, QUOTED_BODY, REAL_BASE, REAL_VALUE, SEQUENCE_VALUE,
    STRUCT_ITEM, TIME_CHARS, TIME_VALUE, VALUE_IDENTIFIER, VALUE_LIST, VALUE_PATH,
};
use asn_rules_guards::{Guard, Sight};

// 23 all_value = 'ALL'
static RULE_23: Expression = keyword!(b"ALL");
// 24 null_value = 'NULL'
static RULE_24: Expression = keyword!(b"NULL");
// 25 object_identifier_value = ('OBJECT' 'IDENTIFIER' / 'RELATIVE-OID')? "{" object_identifier_arc+ "}"
static RULE_25: Expression = seq!(
    option!(choice!(
        seq!(keyword!(b"OBJECT"), keyword!(b"IDENTIFIER")),
        keyword!(b"RELATIVE-OID")
    )),
    symbol!(b"{"),
    some!(Call(OBJECT_IDENTIFIER_ARC)),
    symbol!(b"}")
);
// 26 object_identifier_arc = number_u128 / value_identifier "(" number_u128 ")" / value_identifier
static RULE_26: Expression = choice!(
    Call(NUMBER_U128),
    seq!(
        Call(VALUE_IDENTIFIER),
        symbol!(b"("),
        Call(NUMBER_U128),
        symbol!(b")")
    ),
    Call(VALUE_IDENTIFIER)
);
// 27 choice_value = identifier ":" asn1_value
static RULE_27: Expression = seq!(Call(IDENTIFIER), symbol!(b":"), Call(ASN1_VALUE));
// 28 dot_notation = sp `-`? sp digits `.` digits exponent? {mantissa fits i128, exponent i32}
static RULE_28: Expression = Guarded(
    &seq!(
        BLANKS,
        option!(bytes!(b"-")),
        BLANKS,
        Call(DIGITS),
        bytes!(b"."),
        Call(DIGITS),
        option!(Call(EXPONENT))
    ),
    Guard::FitsReal,
);
// 29 exponent = (`e` / `E`) `-`? digits
static RULE_29: Expression = seq!(
    choice!(bytes!(b"e"), bytes!(b"E")),
    option!(bytes!(b"-")),
    Call(DIGITS)
);
// 30 mbe_notation = "{" 'mantissa' number_i128 "," 'base' real_base "," 'exponent' number_i32 "}"
static RULE_30: Expression = seq!(
    symbol!(b"{"),
    keyword!(b"mantissa"),
    Call(NUMBER_I128),
    symbol!(b","),
    keyword!(b"base"),
    Call(REAL_BASE),
    symbol!(b","),
    keyword!(b"exponent"),
    Call(NUMBER_I32),
    symbol!(b"}")
);
// 31 real_base = number_u64 {2 or 10}
static RULE_31: Expression = Guarded(&Call(NUMBER_U64), Guard::IsBase);
// 32 real_value = dot_notation / mbe_notation
static RULE_32: Expression = choice!(Call(DOT_NOTATION), Call(MBE_NOTATION));
// 33 sequence_value = "{" value_list? "}"
static RULE_33: Expression = seq!(symbol!(b"{"), option!(Call(VALUE_LIST)), symbol!(b"}"));
// 34 value_list = struct_item ("," struct_item)*
static RULE_34: Expression = seq!(
    Call(STRUCT_ITEM),
    Many(&seq!(symbol!(b","), Call(STRUCT_ITEM)))
);
// 35 struct_item = value_identifier asn1_value / asn1_value
static RULE_35: Expression = choice!(
    seq!(Call(VALUE_IDENTIFIER), Call(ASN1_VALUE)),
    Call(ASN1_VALUE)
);
// 36 time_chars = (digit / one of +-:.,/CDHMRPSTWYZ)+ {a digit and another byte}
static RULE_36: Expression = Guarded(&some!(choice!(DIGIT, TIME_MARK)), Guard::IsTime);
// 37 time_value = sp `"` time_chars `"`
static RULE_37: Expression = seq!(BLANKS, bytes!(b"\""), Call(TIME_CHARS), bytes!(b"\""));
// 38 binary = sp `'` (`0` / `1` / blank)* `'B`
static RULE_38: Expression = seq!(
    BLANKS,
    bytes!(b"'"),
    Many(&choice!(bytes!(b"0"), bytes!(b"1"), BLANK)),
    bytes!(b"'B")
);
// 39 hexadecimal = sp `'` (digit / one of ABCDEF / blank)* `'H`
static RULE_39: Expression = seq!(
    BLANKS,
    bytes!(b"'"),
    Many(&choice!(DIGIT, HEX_LETTER, BLANK)),
    bytes!(b"'H")
);
// 40 name_list = value_identifier ("," value_identifier)*
static RULE_40: Expression = seq!(
    Call(VALUE_IDENTIFIER),
    Many(&seq!(symbol!(b","), Call(VALUE_IDENTIFIER)))
);
// 41 named_bits = "{" name_list? "}"
static RULE_41: Expression = seq!(symbol!(b"{"), option!(Call(NAME_LIST)), symbol!(b"}"));
// 42 bit_string_value = binary / hexadecimal / named_bits
static RULE_42: Expression = choice!(Call(BINARY), Call(HEXADECIMAL), Call(NAMED_BITS));
// 43 boolean_value = 'TRUE' / 'FALSE'
static RULE_43: Expression = choice!(keyword_as!(True, b"TRUE"), keyword_as!(False, b"FALSE"));
// 44 integer_value = number_i128
static RULE_44: Expression = Call(NUMBER_I128);
// 45 quoted_body = (`""` / !`"` any)*
static RULE_45: Expression = Many(&choice!(bytes!(b"\"\""), seq!(Not(&bytes!(b"\"")), ANY)));
// 46 quoted = sp `"` quoted_body `"`
static RULE_46: Expression = seq!(BLANKS, bytes!(b"\""), Call(QUOTED_BODY), bytes!(b"\""));
// 47 octet_number = number_u64 {at most 255}
static RULE_47: Expression = Guarded(&Call(NUMBER_U64), Guard::FitsU8);
// 48 quadruple = "{" octet_number "," octet_number "," octet_number "," octet_number "}" {first 0, a character}
static RULE_48: Expression = Guarded(
    &seq!(
        symbol!(b"{"),
        Call(OCTET_NUMBER),
        symbol!(b","),
        Call(OCTET_NUMBER),
        symbol!(b","),
        Call(OCTET_NUMBER),
        symbol!(b","),
        Call(OCTET_NUMBER),
        symbol!(b"}")
    ),
    Guard::IsCharacter,
);
// 49 character_string_value = quoted / quadruple
static RULE_49: Expression = choice!(Call(QUOTED), Call(QUADRUPLE));
// 50 path_step = identifier "." "&"
static RULE_50: Expression = seq!(Call(IDENTIFIER), symbol!(b"."), symbol!(b"&"));
// 51 value_path = path_step*
static RULE_51: Expression = Many(&Call(PATH_STEP));
// 52 elsewhere_declared_value = value_path value_identifier
static RULE_52: Expression = seq!(Call(VALUE_PATH), Call(VALUE_IDENTIFIER));
// 53 asn1_value = all_value / null_value / object_identifier_value / choice_value / real_value / sequence_value / time_value / bit_string_value / boolean_value / integer_value / character_string_value / elsewhere_declared_value
static RULE_53: Expression = choice!(
    Call(ALL_VALUE),
    Call(NULL_VALUE),
    Call(OBJECT_IDENTIFIER_VALUE),
    Call(CHOICE_VALUE),
    Call(REAL_VALUE),
    Call(SEQUENCE_VALUE),
    Call(TIME_VALUE),
    Call(BIT_STRING_VALUE),
    Call(BOOLEAN_VALUE),
    Call(INTEGER_VALUE),
    Call(CHARACTER_STRING_VALUE),
    Call(ELSEWHERE_DECLARED_VALUE)
);

// The row of one of these rules.
#[tactic(auto, unfolding(crate::specs::ValueRules::value_rules_before))]
pub(crate) fn value_row(rule: u8) -> &'static Expression
    requires first { 23 ≤ rule }
    requires last { rule ≤ 53 }
    ensures { (further : List Row) → expression result.now ≡ rule_of (value_rules_before further) (rule - 23) }
{
    match rule {
        23 => &RULE_23,
        24 => &RULE_24,
        25 => &RULE_25,
        26 => &RULE_26,
        27 => &RULE_27,
        28 => &RULE_28,
        29 => &RULE_29,
        30 => &RULE_30,
        31 => &RULE_31,
        32 => &RULE_32,
        33 => &RULE_33,
        34 => &RULE_34,
        35 => &RULE_35,
        36 => &RULE_36,
        37 => &RULE_37,
        38 => &RULE_38,
        39 => &RULE_39,
        40 => &RULE_40,
        41 => &RULE_41,
        42 => &RULE_42,
        43 => &RULE_43,
        44 => &RULE_44,
        45 => &RULE_45,
        46 => &RULE_46,
        47 => &RULE_47,
        48 => &RULE_48,
        49 => &RULE_49,
        50 => &RULE_50,
        51 => &RULE_51,
        52 => &RULE_52,
        53 => &RULE_53,
        0..=22 | 54..=255 => unreachable!(),
    }
}
