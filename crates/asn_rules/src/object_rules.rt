//! Rules 140 to 161: object classes, objects and object sets.
//!
//! The words of a row are explained in `lexical_rules.rt`; `'X'` skips blanks and comments, and then stands as a whole
//! word, and `words(A, B)` is one of these words behind blanks and comments. `whole.rt` alone calls this file.

ghost use Rattle.std.specs.Prelude.{◌≡◌, ◌≤◌, ◌-◌, List};
ghost use Rattle.asn_rules.specs.Expression.{Expression as Row, expression, rule_of};
ghost use Rattle.asn_rules.specs.ObjectRules.{object_rules_before};

use crate::expression::Expression;
use crate::expression::Expression::{Call, Guarded, Many};
use crate::forms::{
    BLANKS, EMPTY, GAP, LOWER, UPPER, ahead, bytes, choice, keyword, keyword_as, option, seq, some,
    symbol, symbol_as,
};
use crate::marks::Mark;
use crate::names::{
    ASN1_TYPE, ASN1_VALUE, CLASS_FIELD, CUSTOM_ITEM, CUSTOM_SYNTAX, DEFAULT, DEFAULT_FIELD,
    DEFAULT_SYNTAX, FIELD_LIST, IDENTIFIER, INFORMATION_OBJECT, LITERAL_WORD,
    MULTIPLE_VALUE_FIELD_ID, NAME_TAIL, OBJECT_FIELD_IDENTIFIER, OBJECT_ITEM, OBJECT_LIST,
    OBJECT_SET, OPTIONAL_MARKER, SET_MARK, SET_MORE, SINGLE_VALUE_FIELD_ID, SYNTAX_GROUP,
    SYNTAX_ITEM, SYNTAX_LITERAL, SYNTAX_PART, UPPERCASE_IDENTIFIER,
};
use asn_rules_guards::{Guard, Sight};

// 140 single_value_field_id = sp `&` lower name_tail
static RULE_140: Expression = seq!(BLANKS, bytes!(b"&"), LOWER, Call(NAME_TAIL));
// 141 multiple_value_field_id = sp `&` upper name_tail
static RULE_141: Expression = seq!(BLANKS, bytes!(b"&"), UPPER, Call(NAME_TAIL));
// 142 object_field_identifier = single_value_field_id / multiple_value_field_id
static RULE_142: Expression = choice!(Call(SINGLE_VALUE_FIELD_ID), Call(MULTIPLE_VALUE_FIELD_ID));
// 143 type_identifier = 'TYPE-IDENTIFIER'
static RULE_143: Expression = keyword!(b"TYPE-IDENTIFIER");
// 144 class_field = object_field_identifier asn1_type? 'UNIQUE'? optional_marker default
static RULE_144: Expression = seq!(
    Call(OBJECT_FIELD_IDENTIFIER),
    option!(Call(ASN1_TYPE)),
    option!(keyword_as!(Unique, b"UNIQUE")),
    Call(OPTIONAL_MARKER),
    Call(DEFAULT)
);
// 145 field_list = (class_field ","?)*
static RULE_145: Expression = Many(&seq!(Call(CLASS_FIELD), option!(symbol!(b","))));
// 146 syntax_literal = uppercase_identifier
static RULE_146: Expression = Call(UPPERCASE_IDENTIFIER);
// 147 syntax_group = "[" syntax_item+ "]"
static RULE_147: Expression = seq!(symbol!(b"["), some!(Call(SYNTAX_ITEM)), symbol!(b"]"));
// 148 syntax_item = syntax_literal / object_field_identifier / "," / syntax_group
static RULE_148: Expression = choice!(
    Call(SYNTAX_LITERAL),
    Call(OBJECT_FIELD_IDENTIFIER),
    symbol_as!(Comma, b","),
    Call(SYNTAX_GROUP)
);
// 149 syntax_part = 'WITH' 'SYNTAX' "{" syntax_item+ "}"
static RULE_149: Expression = seq!(
    keyword!(b"WITH"),
    keyword!(b"SYNTAX"),
    symbol!(b"{"),
    some!(Call(SYNTAX_ITEM)),
    symbol!(b"}")
);
// 150 information_object_class = 'CLASS' "{" field_list "}" syntax_part?
static RULE_150: Expression = seq!(
    keyword!(b"CLASS"),
    symbol!(b"{"),
    Call(FIELD_LIST),
    symbol!(b"}"),
    option!(Call(SYNTAX_PART))
);
// 151 default_field = single_value_field_id asn1_value / multiple_value_field_id object_set / multiple_value_field_id asn1_type
static RULE_151: Expression = choice!(
    seq!(Call(SINGLE_VALUE_FIELD_ID), Call(ASN1_VALUE)),
    seq!(Call(MULTIPLE_VALUE_FIELD_ID), Call(OBJECT_SET)),
    seq!(Call(MULTIPLE_VALUE_FIELD_ID), Call(ASN1_TYPE))
);
// 152 default_syntax = (default_field ","?)+
static RULE_152: Expression = some!(seq!(Call(DEFAULT_FIELD), option!(symbol!(b","))));
// 153 literal_word = uppercase_identifier &"{" {no keyword}
static RULE_153: Expression = Guarded(
    &seq!(Call(UPPERCASE_IDENTIFIER), ahead!(symbol!(b"{"))),
    Guard::NoKeyword,
);
// 154 custom_item = "," / literal_word / asn1_type / asn1_value / object_set / syntax_literal
static RULE_154: Expression = choice!(
    symbol_as!(Comma, b","),
    Call(LITERAL_WORD),
    Call(ASN1_TYPE),
    Call(ASN1_VALUE),
    Call(OBJECT_SET),
    Call(SYNTAX_LITERAL)
);
// 155 custom_syntax = custom_item+
static RULE_155: Expression = some!(Call(CUSTOM_ITEM));
// 156 information_object = "{" (default_syntax / custom_syntax) "}"
static RULE_156: Expression = seq!(
    symbol!(b"{"),
    choice!(Call(DEFAULT_SYNTAX), Call(CUSTOM_SYNTAX)),
    symbol!(b"}")
);
// 157 object_item = information_object / identifier
static RULE_157: Expression = choice!(Call(INFORMATION_OBJECT), Call(IDENTIFIER));
// 158 object_list = object_item (("|" / 'UNION') object_item)*
static RULE_158: Expression = seq!(
    Call(OBJECT_ITEM),
    Many(&seq!(
        choice!(symbol!(b"|"), keyword!(b"UNION")),
        Call(OBJECT_ITEM)
    ))
);
// 159 set_mark = ","? "..."
static RULE_159: Expression = seq!(option!(symbol!(b",")), symbol!(b"..."));
// 160 set_more = "," object_list
static RULE_160: Expression = seq!(symbol!(b","), Call(OBJECT_LIST));
// 161 object_set = "{" object_list? set_mark? set_more? "}"
static RULE_161: Expression = seq!(
    symbol!(b"{"),
    option!(Call(OBJECT_LIST)),
    option!(Call(SET_MARK)),
    option!(Call(SET_MORE)),
    symbol!(b"}")
);

// The row of one of these rules.
#[tactic(auto, unfolding(crate::specs::ObjectRules::object_rules_before))]
pub(crate) fn object_row(rule: u8) -> &'static Expression
    requires first { 140 ≤ rule }
    requires last { rule ≤ 161 }
    ensures { (further : List Row) → expression result.now ≡ rule_of (object_rules_before further) (rule - 140) }
{
    match rule {
        140 => &RULE_140,
        141 => &RULE_141,
        142 => &RULE_142,
        143 => &RULE_143,
        144 => &RULE_144,
        145 => &RULE_145,
        146 => &RULE_146,
        147 => &RULE_147,
        148 => &RULE_148,
        149 => &RULE_149,
        150 => &RULE_150,
        151 => &RULE_151,
        152 => &RULE_152,
        153 => &RULE_153,
        154 => &RULE_154,
        155 => &RULE_155,
        156 => &RULE_156,
        157 => &RULE_157,
        158 => &RULE_158,
        159 => &RULE_159,
        160 => &RULE_160,
        161 => &RULE_161,
        0..=139 | 162..=255 => unreachable!(),
    }
}
