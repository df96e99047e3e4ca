//! Rules 102 to 139: constraints, and of what is handed to templates.
//!
//! The words of a row are explained in `lexical_rules.rt`; `'X'` skips blanks and comments, and then stands as a whole
//! word, and `words(A, B)` is one of these words behind blanks and comments. `whole.rt` alone calls this file.

ghost use Rattle.std.specs.Prelude.{◌≡◌, ◌≤◌, ◌-◌, List};
ghost use Rattle.asn_rules.specs.Expression.{Expression as Row, expression, rule_of};
ghost use Rattle.asn_rules.specs.ConstraintRules.{constraint_rules_before};

use crate::expression::Expression;
use crate::expression::Expression::{Call, Guarded, Many, Not};
use crate::forms::{
    ANY, BLANKS, EMPTY, GAP, bytes, choice, keyword, keyword_as, option, parens, seq, some, symbol,
    symbol_as, words,
};
use crate::marks::Mark;
use crate::names::{
    ADDITIONS, ASN1_TYPE, ASN1_VALUE, BRACE_GROUP, BRACE_TEXT, CONSTRAINT, CONSTRAINT_ITEM,
    CONTAINED_SUBTYPE, CONTENT_BODY, CONTENT_CONSTRAINT, DOTS, DUMMY, ELEMENT_SET, EXTENSION_TAIL,
    IDENTIFIER, INFORMATION_OBJECT, MEMBER_LIST, MULTIPLE_TYPE_CONSTRAINTS, OBJECT_SET, PARAMETER,
    PARAMETERS, PATTERN_CONSTRAINT, PERMITTED_ALPHABET_CONSTRAINT, PROPERTY_SETTINGS_CONSTRAINT,
    QUOTED, RANGE_BODY, RANGE_HIGH, RANGE_LOW, RANGE_SEPERATOR, RELATIONAL_CONSTRAINT, RELATIONS,
    SET_OPERATION, SET_OPERATOR, SET_REST, SETTING_PAIR, SINGLE_CONSTRAINT, SINGLE_TYPE_CONSTRAINT,
    SINGLE_VALUE, SIZE_CONSTRAINT, SUBSET_MEMBER, SUBTYPE_ELEMENT, TABLE_CONSTRAINT,
    USER_DEFINED_CONSTRAINT, VALUE_IDENTIFIER, VALUE_RANGE,
};
use asn_rules_guards::{Guard, Sight};

// 102 constraint = constraint_item+
static RULE_102: Expression = some!(Call(CONSTRAINT_ITEM));
// 103 constraint_item = single_constraint / size_constraint / parameters
static RULE_103: Expression = choice!(
    Call(SINGLE_CONSTRAINT),
    Call(SIZE_CONSTRAINT),
    Call(PARAMETERS)
);
// 104 single_constraint = "(" (content_constraint / table_constraint / element_set) ")"
static RULE_104: Expression = seq!(
    symbol!(b"("),
    choice!(
        Call(CONTENT_CONSTRAINT),
        Call(TABLE_CONSTRAINT),
        Call(ELEMENT_SET)
    ),
    symbol!(b")")
);
// 105 content_body = 'CONTAINING' asn1_type 'ENCODED' 'BY' asn1_value / 'CONTAINING' asn1_type / 'ENCODED' 'BY' asn1_value
static RULE_105: Expression = choice!(
    seq!(
        keyword!(b"CONTAINING"),
        Call(ASN1_TYPE),
        keyword!(b"ENCODED"),
        keyword!(b"BY"),
        Call(ASN1_VALUE)
    ),
    seq!(keyword!(b"CONTAINING"), Call(ASN1_TYPE)),
    seq!(keyword!(b"ENCODED"), keyword!(b"BY"), Call(ASN1_VALUE))
);
// 106 content_constraint = par(content_body)
static RULE_106: Expression = parens!(Call(CONTENT_BODY));
// 107 relational_constraint = "@" dots identifier
static RULE_107: Expression = seq!(symbol!(b"@"), Call(DOTS), Call(IDENTIFIER));
// 108 dots = `.`*
static RULE_108: Expression = Many(&bytes!(b"."));
// 109 relations = "{" relational_constraint ("," relational_constraint)* "}"
static RULE_109: Expression = seq!(
    symbol!(b"{"),
    Call(RELATIONAL_CONSTRAINT),
    Many(&seq!(symbol!(b","), Call(RELATIONAL_CONSTRAINT))),
    symbol!(b"}")
);
// 110 table_constraint = par(object_set relations?)
static RULE_110: Expression = parens!(seq!(Call(OBJECT_SET), option!(Call(RELATIONS))));
// 111 element_set = set_rest extension_tail?
static RULE_111: Expression = seq!(Call(SET_REST), option!(Call(EXTENSION_TAIL)));
// 112 set_rest = set_operation / subtype_element
static RULE_112: Expression = choice!(Call(SET_OPERATION), Call(SUBTYPE_ELEMENT));
// 113 set_operation = subtype_element set_operator set_rest
static RULE_113: Expression = seq!(Call(SUBTYPE_ELEMENT), Call(SET_OPERATOR), Call(SET_REST));
// 114 set_operator = 'INTERSECTION' / "^" / 'UNION' / "|" / 'EXCEPT'
static RULE_114: Expression = choice!(
    keyword_as!(Intersection, b"INTERSECTION"),
    symbol_as!(Intersection, b"^"),
    keyword_as!(Union, b"UNION"),
    symbol_as!(Union, b"|"),
    keyword_as!(Except, b"EXCEPT")
);
// 115 additions = ("," set_rest)+
static RULE_115: Expression = some!(seq!(symbol!(b","), Call(SET_REST)));
// 116 extension_tail = "," "..." additions?
static RULE_116: Expression = seq!(symbol!(b","), symbol!(b"..."), option!(Call(ADDITIONS)));
// 117 subtype_element = single_type_constraint / multiple_type_constraints / size_constraint / pattern_constraint / user_defined_constraint / property_settings_constraint / permitted_alphabet_constraint / value_range / single_value / contained_subtype
static RULE_117: Expression = choice!(
    Call(SINGLE_TYPE_CONSTRAINT),
    Call(MULTIPLE_TYPE_CONSTRAINTS),
    Call(SIZE_CONSTRAINT),
    Call(PATTERN_CONSTRAINT),
    Call(USER_DEFINED_CONSTRAINT),
    Call(PROPERTY_SETTINGS_CONSTRAINT),
    Call(PERMITTED_ALPHABET_CONSTRAINT),
    Call(VALUE_RANGE),
    Call(SINGLE_VALUE),
    Call(CONTAINED_SUBTYPE)
);
// 118 single_type_constraint = par('WITH' 'COMPONENT' constraint)
static RULE_118: Expression = parens!(seq!(
    keyword!(b"WITH"),
    keyword!(b"COMPONENT"),
    Call(CONSTRAINT)
));
// 119 member_list = (subset_member ","?)+
static RULE_119: Expression = some!(seq!(Call(SUBSET_MEMBER), option!(symbol!(b","))));
// 120 multiple_type_constraints = par('WITH' 'COMPONENTS' "{" ("..." ",")? member_list "}")
static RULE_120: Expression = parens!(seq!(
    keyword!(b"WITH"),
    keyword!(b"COMPONENTS"),
    symbol!(b"{"),
    option!(seq!(symbol_as!(Partial, b"..."), symbol!(b","))),
    Call(MEMBER_LIST),
    symbol!(b"}")
));
// 121 subset_member = identifier constraint? words(PRESENT, ABSENT, OPTIONAL)?
static RULE_121: Expression = seq!(
    Call(IDENTIFIER),
    option!(Call(CONSTRAINT)),
    option!(words!(
        (Present, b"PRESENT"),
        (Absent, b"ABSENT"),
        (Optional, b"OPTIONAL")
    ))
);
// 122 size_constraint = par('SIZE' "(" element_set ")")
static RULE_122: Expression = parens!(seq!(
    keyword!(b"SIZE"),
    symbol!(b"("),
    Call(ELEMENT_SET),
    symbol!(b")")
));
// 123 pattern_constraint = par('PATTERN' quoted)
static RULE_123: Expression = parens!(seq!(keyword!(b"PATTERN"), Call(QUOTED)));
// 124 brace_text = (brace_group / !`{` !`}` any)*
static RULE_124: Expression = Many(&choice!(
    Call(BRACE_GROUP),
    seq!(Not(&bytes!(b"{")), Not(&bytes!(b"}")), ANY)
));
// 125 brace_group = `{` brace_text `}`
static RULE_125: Expression = seq!(bytes!(b"{"), Call(BRACE_TEXT), bytes!(b"}"));
// 126 user_defined_constraint = par('CONSTRAINED' 'BY' sp brace_group)
static RULE_126: Expression = parens!(seq!(
    keyword!(b"CONSTRAINED"),
    keyword!(b"BY"),
    BLANKS,
    Call(BRACE_GROUP)
));
// 127 setting_pair = words(Basic, Date, Year, Time, Local-or-UTC, Interval-type, SE-point, Recurrence, Midnight) `=` identifier {the pair is a setting}
static RULE_127: Expression = Guarded(
    &seq!(
        words!(
            (Basic, b"Basic"),
            (Date, b"Date"),
            (Year, b"Year"),
            (Time, b"Time"),
            (LocalOrUtc, b"Local-or-UTC"),
            (IntervalType, b"Interval-type"),
            (SePoint, b"SE-point"),
            (Recurrence, b"Recurrence"),
            (Midnight, b"Midnight")
        ),
        bytes!(b"="),
        Call(IDENTIFIER)
    ),
    Guard::IsSetting,
);
// 128 property_settings_constraint = 'SETTINGS' sp `"` setting_pair+ sp `"`
static RULE_128: Expression = seq!(
    keyword!(b"SETTINGS"),
    BLANKS,
    bytes!(b"\""),
    some!(Call(SETTING_PAIR)),
    BLANKS,
    bytes!(b"\"")
);
// 129 permitted_alphabet_constraint = par('FROM' "(" set_rest ")")
static RULE_129: Expression = parens!(seq!(
    keyword!(b"FROM"),
    symbol!(b"("),
    Call(SET_REST),
    symbol!(b")")
));
// 130 range_low = 'MIN' / asn1_value
static RULE_130: Expression = choice!(keyword!(b"MIN"), Call(ASN1_VALUE));
// 131 range_high = 'MAX' / asn1_value
static RULE_131: Expression = choice!(keyword!(b"MAX"), Call(ASN1_VALUE));
// 132 range_body = range_low ("<" / ">")? range_seperator "<"? range_high
static RULE_132: Expression = seq!(
    Call(RANGE_LOW),
    option!(choice!(symbol_as!(LowOpen, b"<"), symbol_as!(LowOpen, b">"))),
    Call(RANGE_SEPERATOR),
    option!(symbol_as!(HighOpen, b"<")),
    Call(RANGE_HIGH)
);
// 133 value_range = par(range_body extension_tail?)
static RULE_133: Expression = parens!(seq!(Call(RANGE_BODY), option!(Call(EXTENSION_TAIL))));
// 134 single_value = par(asn1_value extension_tail?)
static RULE_134: Expression = parens!(seq!(Call(ASN1_VALUE), option!(Call(EXTENSION_TAIL))));
// 135 contained_subtype = par('INCLUDES'? asn1_type extension_tail?)
static RULE_135: Expression = parens!(seq!(
    option!(keyword!(b"INCLUDES")),
    Call(ASN1_TYPE),
    option!(Call(EXTENSION_TAIL))
));
// 136 parameter = asn1_value / asn1_type / object_set / information_object
static RULE_136: Expression = choice!(
    Call(ASN1_VALUE),
    Call(ASN1_TYPE),
    Call(OBJECT_SET),
    Call(INFORMATION_OBJECT)
);
// 137 parameters = "{" parameter ("," parameter)* "}"
static RULE_137: Expression = seq!(
    symbol!(b"{"),
    Call(PARAMETER),
    Many(&seq!(symbol!(b","), Call(PARAMETER))),
    symbol!(b"}")
);
// 138 dummy = asn1_type ":" value_identifier / value_identifier / identifier ":" identifier / identifier
static RULE_138: Expression = choice!(
    seq!(Call(ASN1_TYPE), symbol!(b":"), Call(VALUE_IDENTIFIER)),
    Call(VALUE_IDENTIFIER),
    seq!(Call(IDENTIFIER), symbol!(b":"), Call(IDENTIFIER)),
    Call(IDENTIFIER)
);
// 139 parameterization = "{" dummy ("," dummy)* "}"
static RULE_139: Expression = seq!(
    symbol!(b"{"),
    Call(DUMMY),
    Many(&seq!(symbol!(b","), Call(DUMMY))),
    symbol!(b"}")
);

// The row of one of these rules.
#[tactic(auto, unfolding(crate::specs::ConstraintRules::constraint_rules_before))]
pub(crate) fn constraint_row(rule: u8) -> &'static Expression
    requires first { 102 ≤ rule }
    requires last { rule ≤ 139 }
    ensures { (further : List Row) → expression result.now ≡ rule_of (constraint_rules_before further) (rule - 102) }
{
    match rule {
        102 => &RULE_102,
        103 => &RULE_103,
        104 => &RULE_104,
        105 => &RULE_105,
        106 => &RULE_106,
        107 => &RULE_107,
        108 => &RULE_108,
        109 => &RULE_109,
        110 => &RULE_110,
        111 => &RULE_111,
        112 => &RULE_112,
        113 => &RULE_113,
        114 => &RULE_114,
        115 => &RULE_115,
        116 => &RULE_116,
        117 => &RULE_117,
        118 => &RULE_118,
        119 => &RULE_119,
        120 => &RULE_120,
        121 => &RULE_121,
        122 => &RULE_122,
        123 => &RULE_123,
        124 => &RULE_124,
        125 => &RULE_125,
        126 => &RULE_126,
        127 => &RULE_127,
        128 => &RULE_128,
        129 => &RULE_129,
        130 => &RULE_130,
        131 => &RULE_131,
        132 => &RULE_132,
        133 => &RULE_133,
        134 => &RULE_134,
        135 => &RULE_135,
        136 => &RULE_136,
        137 => &RULE_137,
        138 => &RULE_138,
        139 => &RULE_139,
        0..=101 | 140..=255 => unreachable!(),
    }
}
