//! Rules 54 to 101: types.
//!
//! The words of a row are explained in `lexical_rules.rt`; `'X'` skips blanks and comments, and then stands as a whole
//! word, and `words(A, B)` is one of these words behind blanks and comments. `whole.rt` alone calls this file.

ghost use Rattle.std.specs.Prelude.{◌≡◌, ◌≤◌, ◌-◌, List};
ghost use Rattle.asn_rules.specs.Expression.{Expression as Row, expression, rule_of};
ghost use Rattle.asn_rules.specs.TypeRules.{type_rules_before};

use crate::expression::Expression;
use crate::expression::Expression::{Call, Guarded, Many};
use crate::forms::{
    BLANK, EMPTY, GAP, choice, keyword, keyword_as, option, seq, some, symbol, words,
};
use crate::marks::Mark;
use crate::names::{
    ADDITION_LIST, ASN_TAG, ASN1_TYPE, ASN1_VALUE, BIT_STRING, BOOLEAN, CHARACTER_STRING, CHOICE,
    CHOICE_OPTION, CLASS_NAME, COMMENT, COMPONENT_LIST, COMPONENT_PATH, CONSTRAINT, DEFAULT,
    DISTINGUISHED_VAL, DISTINGUISHED_VALUES, ELEMENT, ELSEWHERE_DECLARED_TYPE, EMBEDDED_PDV,
    ENUMERAL, ENUMERAL_LIST, ENUMERATED, EXTENSION_GROUP, EXTENSION_MARK, EXTENSION_MARKER,
    EXTERNAL, FIELD_STEP, GENERALIZED_TIME, GROUP_NUMBER, IDENTIFIER,
    INFORMATION_OBJECT_FIELD_REFERENCE, INSTANCE_OF, INTEGER, ITEM_COMMENT, ITEM_NUMBER, NULL,
    NUMBER_I128, NUMBER_U64, OBJECT_FIELD_IDENTIFIER, OBJECT_IDENTIFIER, OCTET_STRING,
    OPTION_ADDITIONS, OPTION_GROUP, OPTION_LIST, OPTIONAL_MARKER, REAL, SELECTION_TYPE_CHOICE,
    SEQUENCE, SEQUENCE_COMPONENT, SEQUENCE_OF, SEQUENCE_OR_SET_MEMBER, SET, SET_OF, STRUCT_BODY,
    TIME, TITLE_CASE_IDENTIFIER, UTC_TIME, VALUE_IDENTIFIER, VALUE_PATH,
};
use asn_rules_guards::{Guard, Sight};

// 54 null = 'NULL'
static RULE_54: Expression = keyword!(b"NULL");
// 55 selection_type_choice = value_identifier "<" title_case_identifier
static RULE_55: Expression = seq!(
    Call(VALUE_IDENTIFIER),
    symbol!(b"<"),
    Call(TITLE_CASE_IDENTIFIER)
);
// 56 object_identifier = ('OBJECT' 'IDENTIFIER' / 'RELATIVE-OID') constraint?
static RULE_56: Expression = seq!(
    choice!(
        seq!(keyword!(b"OBJECT"), keyword!(b"IDENTIFIER")),
        keyword!(b"RELATIVE-OID")
    ),
    option!(Call(CONSTRAINT))
);
// 57 element = value_identifier asn1_type / asn1_type
static RULE_57: Expression = choice!(
    seq!(Call(VALUE_IDENTIFIER), Call(ASN1_TYPE)),
    Call(ASN1_TYPE)
);
// 58 sequence_of = 'SEQUENCE' constraint? 'OF' element
static RULE_58: Expression = seq!(
    keyword!(b"SEQUENCE"),
    option!(Call(CONSTRAINT)),
    keyword!(b"OF"),
    Call(ELEMENT)
);
// 59 set_of = 'SET' constraint? 'OF' element
static RULE_59: Expression = seq!(
    keyword!(b"SET"),
    option!(Call(CONSTRAINT)),
    keyword!(b"OF"),
    Call(ELEMENT)
);
// 60 sequence = 'SEQUENCE' struct_body constraint?
static RULE_60: Expression = seq!(
    keyword!(b"SEQUENCE"),
    Call(STRUCT_BODY),
    option!(Call(CONSTRAINT))
);
// 61 set = 'SET' struct_body constraint?
static RULE_61: Expression = seq!(
    keyword!(b"SET"),
    Call(STRUCT_BODY),
    option!(Call(CONSTRAINT))
);
// 62 struct_body = "{" component_list extension_mark? addition_list "}"
static RULE_62: Expression = seq!(
    symbol!(b"{"),
    Call(COMPONENT_LIST),
    option!(Call(EXTENSION_MARK)),
    Call(ADDITION_LIST),
    symbol!(b"}")
);
// 63 extension_mark = extension_marker ","?
static RULE_63: Expression = seq!(Call(EXTENSION_MARKER), option!(symbol!(b",")));
// 64 component_list = (sequence_component ","?)*
static RULE_64: Expression = Many(&seq!(Call(SEQUENCE_COMPONENT), option!(symbol!(b","))));
// 65 addition_list = ((extension_group / sequence_component) ","?)*
static RULE_65: Expression = Many(&seq!(
    choice!(Call(EXTENSION_GROUP), Call(SEQUENCE_COMPONENT)),
    option!(symbol!(b","))
));
// 66 extension_group = "[" "[" group_number? (sequence_component ","?)+ "]" "]"
static RULE_66: Expression = seq!(
    symbol!(b"["),
    symbol!(b"["),
    option!(Call(GROUP_NUMBER)),
    some!(seq!(Call(SEQUENCE_COMPONENT), option!(symbol!(b",")))),
    symbol!(b"]"),
    symbol!(b"]")
);
// 67 group_number = number_i128 ":"
static RULE_67: Expression = seq!(Call(NUMBER_I128), symbol!(b":"));
// 68 component_path = identifier ("." "&" identifier)*
static RULE_68: Expression = seq!(
    Call(IDENTIFIER),
    Many(&seq!(symbol!(b"."), symbol!(b"&"), Call(IDENTIFIER)))
);
// 69 sequence_component = 'COMPONENTS' 'OF' component_path / sequence_or_set_member
static RULE_69: Expression = choice!(
    seq!(
        keyword!(b"COMPONENTS"),
        keyword!(b"OF"),
        Call(COMPONENT_PATH)
    ),
    Call(SEQUENCE_OR_SET_MEMBER)
);
// 70 sequence_or_set_member = identifier asn_tag? asn1_type constraint? optional_marker default
static RULE_70: Expression = seq!(
    Call(IDENTIFIER),
    option!(Call(ASN_TAG)),
    Call(ASN1_TYPE),
    option!(Call(CONSTRAINT)),
    Call(OPTIONAL_MARKER),
    Call(DEFAULT)
);
// 71 optional_marker = 'OPTIONAL'?
static RULE_71: Expression = option!(keyword_as!(Optional, b"OPTIONAL"));
// 72 default = ('DEFAULT' asn1_value)?
static RULE_72: Expression = option!(seq!(keyword!(b"DEFAULT"), Call(ASN1_VALUE)));
// 73 asn_tag = "[" words(PRIVATE, APPLICATION, UNIVERSAL)? number_u64 "]" words(EXPLICIT, IMPLICIT)?
static RULE_73: Expression = seq!(
    symbol!(b"["),
    option!(words!(
        (Private, b"PRIVATE"),
        (Application, b"APPLICATION"),
        (Universal, b"UNIVERSAL")
    )),
    Call(NUMBER_U64),
    symbol!(b"]"),
    option!(words!((Explicit, b"EXPLICIT"), (Implicit, b"IMPLICIT")))
);
// 74 utc_time = 'UTCTime' constraint?
static RULE_74: Expression = seq!(keyword!(b"UTCTime"), option!(Call(CONSTRAINT)));
// 75 external = 'EXTERNAL'
static RULE_75: Expression = keyword!(b"EXTERNAL");
// 76 embedded_pdv = 'EMBEDDED' 'PDV'
static RULE_76: Expression = seq!(keyword!(b"EMBEDDED"), keyword!(b"PDV"));
// 77 instance_of = 'INSTANCE' 'OF' class_name constraint?
static RULE_77: Expression = seq!(
    keyword!(b"INSTANCE"),
    keyword!(b"OF"),
    Call(CLASS_NAME),
    option!(Call(CONSTRAINT))
);
// 78 generalized_time = 'GeneralizedTime' constraint?
static RULE_78: Expression = seq!(keyword!(b"GeneralizedTime"), option!(Call(CONSTRAINT)));
// 79 real = 'REAL' constraint?
static RULE_79: Expression = seq!(keyword!(b"REAL"), option!(Call(CONSTRAINT)));
// 80 choice = 'CHOICE' "{" option_list extension_mark? option_additions "}"
static RULE_80: Expression = seq!(
    keyword!(b"CHOICE"),
    symbol!(b"{"),
    Call(OPTION_LIST),
    option!(Call(EXTENSION_MARK)),
    Call(OPTION_ADDITIONS),
    symbol!(b"}")
);
// 81 option_list = (choice_option ","?)*
static RULE_81: Expression = Many(&seq!(Call(CHOICE_OPTION), option!(symbol!(b","))));
// 82 option_additions = ((option_group / choice_option) ","?)*
static RULE_82: Expression = Many(&seq!(
    choice!(Call(OPTION_GROUP), Call(CHOICE_OPTION)),
    option!(symbol!(b","))
));
// 83 option_group = "[" "[" group_number? (choice_option ","?)+ "]" "]"
static RULE_83: Expression = seq!(
    symbol!(b"["),
    symbol!(b"["),
    option!(Call(GROUP_NUMBER)),
    some!(seq!(Call(CHOICE_OPTION), option!(symbol!(b",")))),
    symbol!(b"]"),
    symbol!(b"]")
);
// 84 choice_option = identifier asn_tag? asn1_type constraint?
static RULE_84: Expression = seq!(
    Call(IDENTIFIER),
    option!(Call(ASN_TAG)),
    Call(ASN1_TYPE),
    option!(Call(CONSTRAINT))
);
// 85 integer = 'INTEGER' distinguished_values? constraint?
static RULE_85: Expression = seq!(
    keyword!(b"INTEGER"),
    option!(Call(DISTINGUISHED_VALUES)),
    option!(Call(CONSTRAINT))
);
// 86 distinguished_values = "{" (distinguished_val ","?)* "}"
static RULE_86: Expression = seq!(
    symbol!(b"{"),
    Many(&seq!(Call(DISTINGUISHED_VAL), option!(symbol!(b",")))),
    symbol!(b"}")
);
// 87 distinguished_val = identifier "(" number_i128 ")"
static RULE_87: Expression = seq!(
    Call(IDENTIFIER),
    symbol!(b"("),
    Call(NUMBER_I128),
    symbol!(b")")
);
// 88 enumerated = 'ENUMERATED' "{" enumeral_list extension_mark? enumeral_list "}" {the numbers of all items are of 128 bits}
static RULE_88: Expression = Guarded(
    &seq!(
        keyword!(b"ENUMERATED"),
        symbol!(b"{"),
        Call(ENUMERAL_LIST),
        option!(Call(EXTENSION_MARK)),
        Call(ENUMERAL_LIST),
        symbol!(b"}")
    ),
    Guard::NumbersFit,
);
// 89 enumeral_list = enumeral*
static RULE_89: Expression = Many(&Call(ENUMERAL));
// 90 enumeral = identifier item_number? ","? item_comment?
static RULE_90: Expression = seq!(
    Call(IDENTIFIER),
    option!(Call(ITEM_NUMBER)),
    option!(symbol!(b",")),
    option!(Call(ITEM_COMMENT))
);
// 91 item_number = "(" number_i128 ")"
static RULE_91: Expression = seq!(symbol!(b"("), Call(NUMBER_I128), symbol!(b")"));
// 92 item_comment = blank* comment
static RULE_92: Expression = seq!(Many(&BLANK), Call(COMMENT));
// 93 boolean = 'BOOLEAN' constraint?
static RULE_93: Expression = seq!(keyword!(b"BOOLEAN"), option!(Call(CONSTRAINT)));
// 94 bit_string = 'BIT' 'STRING' distinguished_values? constraint?
static RULE_94: Expression = seq!(
    keyword!(b"BIT"),
    keyword!(b"STRING"),
    option!(Call(DISTINGUISHED_VALUES)),
    option!(Call(CONSTRAINT))
);
// 95 time = 'TIME' constraint?
static RULE_95: Expression = seq!(keyword!(b"TIME"), option!(Call(CONSTRAINT)));
// 96 octet_string = 'OCTET' 'STRING' constraint?
static RULE_96: Expression = seq!(
    keyword!(b"OCTET"),
    keyword!(b"STRING"),
    option!(Call(CONSTRAINT))
);
// 97 character_string = words(IA5String, UTF8String, NumericString, VisibleString, TeletexString, VideotexString, GraphicString, GeneralString, UniversalString, BMPString, PrintableString) constraint?
static RULE_97: Expression = seq!(
    words!(
        (Ia5String, b"IA5String"),
        (Utf8String, b"UTF8String"),
        (NumericString, b"NumericString"),
        (VisibleString, b"VisibleString"),
        (TeletexString, b"TeletexString"),
        (VideotexString, b"VideotexString"),
        (GraphicString, b"GraphicString"),
        (GeneralString, b"GeneralString"),
        (UniversalString, b"UniversalString"),
        (BmpString, b"BMPString"),
        (PrintableString, b"PrintableString")
    ),
    option!(Call(CONSTRAINT))
);
// 98 field_step = "." object_field_identifier
static RULE_98: Expression = seq!(symbol!(b"."), Call(OBJECT_FIELD_IDENTIFIER));
// 99 information_object_field_reference = class_name field_step+ constraint?
static RULE_99: Expression = seq!(
    Call(CLASS_NAME),
    some!(Call(FIELD_STEP)),
    option!(Call(CONSTRAINT))
);
// 100 elsewhere_declared_type = value_path title_case_identifier constraint?
static RULE_100: Expression = seq!(
    Call(VALUE_PATH),
    Call(TITLE_CASE_IDENTIFIER),
    option!(Call(CONSTRAINT))
);
// 101 asn1_type = null / selection_type_choice / object_identifier / sequence_of / sequence / set_of / set / utc_time / external / embedded_pdv / instance_of / generalized_time / real / choice / integer / enumerated / boolean / bit_string / time / octet_string / character_string / information_object_field_reference / elsewhere_declared_type
static RULE_101: Expression = choice!(
    Call(NULL),
    Call(SELECTION_TYPE_CHOICE),
    Call(OBJECT_IDENTIFIER),
    Call(SEQUENCE_OF),
    Call(SEQUENCE),
    Call(SET_OF),
    Call(SET),
    Call(UTC_TIME),
    Call(EXTERNAL),
    Call(EMBEDDED_PDV),
    Call(INSTANCE_OF),
    Call(GENERALIZED_TIME),
    Call(REAL),
    Call(CHOICE),
    Call(INTEGER),
    Call(ENUMERATED),
    Call(BOOLEAN),
    Call(BIT_STRING),
    Call(TIME),
    Call(OCTET_STRING),
    Call(CHARACTER_STRING),
    Call(INFORMATION_OBJECT_FIELD_REFERENCE),
    Call(ELSEWHERE_DECLARED_TYPE)
);

// The row of one of these rules.
#[tactic(auto, unfolding(crate::specs::TypeRules::type_rules_before))]
pub(crate) fn type_row(rule: u8) -> &'static Expression
    requires first { 54 ≤ rule }
    requires last { rule ≤ 101 }
    ensures { (further : List Row) → expression result.now ≡ rule_of (type_rules_before further) (rule - 54) }
{
    match rule {
        54 => &RULE_54,
        55 => &RULE_55,
        56 => &RULE_56,
        57 => &RULE_57,
        58 => &RULE_58,
        59 => &RULE_59,
        60 => &RULE_60,
        61 => &RULE_61,
        62 => &RULE_62,
        63 => &RULE_63,
        64 => &RULE_64,
        65 => &RULE_65,
        66 => &RULE_66,
        67 => &RULE_67,
        68 => &RULE_68,
        69 => &RULE_69,
        70 => &RULE_70,
        71 => &RULE_71,
        72 => &RULE_72,
        73 => &RULE_73,
        74 => &RULE_74,
        75 => &RULE_75,
        76 => &RULE_76,
        77 => &RULE_77,
        78 => &RULE_78,
        79 => &RULE_79,
        80 => &RULE_80,
        81 => &RULE_81,
        82 => &RULE_82,
        83 => &RULE_83,
        84 => &RULE_84,
        85 => &RULE_85,
        86 => &RULE_86,
        87 => &RULE_87,
        88 => &RULE_88,
        89 => &RULE_89,
        90 => &RULE_90,
        91 => &RULE_91,
        92 => &RULE_92,
        93 => &RULE_93,
        94 => &RULE_94,
        95 => &RULE_95,
        96 => &RULE_96,
        97 => &RULE_97,
        98 => &RULE_98,
        99 => &RULE_99,
        100 => &RULE_100,
        101 => &RULE_101,
        0..=53 | 102..=255 => unreachable!(),
    }
}
