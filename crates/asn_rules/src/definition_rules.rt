//! Rules 181 to 190: definitions and modules.
//!
//! The words of a row are explained in `lexical_rules.rt`; `'X'` skips blanks and comments, and then stands as a whole
//! word, and `words(A, B)` is one of these words behind blanks and comments. `whole.rt` alone calls this file.

ghost use Rattle.std.specs.Prelude.{◌≡◌, ◌≤◌, ◌-◌, List};
ghost use Rattle.asn_rules.specs.Expression.{Expression as Row, expression, rule_of};
ghost use Rattle.asn_rules.specs.DefinitionRules.{definition_rules_before};

use crate::expression::Expression;
use crate::expression::Expression::{Call, Many, Not};
use crate::forms::{ANY, BLANKS, EMPTY, choice, option, seq, some};
use crate::names::{
    ASN_MODULE, ASN_TAG, ASN1_TYPE, ASN1_VALUE, ASSIGNMENT, CLASS_NAME, COMMENTS, DEFINITION, END,
    ENUMERATED_VALUE, IDENTIFIER, INFORMATION_OBJECT, INFORMATION_OBJECT_CLASS, MODULE_REFERENCE,
    OBJECT_SET, PARAMETERIZATION, TITLE_CASE_IDENTIFIER, TOP_LEVEL_INFORMATION_DECLARATION,
    TOP_LEVEL_INFORMATION_OBJECT_DECLARATION, TOP_LEVEL_OBJECT_CLASS_DECLARATION,
    TOP_LEVEL_OBJECT_SET_DECLARATION, TOP_LEVEL_TYPE_DECLARATION, TOP_LEVEL_VALUE_DECLARATION,
    TYPE_IDENTIFIER, UPPERCASE_IDENTIFIER, VALUE_IDENTIFIER,
};

// 181 top_level_information_object_declaration = comments identifier parameterization? class_name assignment information_object
static RULE_181: Expression = seq!(
    Call(COMMENTS),
    Call(IDENTIFIER),
    option!(Call(PARAMETERIZATION)),
    Call(CLASS_NAME),
    Call(ASSIGNMENT),
    Call(INFORMATION_OBJECT)
);
// 182 top_level_object_set_declaration = comments identifier parameterization? class_name assignment object_set
static RULE_182: Expression = seq!(
    Call(COMMENTS),
    Call(IDENTIFIER),
    option!(Call(PARAMETERIZATION)),
    Call(CLASS_NAME),
    Call(ASSIGNMENT),
    Call(OBJECT_SET)
);
// 183 top_level_object_class_declaration = comments uppercase_identifier parameterization? assignment (type_identifier / information_object_class)
static RULE_183: Expression = seq!(
    Call(COMMENTS),
    Call(UPPERCASE_IDENTIFIER),
    option!(Call(PARAMETERIZATION)),
    Call(ASSIGNMENT),
    choice!(Call(TYPE_IDENTIFIER), Call(INFORMATION_OBJECT_CLASS))
);
// 184 top_level_information_declaration = top_level_information_object_declaration / top_level_object_set_declaration / top_level_object_class_declaration
static RULE_184: Expression = choice!(
    Call(TOP_LEVEL_INFORMATION_OBJECT_DECLARATION),
    Call(TOP_LEVEL_OBJECT_SET_DECLARATION),
    Call(TOP_LEVEL_OBJECT_CLASS_DECLARATION)
);
// 185 top_level_type_declaration = comments title_case_identifier parameterization? assignment asn_tag? asn1_type
static RULE_185: Expression = seq!(
    Call(COMMENTS),
    Call(TITLE_CASE_IDENTIFIER),
    option!(Call(PARAMETERIZATION)),
    Call(ASSIGNMENT),
    option!(Call(ASN_TAG)),
    Call(ASN1_TYPE)
);
// 186 enumerated_value = comments value_identifier parameterization? asn1_type assignment value_identifier
static RULE_186: Expression = seq!(
    Call(COMMENTS),
    Call(VALUE_IDENTIFIER),
    option!(Call(PARAMETERIZATION)),
    Call(ASN1_TYPE),
    Call(ASSIGNMENT),
    Call(VALUE_IDENTIFIER)
);
// 187 top_level_value_declaration = comments value_identifier parameterization? asn1_type assignment asn1_value / enumerated_value
static RULE_187: Expression = choice!(
    seq!(
        Call(COMMENTS),
        Call(VALUE_IDENTIFIER),
        option!(Call(PARAMETERIZATION)),
        Call(ASN1_TYPE),
        Call(ASSIGNMENT),
        Call(ASN1_VALUE)
    ),
    Call(ENUMERATED_VALUE)
);
// 188 definition = top_level_information_declaration / top_level_type_declaration / top_level_value_declaration
static RULE_188: Expression = choice!(
    Call(TOP_LEVEL_INFORMATION_DECLARATION),
    Call(TOP_LEVEL_TYPE_DECLARATION),
    Call(TOP_LEVEL_VALUE_DECLARATION)
);
// 189 asn_module = module_reference definition* end
static RULE_189: Expression = seq!(Call(MODULE_REFERENCE), Many(&Call(DEFINITION)), Call(END));
// 190 asn_spec = asn_module+ sp !any
static RULE_190: Expression = seq!(some!(Call(ASN_MODULE)), BLANKS, Not(&ANY));

// The row of one of these rules.
#[tactic(auto, unfolding(crate::specs::DefinitionRules::definition_rules_before))]
pub(crate) fn definition_row(rule: u8) -> &'static Expression
    requires first { 181 ≤ rule }
    requires last { rule ≤ 190 }
    ensures { (further : List Row) → expression result.now ≡ rule_of (definition_rules_before further) (rule - 181) }
{
    match rule {
        181 => &RULE_181,
        182 => &RULE_182,
        183 => &RULE_183,
        184 => &RULE_184,
        185 => &RULE_185,
        186 => &RULE_186,
        187 => &RULE_187,
        188 => &RULE_188,
        189 => &RULE_189,
        190 => &RULE_190,
        0..=180 | 191..=255 => unreachable!(),
    }
}
