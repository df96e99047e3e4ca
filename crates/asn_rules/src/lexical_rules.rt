//! Rules 1 to 22, which each grammar has: blanks, comments, names, numbers and marks (X.680 12).
//!
//! A name in a row is a call of that rule. `"x"` skips blanks and comments; then it stands as it is. `?`, `*` and `+` are
//! an option, any number of turns, at least one; `/` tries the second where the first fails; `!` looks ahead; what
//! stands in braces is a guard. The tables of `first.rt` and `whole.rt` begin with these rows.

ghost use Rattle.std.specs.Prelude.{◌≡◌, ◌≤◌, List};
ghost use Rattle.asn_rules.specs.Expression.{Expression as Row, expression, rule_of};
ghost use Rattle.asn_rules.specs.LexicalRules.{lexical_rules_before};

use crate::expression::Expression;
use crate::expression::Expression::{Call, Guarded, Many, Not};
use crate::forms::{
    ALNUM, ANY, BLANK, BLANKS, CAP, DIGIT, EMPTY, GAP, LETTER, LINE_FEED, LOWER, NONE, bytes,
    choice, option, seq, some, symbol,
};
use crate::names::{
    BLOCK_COMMENT, CAPS_TAIL, COMMENT, COMMENT_BODY, DIGITS, LINE_BODY, LINE_COMMENT, NAME_TAIL,
    UPPERCASE_IDENTIFIER,
};
use asn_rules_guards::{Guard, Sight};

// A number that is no rule's fails everywhere.
pub(crate) static NO_RULE: Expression = NONE;

// 1 sp = (blank / comment)*
static RULE_1: Expression = Many(&choice!(BLANK, Call(COMMENT)));
// 2 comment = block_comment / line_comment
static RULE_2: Expression = choice!(Call(BLOCK_COMMENT), Call(LINE_COMMENT));
// 3 block_comment = `/*` comment_body `*/`
static RULE_3: Expression = seq!(bytes!(b"/*"), Call(COMMENT_BODY), bytes!(b"*/"));
// 4 comment_body = (block_comment / !`/*` !`*/` any)*
static RULE_4: Expression = Many(&choice!(
    Call(BLOCK_COMMENT),
    seq!(Not(&bytes!(b"/*")), Not(&bytes!(b"*/")), ANY)
));
// 5 line_comment = `--` line_body `--`?
static RULE_5: Expression = seq!(bytes!(b"--"), Call(LINE_BODY), option!(bytes!(b"--")));
// 6 line_body = (!`--` !LF any)*
static RULE_6: Expression = Many(&seq!(Not(&bytes!(b"--")), Not(&LINE_FEED), ANY));
// 7 name_tail = (alnum / `-` alnum)*
static RULE_7: Expression = Many(&choice!(ALNUM, seq!(bytes!(b"-"), ALNUM)));
// 8 identifier = sp letter name_tail
static RULE_8: Expression = seq!(BLANKS, LETTER, Call(NAME_TAIL));
// 9 title_case_identifier = sp cap name_tail {no keyword}
static RULE_9: Expression = Guarded(&seq!(BLANKS, CAP, Call(NAME_TAIL)), Guard::NoKeyword);
// 10 value_identifier = sp lower name_tail
static RULE_10: Expression = seq!(BLANKS, LOWER, Call(NAME_TAIL));
// 11 caps_tail = (cap / `-` cap)*
static RULE_11: Expression = Many(&choice!(CAP, seq!(bytes!(b"-"), CAP)));
// 12 uppercase_identifier = sp cap caps_tail !(alnum / `-` alnum)
static RULE_12: Expression = seq!(
    BLANKS,
    CAP,
    Call(CAPS_TAIL),
    Not(&choice!(ALNUM, seq!(bytes!(b"-"), ALNUM)))
);
// 13 class_name = uppercase_identifier {no keyword, or TYPE-IDENTIFIER, or ABSTRACT-SYNTAX}
static RULE_13: Expression = Guarded(&Call(UPPERCASE_IDENTIFIER), Guard::NamesClass);
// 14 digits = digit+
static RULE_14: Expression = some!(DIGIT);
// 15 number_u64 = sp digits {fits u64}
static RULE_15: Expression = Guarded(&seq!(BLANKS, Call(DIGITS)), Guard::FitsU64);
// 16 number_u128 = sp digits {fits u128}
static RULE_16: Expression = Guarded(&seq!(BLANKS, Call(DIGITS)), Guard::FitsU128);
// 17 number_i128 = sp `-`? sp digits {fits i128}
static RULE_17: Expression = Guarded(
    &seq!(BLANKS, option!(bytes!(b"-")), BLANKS, Call(DIGITS)),
    Guard::FitsI128,
);
// 18 number_i32 = sp `-`? sp digits {fits i32}
static RULE_18: Expression = Guarded(
    &seq!(BLANKS, option!(bytes!(b"-")), BLANKS, Call(DIGITS)),
    Guard::FitsI32,
);
// 19 optional_comma = ","?
static RULE_19: Expression = option!(symbol!(b","));
// 20 range_seperator = ".."
static RULE_20: Expression = symbol!(b"..");
// 21 extension_marker = "..."
static RULE_21: Expression = symbol!(b"...");
// 22 assignment = "::="
static RULE_22: Expression = symbol!(b"::=");

// The row of one of these rules.
#[tactic(auto, unfolding(crate::specs::LexicalRules::lexical_rules_before))]
pub(crate) fn lexical_row(rule: u8) -> &'static Expression
    requires { rule ≤ 22 }
    ensures { (further : List Row) → expression result.now ≡ rule_of (lexical_rules_before further) rule }
{
    match rule {
        0 => &NO_RULE,
        1 => &RULE_1,
        2 => &RULE_2,
        3 => &RULE_3,
        4 => &RULE_4,
        5 => &RULE_5,
        6 => &RULE_6,
        7 => &RULE_7,
        8 => &RULE_8,
        9 => &RULE_9,
        10 => &RULE_10,
        11 => &RULE_11,
        12 => &RULE_12,
        13 => &RULE_13,
        14 => &RULE_14,
        15 => &RULE_15,
        16 => &RULE_16,
        17 => &RULE_17,
        18 => &RULE_18,
        19 => &RULE_19,
        20 => &RULE_20,
        21 => &RULE_21,
        22 => &RULE_22,
        23..=255 => unreachable!(),
    }
}
