//! The forms of a row: the macros and the small expressions of which the tables are made.
//!
//! The files of rows write with these.

use crate::expression::Expression;
use crate::names::SP;
use asn_rules_guards::{ByteClass, Sight};

macro_rules! seq {
    ($a:expr) => { $a };
    ($a:expr, $($rest:expr),+) => { Expression::Sequence(&$a, &seq!($($rest),+)) };
}

pub(crate) use seq;

macro_rules! choice {
    ($a:expr) => { $a };
    ($a:expr, $($rest:expr),+) => { Expression::Choice(&$a, &choice!($($rest),+)) };
}

pub(crate) use choice;

macro_rules! bytes {
    ($text:expr) => { Expression::See(Sight::Bytes($text)) };
}

pub(crate) use bytes;

macro_rules! word {
    ($text:expr) => { Expression::See(Sight::Word($text)) };
}

pub(crate) use word;

macro_rules! symbol {
    ($text:expr) => { Expression::Sequence(&GAP, &Expression::See(Sight::Bytes($text))) };
}

pub(crate) use symbol;

macro_rules! keyword {
    ($text:expr) => { Expression::Sequence(&GAP, &Expression::See(Sight::Word($text))) };
}

pub(crate) use keyword;

macro_rules! symbol_as {
    ($mark:ident, $text:expr) => {
        Expression::Sequence(&GAP, &Expression::Marked(Mark::$mark, Sight::Bytes($text)))
    };
}

pub(crate) use symbol_as;

macro_rules! keyword_as {
    ($mark:ident, $text:expr) => {
        Expression::Sequence(&GAP, &Expression::Marked(Mark::$mark, Sight::Word($text)))
    };
}

pub(crate) use keyword_as;

macro_rules! option {
    ($a:expr) => { Expression::Choice(&$a, &EMPTY) };
}

pub(crate) use option;

macro_rules! parens {
    ($a:expr) => { choice!(seq!(symbol!(b"("), $a, symbol!(b")")), $a) };
}

pub(crate) use parens;

macro_rules! words {
    ($(($mark:ident, $word:expr)),+) => {
        seq!(GAP, choice!($(Expression::Marked(Mark::$mark, Sight::Word($word))),+))
    };
}

pub(crate) use words;

macro_rules! ahead {
    ($a:expr) => { Expression::Not(&Expression::Not(&$a)) };
}

pub(crate) use ahead;

macro_rules! some {
    ($a:expr) => { Expression::Sequence(&$a, &Expression::Many(&$a)) };
}

pub(crate) use some;

pub(crate) const BLANKS: Expression = Expression::Call(SP);

// The blanks and comments before a literal: no reader needs them.
pub(crate) const GAP: Expression = Expression::Skip(SP);

pub(crate) const EMPTY: Expression = Expression::See(Sight::Bytes(b""));

pub(crate) const NONE: Expression = Expression::Not(&EMPTY);

pub(crate) const LETTER: Expression = Expression::See(Sight::OneOf(ByteClass::Letter));

pub(crate) const DIGIT: Expression = Expression::See(Sight::OneOf(ByteClass::Digit));

pub(crate) const ALNUM: Expression = Expression::See(Sight::OneOf(ByteClass::Alnum));

pub(crate) const CAP: Expression = Expression::See(Sight::OneOf(ByteClass::Cap));

pub(crate) const BLANK: Expression = Expression::See(Sight::OneOf(ByteClass::Blank));

pub(crate) const LOWER: Expression = Expression::See(Sight::OneOf(ByteClass::Lower));

pub(crate) const UPPER: Expression = Expression::See(Sight::OneOf(ByteClass::Upper));

pub(crate) const HEX_LETTER: Expression = Expression::See(Sight::OneOf(ByteClass::HexLetter));

pub(crate) const TIME_MARK: Expression = Expression::See(Sight::OneOf(ByteClass::TimeMark));

pub(crate) const LABEL_MARK: Expression = Expression::See(Sight::OneOf(ByteClass::LabelMark));

pub(crate) const LINE_FEED: Expression = Expression::See(Sight::OneOf(ByteClass::LineFeed));

pub(crate) const ANY: Expression = Expression::See(Sight::OneOf(ByteClass::Any));
