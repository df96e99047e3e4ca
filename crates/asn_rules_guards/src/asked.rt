//! What is asked of bytes: of which class one is, what stands in front, and what those that were taken are.

/// A class of bytes. Letters and digits are those of ASCII.
#[derive(Clone, Copy)]
pub enum ByteClass {
    /// Space, tab, line feed, carriage return, vertical tab, form feed.
    Blank,
    /// `0` to `9`.
    Digit,
    /// `a` to `z`, `A` to `Z`.
    Letter,
    /// `a` to `z`.
    Lower,
    /// `A` to `Z`.
    Upper,
    /// A letter or a digit.
    Alnum,
    /// An upper-case letter or a digit.
    Cap,
    /// `A` to `F`.
    HexLetter,
    /// A letter or a mark of a time: one of `+-:.,/CDHMRPSTWYZ`.
    TimeMark,
    /// A mark of a label: one of `-_~./`.
    LabelMark,
    /// The line feed.
    LineFeed,
    /// Each byte.
    Any,
}

/// A test of the bytes that an expression took. Blanks and comments among them count for nothing.
#[derive(Clone, Copy)]
pub enum Guard {
    /// They are none of the reserved words [`crate::ASN1_KEYWORDS`].
    NoKeyword,
    /// They are none of the reserved words, or `TYPE-IDENTIFIER` or `ABSTRACT-SYNTAX`.
    NamesClass,
    /// They are a whole number from 0 to 2^64 - 1.
    FitsU64,
    /// They are a whole number from 0 to 2^128 - 1.
    FitsU128,
    /// They are a whole number from -2^127 to 2^127 - 1.
    FitsI128,
    /// They are a whole number from -2^31 to 2^31 - 1.
    FitsI32,
    /// They are a whole number from 0 to 255.
    FitsU8,
    /// They are the number 2 or 10.
    IsBase,
    /// They are a number with a point: its digits without the point fit as [`Guard::FitsI128`] asks, and so do its
    /// exponent, and its exponent less the count of decimals as [`Guard::FitsI32`] asks.
    FitsReal,
    /// They are four numbers as [`Guard::FitsU8`] asks, in braces and parted by commas, that tell a character.
    IsCharacter,
    /// They are the name of a property, `=` and one of its settings.
    IsSetting,
    /// There are a digit and another byte among them, with those of blanks and comments counted.
    IsTime,
    /// There is no `//` among them, nor a `/` in front, with those of blanks and comments counted.
    HasLabels,
    /// They are an enumeration, and the numbers of all its items are of 128 bits (X.680 clause 20). Blanks and comments
    /// part its names.
    NumbersFit,
}

/// What can stand at an offset.
#[derive(Clone, Copy)]
pub enum Sight {
    /// These bytes.
    Bytes(&'static [u8]),
    /// These bytes, with no letter or digit behind them, nor a hyphen that is followed by one.
    Word(&'static [u8]),
    /// One byte of the class.
    OneOf(ByteClass),
}
