//! The words and symbols that a tree keeps: each leaves a leaf, told from the others by its number.
//!
//! Rows name them by the forms of `forms.rt`; `derive.rt` makes their leaves. A reader matches on the number of a leaf as
//! on that of a rule.

ghost use Rattle.std.specs.Prelude.{◌≡◌, ◌<◌};
ghost use Rattle.asn_rules.specs.Marks.{mark_number};

use crate::names;

/// A word or symbol that leaves a leaf.
#[derive(Clone, Copy)]
pub enum Mark {
    /// The value `TRUE`.
    True,
    /// The value `FALSE`.
    False,
    /// The class `PRIVATE` of a tag.
    Private,
    /// The class `APPLICATION` of a tag.
    Application,
    /// The class `UNIVERSAL` of a tag.
    Universal,
    /// The environment `EXPLICIT`.
    Explicit,
    /// The environment `IMPLICIT`.
    Implicit,
    /// The environment `AUTOMATIC`.
    Automatic,
    /// The type `IA5String`.
    Ia5String,
    /// The type `UTF8String`.
    Utf8String,
    /// The type `NumericString`.
    NumericString,
    /// The type `VisibleString`.
    VisibleString,
    /// The type `TeletexString`.
    TeletexString,
    /// The type `VideotexString`.
    VideotexString,
    /// The type `GraphicString`.
    GraphicString,
    /// The type `GeneralString`.
    GeneralString,
    /// The type `UniversalString`.
    UniversalString,
    /// The type `BMPString`.
    BmpString,
    /// The type `PrintableString`.
    PrintableString,
    /// `INTERSECTION` or `^` between two sets of values.
    Intersection,
    /// `UNION` or `|` between two sets of values.
    Union,
    /// `EXCEPT` between two sets of values.
    Except,
    /// The `...` before constraints on some of the members.
    Partial,
    /// The member is `PRESENT`.
    Present,
    /// The member is `ABSENT`.
    Absent,
    /// The member is `OPTIONAL`.
    Optional,
    /// The `<` or `>` behind the lower end of a range.
    LowOpen,
    /// The `<` before the upper end of a range.
    HighOpen,
    /// The field is `UNIQUE`.
    Unique,
    /// The `EXTENSIBILITY IMPLIED` of a module.
    Extensibility,
    /// `ALL` of the symbols are exported.
    All,
    /// `WITH SUCCESSORS` behind an import.
    Successors,
    /// `WITH DESCENDANTS` behind an import.
    Descendants,
    /// The `,` of a class's own syntax.
    Comma,
    /// The property `Basic` of times.
    Basic,
    /// The property `Date` of times.
    Date,
    /// The property `Year` of times.
    Year,
    /// The property `Time` of times.
    Time,
    /// The property `Local-or-UTC` of times.
    LocalOrUtc,
    /// The property `Interval-type` of times.
    IntervalType,
    /// The property `SE-point` of times.
    SePoint,
    /// The property `Recurrence` of times.
    Recurrence,
    /// The property `Midnight` of times.
    Midnight,
}

impl Mark {
    /// The number of its leaf, which is above those of the rules.
    pub fn number(self) -> u8
        ensures value { result ≡ mark_number self }
        ensures above { 190 < result }
    {
        match self {
            Mark::True => names::MARK_TRUE,
            Mark::False => names::MARK_FALSE,
            Mark::Private => names::MARK_PRIVATE,
            Mark::Application => names::MARK_APPLICATION,
            Mark::Universal => names::MARK_UNIVERSAL,
            Mark::Explicit => names::MARK_EXPLICIT,
            Mark::Implicit => names::MARK_IMPLICIT,
            Mark::Automatic => names::MARK_AUTOMATIC,
            Mark::Ia5String => names::MARK_IA5_STRING,
            Mark::Utf8String => names::MARK_UTF8_STRING,
            Mark::NumericString => names::MARK_NUMERIC_STRING,
            Mark::VisibleString => names::MARK_VISIBLE_STRING,
            Mark::TeletexString => names::MARK_TELETEX_STRING,
            Mark::VideotexString => names::MARK_VIDEOTEX_STRING,
            Mark::GraphicString => names::MARK_GRAPHIC_STRING,
            Mark::GeneralString => names::MARK_GENERAL_STRING,
            Mark::UniversalString => names::MARK_UNIVERSAL_STRING,
            Mark::BmpString => names::MARK_BMP_STRING,
            Mark::PrintableString => names::MARK_PRINTABLE_STRING,
            Mark::Intersection => names::MARK_INTERSECTION,
            Mark::Union => names::MARK_UNION,
            Mark::Except => names::MARK_EXCEPT,
            Mark::Partial => names::MARK_PARTIAL,
            Mark::Present => names::MARK_PRESENT,
            Mark::Absent => names::MARK_ABSENT,
            Mark::Optional => names::MARK_OPTIONAL,
            Mark::LowOpen => names::MARK_LOW_OPEN,
            Mark::HighOpen => names::MARK_HIGH_OPEN,
            Mark::Unique => names::MARK_UNIQUE,
            Mark::Extensibility => names::MARK_EXTENSIBILITY,
            Mark::All => names::MARK_ALL,
            Mark::Successors => names::MARK_SUCCESSORS,
            Mark::Descendants => names::MARK_DESCENDANTS,
            Mark::Comma => names::MARK_COMMA,
            Mark::Basic => names::MARK_BASIC,
            Mark::Date => names::MARK_DATE,
            Mark::Year => names::MARK_YEAR,
            Mark::Time => names::MARK_TIME,
            Mark::LocalOrUtc => names::MARK_LOCAL_OR_UTC,
            Mark::IntervalType => names::MARK_INTERVAL_TYPE,
            Mark::SePoint => names::MARK_SE_POINT,
            Mark::Recurrence => names::MARK_RECURRENCE,
            Mark::Midnight => names::MARK_MIDNIGHT,
        }
    }
}
