//! Settings of the properties of the time types (X.680 clauses 38 and 51.10).
//!
//! A setting is a property's name and the text of one of the property's settings. `texts` has the texts of each
//! property, which the nine types write and read.

ghost use Rattle.asn_tree_settings.specs.Settings.{pair_of, property_of};
ghost use Rattle.std.specs.Prelude.{◌≡◌, ℕ, List as Sequence, Option, Some, IfOk};
ghost use Rattle.std.specs.Result.{result_ok};

use asn_memory::{List, Mem, Text};
use std::alloc::Global;
use thiserror::Error;

pub mod texts;

/// A name that is no property's, or a text that is none of the property's settings.
#[derive(Clone, Copy, Debug, Error, PartialEq, Eq)]
#[error("no setting of the time types")]
pub struct SettingError;

/// A property of the time types, by its settings: each has one text.
pub trait PropertySetting: Copy {
    ghost setting_text: { Self → Sequence ℕ };

    ghost setting_of: { Sequence ℕ → Option Self };

    /// The property's name.
    const NAME: &'static str;

    /// The text of the setting, which `from_str` reads as this setting.
    ///
    /// Err: want of memory.
    fn setting_name(&self, alloc: Global) -> Mem<Text>
        ensures text { IfOk result (λ text. text ≡ setting_text self.now) }
        ensures reads_back { setting_of (setting_text self.now) ≡ Some self.now };

    /// The setting of this text. A number is decimal digits within `usize`, leading zeros and all.
    ///
    /// Err: the text is none of the property's.
    fn from_str(value: &str) -> Result<Self, SettingError>
        ensures { result_ok result ≡ setting_of value.now };
}

/// The settings that a constraint asks for (X.680 51.10).
#[derive(Drop)]
pub struct PropertySettings {
    /// The settings in order.
    pub property_settings_list: List<PropertyAndSettingsPair>,
}

/// A property with its setting (X.680 51.10).
#[derive(Clone, Copy, Debug, PartialEq, Eq)]
pub enum PropertyAndSettingsPair {
    Basic(BasicSettings),
    Date(DateSettings),
    Year(YearSettings),
    Time(TimeSettings),
    LocalOrUtc(LocalOrUtcSettings),
    IntervalType(IntervalTypeSettings),
    StartEndPoint(StartEndPointSettings),
    Recurrence(RecurrenceSettings),
    Midnight(MidnightSettings),
}

impl PropertyAndSettingsPair {
    /// The setting of the property that the first text names, which the second text tells.
    ///
    /// Err: the first text names no property, or the second is none of its settings.
    pub fn try_from(value: (&str, &str)) -> Result<PropertyAndSettingsPair, SettingError>
        ensures { result_ok result ≡ pair_of value.entry.0.now value.entry.1.now }
    {
        let (name, setting) = value;
        if name == BasicSettings::NAME {
            Ok(Self::Basic(BasicSettings::from_str(setting)?))
        } else if name == DateSettings::NAME {
            Ok(Self::Date(DateSettings::from_str(setting)?))
        } else if name == YearSettings::NAME {
            Ok(Self::Year(YearSettings::from_str(setting)?))
        } else if name == TimeSettings::NAME {
            Ok(Self::Time(TimeSettings::from_str(setting)?))
        } else if name == LocalOrUtcSettings::NAME {
            Ok(Self::LocalOrUtc(LocalOrUtcSettings::from_str(setting)?))
        } else if name == IntervalTypeSettings::NAME {
            Ok(Self::IntervalType(IntervalTypeSettings::from_str(setting)?))
        } else if name == StartEndPointSettings::NAME {
            Ok(Self::StartEndPoint(StartEndPointSettings::from_str(setting)?))
        } else if name == RecurrenceSettings::NAME {
            Ok(Self::Recurrence(RecurrenceSettings::from_str(setting)?))
        } else if name == MidnightSettings::NAME {
            Ok(Self::Midnight(MidnightSettings::from_str(setting)?))
        } else {
            Err(SettingError)
        }
    }

    /// The name of the property.
    pub fn property_name(&self) -> &'static str
        ensures { result.now ≡ property_of self.now }
    {
        match self {
            Self::Basic(_) => BasicSettings::NAME,
            Self::Date(_) => DateSettings::NAME,
            Self::Year(_) => YearSettings::NAME,
            Self::Time(_) => TimeSettings::NAME,
            Self::LocalOrUtc(_) => LocalOrUtcSettings::NAME,
            Self::IntervalType(_) => IntervalTypeSettings::NAME,
            Self::StartEndPoint(_) => StartEndPointSettings::NAME,
            Self::Recurrence(_) => RecurrenceSettings::NAME,
            Self::Midnight(_) => MidnightSettings::NAME,
        }
    }
}

/// What kind of moment or span the values are.
#[derive(Clone, Copy, Debug, PartialEq, Eq)]
pub enum BasicSettings {
    Date,
    Time,
    DateTime,
    Interval,
    RecInterval,
}

/// The parts that tell a date.
#[derive(Clone, Copy, Debug, PartialEq, Eq)]
pub enum DateSettings {
    Century,
    Year,
    YearMonth,
    YearMonthDay,
    YearDay,
    YearWeek,
    YearWeekDay,
}

/// Which years a date may have.
#[derive(Clone, Copy, Debug, PartialEq, Eq)]
pub enum YearSettings {
    Basic,
    Proleptic,
    Negative,
    /// Years of this many digits.
    Large(usize),
}

/// The parts that tell a time of day.
#[derive(Clone, Copy, Debug, PartialEq, Eq)]
pub enum TimeSettings {
    Hour,
    HourMinute,
    HourMinuteSecond,
    /// Hours with this many digits behind the decimal sign.
    HourDecimalFraction(usize),
    /// Minutes with this many digits behind the decimal sign.
    HourMinuteFraction(usize),
    /// Seconds with this many digits behind the decimal sign.
    HourMinuteSecondFraction(usize),
}

/// Which clock a time of day is of.
#[derive(Clone, Copy, Debug, PartialEq, Eq)]
pub enum LocalOrUtcSettings {
    Local,
    Utc,
    LocalAndDifference,
}

/// The parts that tell an interval.
#[derive(Clone, Copy, Debug, PartialEq, Eq)]
pub enum IntervalTypeSettings {
    StartAndEnd,
    Duration,
    StartAndDuration,
    DurationAndEnd,
}

/// What the ends of an interval are.
#[derive(Clone, Copy, Debug, PartialEq, Eq)]
pub enum StartEndPointSettings {
    Date,
    Time,
    DateTime,
}

/// How often an interval recurs.
#[derive(Clone, Copy, Debug, PartialEq, Eq)]
pub enum RecurrenceSettings {
    Unlimited,
    /// A limited number of times, with this number behind the `R`.
    Recurrences(usize),
}

/// Which end of a day midnight is.
#[derive(Clone, Copy, Debug, PartialEq, Eq)]
pub enum MidnightSettings {
    StartOfDay,
    EndOfDay,
}
