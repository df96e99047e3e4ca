//! The texts of the settings, property by property.

ghost use Rattle.asn_tree_settings.specs.Settings.{basic_text, basic_of, date_text, date_of, year_text, year_of, time_text, time_of, clock_text, clock_of, interval_text, interval_of, point_text, point_of, recurrence_text, recurrence_of, midnight_text, fraction_of, midnight_of, number_behind, number_of, starts_with_digit};
ghost use Rattle.std.specs.Fmt.{decimal};
ghost use Rattle.std.specs.Prelude.{◌≡◌, ◌++◌, IfOk};
ghost use Rattle.std.specs.Result.{result_ok};

use crate::settings::{
    BasicSettings, DateSettings, IntervalTypeSettings, LocalOrUtcSettings, MidnightSettings,
    PropertySetting, RecurrenceSettings, SettingError, StartEndPointSettings, TimeSettings,
    YearSettings,
};
use asn_memory::{Mem, Text};
use std::alloc::Global;

impl PropertySetting for BasicSettings {
    ghost setting_text = { basic_text };

    ghost setting_of = { basic_of };

    const NAME: &'static str = "Basic";

    #[tactic(auto, using(crate::proofs::TextsReadBack::basic_back))]
    fn setting_name(&self, alloc: Global) -> Mem<Text> {
        let text = match self {
            BasicSettings::Date => "Date",
            BasicSettings::Time => "Time",
            BasicSettings::DateTime => "Date-Time",
            BasicSettings::Interval => "Interval",
            BasicSettings::RecInterval => "Rec-Interval",
        };
        Text::new(alloc, text)
    }

    fn from_str(value: &str) -> Result<BasicSettings, SettingError> {
        match value {
            "Date" => Ok(BasicSettings::Date),
            "Time" => Ok(BasicSettings::Time),
            "Date-Time" => Ok(BasicSettings::DateTime),
            "Interval" => Ok(BasicSettings::Interval),
            "Rec-Interval" => Ok(BasicSettings::RecInterval),
            _ => Err(SettingError),
        }
    }
}

impl PropertySetting for DateSettings {
    ghost setting_text = { date_text };

    ghost setting_of = { date_of };

    const NAME: &'static str = "Date";

    #[tactic(auto, using(crate::proofs::TextsReadBack::date_back))]
    fn setting_name(&self, alloc: Global) -> Mem<Text> {
        let text = match self {
            DateSettings::Century => "C",
            DateSettings::Year => "Y",
            DateSettings::YearMonth => "YM",
            DateSettings::YearMonthDay => "YMD",
            DateSettings::YearDay => "YD",
            DateSettings::YearWeek => "YW",
            DateSettings::YearWeekDay => "YWD",
        };
        Text::new(alloc, text)
    }

    fn from_str(value: &str) -> Result<DateSettings, SettingError> {
        match value {
            "C" => Ok(DateSettings::Century),
            "Y" => Ok(DateSettings::Year),
            "YM" => Ok(DateSettings::YearMonth),
            "YMD" => Ok(DateSettings::YearMonthDay),
            "YD" => Ok(DateSettings::YearDay),
            "YW" => Ok(DateSettings::YearWeek),
            "YWD" => Ok(DateSettings::YearWeekDay),
            _ => Err(SettingError),
        }
    }
}

impl PropertySetting for YearSettings {
    ghost setting_text = { year_text };

    ghost setting_of = { year_of };

    const NAME: &'static str = "Year";

    #[tactic(auto, using(crate::proofs::TextsReadBack::year_back))]
    fn setting_name(&self, alloc: Global) -> Mem<Text> {
        match self {
            YearSettings::Basic => Text::new(alloc, "Basic"),
            YearSettings::Proleptic => Text::new(alloc, "Proleptic"),
            YearSettings::Negative => Text::new(alloc, "Negative"),
            YearSettings::Large(number) => with_number(alloc, "L", *number),
        }
    }

    fn from_str(value: &str) -> Result<YearSettings, SettingError> {
        match value {
            "Basic" => Ok(YearSettings::Basic),
            "Proleptic" => Ok(YearSettings::Proleptic),
            "Negative" => Ok(YearSettings::Negative),
            _ => match number_behind("L", value) {
                Some(number) => Ok(YearSettings::Large(number)),
                None => Err(SettingError),
            },
        }
    }
}

impl PropertySetting for TimeSettings {
    ghost setting_text = { time_text };

    ghost setting_of = { time_of };

    const NAME: &'static str = "Time";

    #[tactic(auto, using(crate::proofs::TextsReadBack::hour_back, crate::proofs::TextsReadBack::minute_back, crate::proofs::TextsReadBack::second_back))]
    fn setting_name(&self, alloc: Global) -> Mem<Text> {
        match self {
            TimeSettings::Hour => Text::new(alloc, "H"),
            TimeSettings::HourMinute => Text::new(alloc, "HM"),
            TimeSettings::HourMinuteSecond => Text::new(alloc, "HMS"),
            TimeSettings::HourDecimalFraction(number) => with_number(alloc, "HF", *number),
            TimeSettings::HourMinuteFraction(number) => with_number(alloc, "HMF", *number),
            TimeSettings::HourMinuteSecondFraction(number) => with_number(alloc, "HMSF", *number),
        }
    }

    fn from_str(value: &str) -> Result<TimeSettings, SettingError> {
        match value {
            "H" => Ok(TimeSettings::Hour),
            "HM" => Ok(TimeSettings::HourMinute),
            "HMS" => Ok(TimeSettings::HourMinuteSecond),
            _ => with_fraction(value),
        }
    }
}

impl PropertySetting for LocalOrUtcSettings {
    ghost setting_text = { clock_text };

    ghost setting_of = { clock_of };

    const NAME: &'static str = "Local-or-UTC";

    #[tactic(auto, using(crate::proofs::TextsReadBack::clock_back))]
    fn setting_name(&self, alloc: Global) -> Mem<Text> {
        let text = match self {
            LocalOrUtcSettings::Local => "L",
            LocalOrUtcSettings::Utc => "Z",
            LocalOrUtcSettings::LocalAndDifference => "LD",
        };
        Text::new(alloc, text)
    }

    fn from_str(value: &str) -> Result<LocalOrUtcSettings, SettingError> {
        match value {
            "L" => Ok(LocalOrUtcSettings::Local),
            "Z" => Ok(LocalOrUtcSettings::Utc),
            "LD" => Ok(LocalOrUtcSettings::LocalAndDifference),
            _ => Err(SettingError),
        }
    }
}

impl PropertySetting for IntervalTypeSettings {
    ghost setting_text = { interval_text };

    ghost setting_of = { interval_of };

    const NAME: &'static str = "Interval-type";

    #[tactic(auto, using(crate::proofs::TextsReadBack::interval_back))]
    fn setting_name(&self, alloc: Global) -> Mem<Text> {
        let text = match self {
            IntervalTypeSettings::StartAndEnd => "SE",
            IntervalTypeSettings::Duration => "D",
            IntervalTypeSettings::StartAndDuration => "SD",
            IntervalTypeSettings::DurationAndEnd => "DE",
        };
        Text::new(alloc, text)
    }

    fn from_str(value: &str) -> Result<IntervalTypeSettings, SettingError> {
        match value {
            "SE" => Ok(IntervalTypeSettings::StartAndEnd),
            "D" => Ok(IntervalTypeSettings::Duration),
            "SD" => Ok(IntervalTypeSettings::StartAndDuration),
            "DE" => Ok(IntervalTypeSettings::DurationAndEnd),
            _ => Err(SettingError),
        }
    }
}

impl PropertySetting for StartEndPointSettings {
    ghost setting_text = { point_text };

    ghost setting_of = { point_of };

    const NAME: &'static str = "SE-point";

    #[tactic(auto, using(crate::proofs::TextsReadBack::point_back))]
    fn setting_name(&self, alloc: Global) -> Mem<Text> {
        let text = match self {
            StartEndPointSettings::Date => "Date",
            StartEndPointSettings::Time => "Time",
            StartEndPointSettings::DateTime => "Date-Time",
        };
        Text::new(alloc, text)
    }

    fn from_str(value: &str) -> Result<StartEndPointSettings, SettingError> {
        match value {
            "Date" => Ok(StartEndPointSettings::Date),
            "Time" => Ok(StartEndPointSettings::Time),
            "Date-Time" => Ok(StartEndPointSettings::DateTime),
            _ => Err(SettingError),
        }
    }
}

impl PropertySetting for RecurrenceSettings {
    ghost setting_text = { recurrence_text };

    ghost setting_of = { recurrence_of };

    const NAME: &'static str = "Recurrence";

    #[tactic(auto, using(crate::proofs::TextsReadBack::recurrence_back))]
    fn setting_name(&self, alloc: Global) -> Mem<Text> {
        match self {
            RecurrenceSettings::Unlimited => Text::new(alloc, "Unlimited"),
            RecurrenceSettings::Recurrences(number) => with_number(alloc, "R", *number),
        }
    }

    fn from_str(value: &str) -> Result<RecurrenceSettings, SettingError> {
        match value {
            "Unlimited" => Ok(RecurrenceSettings::Unlimited),
            _ => match number_behind("R", value) {
                Some(number) => Ok(RecurrenceSettings::Recurrences(number)),
                None => Err(SettingError),
            },
        }
    }
}

impl PropertySetting for MidnightSettings {
    ghost setting_text = { midnight_text };

    ghost setting_of = { midnight_of };

    const NAME: &'static str = "Midnight";

    #[tactic(auto, using(crate::proofs::TextsReadBack::midnight_back))]
    fn setting_name(&self, alloc: Global) -> Mem<Text> {
        let text = match self {
            MidnightSettings::StartOfDay => "Start",
            MidnightSettings::EndOfDay => "End",
        };
        Text::new(alloc, text)
    }

    fn from_str(value: &str) -> Result<MidnightSettings, SettingError> {
        match value {
            "Start" => Ok(MidnightSettings::StartOfDay),
            "End" => Ok(MidnightSettings::EndOfDay),
            _ => Err(SettingError),
        }
    }
}

/// The setting of a time of day with a fraction.
///
/// Err: the text is of none.
fn with_fraction(value: &str) -> Result<TimeSettings, SettingError>
    ensures { result_ok result ≡ fraction_of value.now }
{
    if let Some(number) = number_behind("HF", value) {
        return Ok(TimeSettings::HourDecimalFraction(number));
    }
    if let Some(number) = number_behind("HMF", value) {
        return Ok(TimeSettings::HourMinuteFraction(number));
    }
    match number_behind("HMSF", value) {
        Some(number) => Ok(TimeSettings::HourMinuteSecondFraction(number)),
        None => Err(SettingError),
    }
}

/// The word and then the decimal digits of a number.
///
/// Err: want of memory.
fn with_number(alloc: Global, word: &str, number: usize) -> Mem<Text>
    ensures { IfOk result (λ text. text ≡ word.now ++ decimal number) }
{
    let mut text = Text::new(alloc, word)?;
    let digits = number.to_string(alloc)?;
    text.push_str(digits.as_str())?;
    Ok(text)
}

/// The number that stands behind the word, in decimal digits. None where the text is anything else.
fn number_behind(word: &str, text: &str) -> Option<usize>
    ensures { result ≡ number_behind word.now text.now }
{
    match text.strip_prefix(word) {
        Some(digits) => number_of(digits),
        None => None,
    }
}

/// The number that decimal digits write. None where there are none, other bytes, or a number past `usize`.
fn number_of(digits: &str) -> Option<usize>
    ensures { result ≡ number_of digits.now }
{
    if !starts_with_digit(digits.as_bytes()) {
        return None;
    }
    match digits.parse::<usize>() {
        Ok(number) => Some(number),
        Err(_) => None,
    }
}

/// Whether the first byte is a digit.
pub fn starts_with_digit(bytes: &[u8]) -> bool
    ensures { result ≡ starts_with_digit bytes.now }
{
    match bytes {
        [first, ..] => b'0' <= *first && *first <= b'9',
        [] => false,
    }
}
