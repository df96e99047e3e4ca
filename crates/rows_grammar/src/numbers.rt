//! Numbers, keywords, settings and enumerations. `whole number`, `natural number`, `keyword` and `digit` have a text; `setting`
//! the name of a property and a text; `numbers` the items of an enumeration's root and those behind the marker, each its
//! number or a hyphen, with commas between them.

use asn_memory::{List, Mem, Text};
use asn_rules::{is_keyword, natural_number, whole_number};
use asn_text::hex_to_bools;
use asn_tree_numbers::enumerate;
use asn_tree_settings::{PropertyAndSettingsPair, PropertySetting};
use std::alloc::Global;
use std::string::ToString;

fn told_whole(alloc: Global, text: &str) -> Mem<Text> {
    match whole_number(text.as_bytes()) {
        Some(number) => {
            let digits = number.to_string(alloc)?;
            Text::new(alloc, digits.as_str())
        }
        None => Text::new(alloc, "none"),
    }
}

fn told_natural(alloc: Global, text: &str) -> Mem<Text> {
    match natural_number(text.as_bytes()) {
        Some(number) => {
            let digits = number.to_string(alloc)?;
            Text::new(alloc, digits.as_str())
        }
        None => Text::new(alloc, "none"),
    }
}

fn told_keyword(alloc: Global, text: &str) -> Mem<Text> {
    let word = if is_keyword(text.as_bytes()) {
        "keyword"
    } else {
        "no keyword"
    };
    Text::new(alloc, word)
}

fn push_bits(out: &mut Text, bits: &[bool]) -> Mem<()> {
    for bit in bits {
        let digit = if *bit { "1" } else { "0" };
        out.push_str(digit)?;
    }
    Ok(())
}

/// The four bits of a hexadecimal digit.
fn told_digit(alloc: Global, text: &str) -> Mem<Text> {
    let mut out = Text::new(alloc, "bits ")?;
    for digit in text.chars() {
        push_bits(&mut out, hex_to_bools(digit).as_slice())?;
    }
    Ok(out)
}

/// The text of a setting, by the call of its kind.
fn setting_of(alloc: Global, pair: &PropertyAndSettingsPair) -> Mem<Text> {
    match pair {
        PropertyAndSettingsPair::Basic(setting) => setting.setting_name(alloc),
        PropertyAndSettingsPair::Date(setting) => setting.setting_name(alloc),
        PropertyAndSettingsPair::Year(setting) => setting.setting_name(alloc),
        PropertyAndSettingsPair::Time(setting) => setting.setting_name(alloc),
        PropertyAndSettingsPair::LocalOrUtc(setting) => setting.setting_name(alloc),
        PropertyAndSettingsPair::IntervalType(setting) => setting.setting_name(alloc),
        PropertyAndSettingsPair::StartEndPoint(setting) => setting.setting_name(alloc),
        PropertyAndSettingsPair::Recurrence(setting) => setting.setting_name(alloc),
        PropertyAndSettingsPair::Midnight(setting) => setting.setting_name(alloc),
    }
}

/// `NAME=TEXT` of the setting that was read; `none` where there is no such setting.
fn told_setting(alloc: Global, name: &str, text: &str) -> Mem<Text> {
    match PropertyAndSettingsPair::try_from((name, text)) {
        Ok(pair) => {
            let mut out = Text::new(alloc, pair.property_name())?;
            out.push_str("=")?;
            let setting = setting_of(alloc, &pair)?;
            out.push_str(setting.as_str())?;
            Ok(out)
        }
        Err(_) => Text::new(alloc, "none"),
    }
}

/// The items that are written so.
fn items_of(alloc: Global, written: &str) -> Mem<List<Option<i128>>> {
    let mut items = List::new(alloc);
    if written.is_empty() {
        return Ok(items);
    }
    for item in written.split(',') {
        items.add(whole_number(item.as_bytes()))?;
    }
    Ok(items)
}

fn push_numbers(alloc: Global, out: &mut Text, numbers: &[i128]) -> Mem<()> {
    for number in numbers {
        let digits = number.to_string(alloc)?;
        out.push_str(" ")?;
        out.push_str(digits.as_str())?;
    }
    Ok(())
}

/// `numbers` and the numbers of all items; `none` where one would be too great.
fn told_numbers(alloc: Global, root: &str, additions: &str) -> Mem<Text> {
    let root = items_of(alloc, root)?;
    let additions = items_of(alloc, additions)?;
    match enumerate(alloc, root.as_slice(), additions.as_slice())? {
        Some(numbers) => {
            let mut out = Text::new(alloc, "numbers")?;
            push_numbers(alloc, &mut out, numbers.as_slice())?;
            Ok(out)
        }
        None => Text::new(alloc, "none"),
    }
}

fn line_of_one(alloc: Global, kind: &str, text: &str) -> Option<Mem<Text>> {
    match kind {
        "whole number" => Some(told_whole(alloc, text)),
        "natural number" => Some(told_natural(alloc, text)),
        "keyword" => Some(told_keyword(alloc, text)),
        "digit" => Some(told_digit(alloc, text)),
        _ => None,
    }
}

fn line_of_two(alloc: Global, kind: &str, first: &str, second: &str) -> Option<Mem<Text>> {
    match kind {
        "setting" => Some(told_setting(alloc, first, second)),
        "numbers" => Some(told_numbers(alloc, first, second)),
        _ => None,
    }
}

/// The line of a row of these fields; None where it is none of these.
pub(crate) fn line_of(alloc: Global, fields: &[Text]) -> Option<Mem<Text>> {
    match fields {
        [kind, text] => line_of_one(alloc, kind.as_str(), text.as_str()),
        [kind, first, second] => {
            line_of_two(alloc, kind.as_str(), first.as_str(), second.as_str())
        }
        _ => None,
    }
}
