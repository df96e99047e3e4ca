//! Settings of the properties of the time types.

ghost use Rattle.asn_rules_guards.specs.Guards.{bare, before, behind};
ghost use Rattle.asn_tree_settings.specs.Settings.{pair_of};
ghost use Rattle.asn_read_pieces.specs.Settings.{pair_by, setting_of, settings_in, settings_of};
ghost use Rattle.asn_rules.specs.Children.{Is, StandsBy};
ghost use Rattle.asn_rules.specs.Whole.{whole_rules};
ghost use Rattle.asn_rules.specs.declared.names.TheConstants.{PROPERTY_SETTINGS_CONSTRAINT, SETTING_PAIR};
ghost use Rattle.std.specs.Option.{is_some};
ghost use Rattle.std.specs.Prelude.{◌≡◌, All, IfOk, true, Some};

use crate::constraints::bytes_of;
use asn_memory::{List, Mem, Text};
use asn_read_nodes::children;
use asn_rules::{Node, names, next_bare};
use asn_tree_settings::{PropertyAndSettingsPair, PropertySettings};
use std::alloc::Global;

/// The bytes outside blanks and comments that stand before the first `=`.
fn name_bytes(alloc: Global, bytes: &[u8]) -> Mem<List<u8>>
    ensures { IfOk result (λ found. found ≡ before 61 (bare bytes.now)) }
{
    let mut found = List::new(alloc);
    let mut rest = bytes;
    while let Some((byte, behind)) = next_bare(rest) {
        if byte == b'=' {
            return Ok(found);
        }
        found.add(byte)?;
        rest = behind;
    }
    Ok(found)
}

/// The bytes outside blanks and comments that stand behind the first `=`.
fn setting_bytes(alloc: Global, bytes: &[u8]) -> Mem<List<u8>>
    ensures { IfOk result (λ found. found ≡ behind 61 (bare bytes.now)) }
{
    let mut found = List::new(alloc);
    let mut rest = bytes;
    let mut is_behind = false;
    while let Some((byte, behind)) = next_bare(rest) {
        if is_behind {
            found.add(byte)?;
        } else {
            is_behind = byte == b'=';
        }
        rest = behind;
    }
    Ok(found)
}

/// The setting that a name and a text tell.
fn pair(name: &str, setting: &str) -> PropertyAndSettingsPair
    requires { is_some (pair_of name.now setting.now) ≡ true }
    ensures { pair_of name.now setting.now ≡ Some result }
{
    match PropertyAndSettingsPair::try_from((name, setting)) {
        Ok(pair) => pair,
        Err(_) => unreachable!(),
    }
}

/// The name of the property that a setting is of.
#[tactic(auto, using(crate::proofs::Ascii::name_is_text))]
fn name_text(alloc: Global, bytes: &[u8]) -> Mem<Text>
    requires { is_some (pair_by (bare bytes.now)) ≡ true }
    ensures { IfOk result (λ name. name ≡ before 61 (bare bytes.now)) }
{
    let found = name_bytes(alloc, bytes)?;
    Text::from_bytes(alloc, found.as_slice())
}

/// The text of a setting.
#[tactic(auto, using(crate::proofs::Ascii::setting_is_text))]
fn setting_text(alloc: Global, bytes: &[u8]) -> Mem<Text>
    requires { is_some (pair_by (bare bytes.now)) ≡ true }
    ensures { IfOk result (λ setting. setting ≡ behind 61 (bare bytes.now)) }
{
    let found = setting_bytes(alloc, bytes)?;
    Text::from_bytes(alloc, found.as_slice())
}

/// The setting that bytes tell.
fn pair_in(alloc: Global, bytes: &[u8]) -> Mem<PropertyAndSettingsPair>
    requires { is_some (pair_by (bare bytes.now)) ≡ true }
    ensures { IfOk result (λ setting. pair_by (bare bytes.now) ≡ Some setting) }
{
    let name = name_text(alloc, bytes)?;
    let setting = setting_text(alloc, bytes)?;
    Ok(pair(name.as_str(), setting.as_str()))
}

/// A property with its setting (X.680 51.10).
#[tactic(auto, unfolding(crate::specs::Settings::setting_of), using(crate::proofs::Views::pair_is_setting))]
fn read_setting(alloc: Global, text: &[u8], node: &Node) -> Mem<PropertyAndSettingsPair>
    requires { Is whole_rules text.now SETTING_PAIR node.now }
    ensures { IfOk result (λ setting. setting_of text.now node.now ≡ Some setting) }
{
    pair_in(alloc, bytes_of(text, node))
}

/// The settings among the nodes.
#[tactic(auto, using(asn_read_nodes::proofs::Views::as_rule, asn_read_nodes::proofs::Equations::takes_next, asn_read_nodes::proofs::Equations::passes_next))]
fn read_each(alloc: Global, text: &[u8], nodes: &[Node]) -> Mem<List<PropertyAndSettingsPair>>
    requires { All (StandsBy whole_rules text.now) nodes.now }
    ensures { IfOk result (λ settings. settings_in text.now nodes.now ≡ Some settings) }
{
    let mut settings = List::new(alloc);
    for node in nodes {
        if node.rule == names::SETTING_PAIR {
            settings.add(read_setting(alloc, text, node)?)?;
        }
    }
    Ok(settings)
}

/// The settings in the quotes, in order (X.680 51.10).
pub fn read_settings(alloc: Global, text: &[u8], node: &Node) -> Mem<PropertySettings>
    requires { Is whole_rules text.now PROPERTY_SETTINGS_CONSTRAINT node.now }
    ensures { IfOk result (λ settings. settings_of text.now node.now ≡ Some settings) }
{
    let property_settings_list = read_each(alloc, text, children(text, node))?;
    Ok(PropertySettings {
        property_settings_list,
    })
}
