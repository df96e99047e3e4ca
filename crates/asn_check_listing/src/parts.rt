//! What stands between texts.

ghost use Rattle.asn_check_listing.specs.Parts.{around, either, led, marker_at, nothing, when};
ghost use Rattle.std.specs.Option.{option_map};
ghost use Rattle.std.specs.Prelude.{◌≡◌, ◌++◌, IfOk, OnOk, [], codes};

use asn_memory::{Mem, Text};

/// The first text where the test holds, else the other.
pub(crate) fn either(test: bool, one: &'static str, other: &'static str) -> &'static str
    ensures { result.now ≡ either test one.now other.now }
{
    if test { one } else { other }
}

/// Writes the text, where the test holds.
pub(crate) fn write_when(out: &mut Text, test: bool, text: &str) -> Mem<()>
    ensures { OnOk result (out.new ≡ out.old ++ when test text.now) }
{
    if test { out.push_str(text) } else { Ok(()) }
}

/// Writes a name with what stands behind it, where there is one.
pub(crate) fn write_before(out: &mut Text, name: &Option<Text>, behind: &str) -> Mem<()>
    ensures { OnOk result (out.new ≡ out.old ++ around [] name.now behind.now) }
{
    match name {
        Some(name) => {
            out.push_str(name.as_str())?;
            out.push_str(behind)
        }
        None => Ok(()),
    }
}

/// Writes the extension marker among texts in braces, where it stands behind so many. Answers whether no text stands there yet.
pub(crate) fn write_marker(
    out: &mut Text,
    first: bool,
    marker: Option<usize>,
    number: usize,
) -> Mem<bool>
    ensures text { OnOk result (out.new ≡ out.old ++ led (codes " { ") (codes ", ") first (marker_at marker number)) }
    ensures none { IfOk result (λ none. none ≡ nothing first (marker_at marker number)) }
{
    match marker {
        Some(place) if place == number => {
            out.push_str(either(first, " { ", ", "))?;
            out.push_str("...")?;
            Ok(false)
        }
        _ => Ok(first),
    }
}
