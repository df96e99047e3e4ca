//! The error lines that have numbers in them.
//!
//! The lines without one stand in `status`.

ghost use Rattle.asn_tool.specs.Lines.{depth_line, matching_line};
ghost use Rattle.std.specs.Fmt.{decimal};
ghost use Rattle.std.specs.Prelude.{◌≡◌, ◌++◌, IfOk, OnOk};

use asn_memory::{Mem, Text};
use std::alloc::Global;
use std::string::ToString;

/// The line for a text that does not match, with the line and the column of the place, and a line feed.
///
/// Err: want of memory.
pub fn matching_line(alloc: Global, line: usize, column: usize) -> Mem<Text>
    ensures { IfOk result (λ t. t ≡ matching_line line column) }
{
    let mut text = Text::new(alloc, "error matching line ")?;
    write_number(alloc, &mut text, line)?;
    text.push_str(" column ")?;
    write_number(alloc, &mut text, column)?;
    text.push_str("\n")?;
    Ok(text)
}

/// The line for a text that is nested deeper than `depth`, with that number and a line feed.
///
/// Err: want of memory.
pub fn depth_line(alloc: Global, depth: usize) -> Mem<Text>
    ensures { IfOk result (λ t. t ≡ depth_line depth) }
{
    let mut text = Text::new(alloc, "error depth ")?;
    write_number(alloc, &mut text, depth)?;
    text.push_str("\n")?;
    Ok(text)
}

/// Writes the decimal digits of a number behind what `out` has.
fn write_number(alloc: Global, out: &mut Text, number: usize) -> Mem<()>
    ensures { OnOk result (out.new ≡ out.old ++ decimal number) }
{
    let digits = number.to_string(alloc)?;
    out.push_str(digits.as_str())
}
