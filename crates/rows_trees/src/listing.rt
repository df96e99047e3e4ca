//! The lines of whole texts: one for each header and each definition, in the order of the text; or the line of why nothing was read, as
//! the program `link` tells it.

ghost use Rattle.rows_trees.specs.Lines.{error_line, header_line, matching_word, module_lines, place_line};
ghost use Rattle.std.specs.Fmt.{decimal};
ghost use Rattle.std.specs.Prelude.{◌≡◌, ◌++◌, OnOk};

use crate::headers::write_header;
use asn_check_listing::write_definitions;
use asn_memory::{List, Mem, OutOfMemory, Text};
use asn_read_nodes::SpecError;
use asn_text::{LexerError, LexerErrorType};
use asn_tree::{Reading, ToplevelDefinition};
use asn_tree_headers::ModuleReference;
use std::alloc::Global;
use std::string::ToString;

fn write_header_line(alloc: Global, out: &mut Text, header: &ModuleReference) -> Mem<()>
    ensures { OnOk result (out.new ≡ out.old ++ header_line header.now) }
{
    write_header(alloc, out, header)?;
    out.push_str("\n")
}

/// Writes the lines of modules, one behind the other.
fn write_listing(
    alloc: Global,
    out: &mut Text,
    modules: &[(ModuleReference, List<ToplevelDefinition>)],
) -> Mem<()>
    ensures { OnOk result (out.new ≡ out.old ++ module_lines modules.now) }
{
    for (header, definitions) in modules {
        write_header_line(alloc, out, header)?;
        write_definitions(alloc, out, definitions.as_slice())?;
    }
    Ok(())
}

/// Writes the lines of a reading that was made, and lets it go.
///
/// Err: want of memory.
pub fn write_reading(alloc: Global, out: &mut Text, made: Mem<Reading>) -> Mem<()> {
    match made {
        Ok(reading) => write_listing(alloc, out, reading.as_slice()),
        Err(_) => Err(OutOfMemory),
    }
}

fn write_number(alloc: Global, out: &mut Text, number: usize) -> Mem<()>
    ensures { OnOk result (out.new ≡ out.old ++ decimal number) }
{
    let digits = number.to_string(alloc)?;
    out.push_str(digits.as_str())
}

/// The words before a place.
#[tactic(auto, unfolding(crate::specs::Lines::matching_word))]
fn matching_word() -> &'static str
    ensures { result.now ≡ matching_word }
{
    "error matching line "
}

fn write_place(alloc: Global, out: &mut Text, told: &LexerError) -> Mem<()>
    ensures { OnOk result (out.new ≡ out.old ++ place_line told.now) }
{
    let LexerErrorType::MatchingError(report) = &told.kind;
    out.push_str(matching_word())?;
    write_number(alloc, out, report.line)?;
    out.push_str(" column ")?;
    write_number(alloc, out, report.column)?;
    out.push_str("\n")
}

/// Writes the line of why nothing was read.
///
/// Err: want of memory.
pub fn write_error(alloc: Global, out: &mut Text, error: &SpecError) -> Mem<()>
    ensures { OnOk result (out.new ≡ out.old ++ error_line error.now) }
{
    match error {
        SpecError::Lexer(told) => write_place(alloc, out, told),
        SpecError::TooDeep => out.push_str("error depth\n"),
        SpecError::OutOfMemory => out.push_str("error memory\n"),
    }
}
