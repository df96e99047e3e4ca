//! The listing of a linked answer.

ghost use Rattle.asn_check.specs.Listing.{fault_text, grammar_text, kind_text, listing_of, name_text, warning_line, warning_lines};
ghost use Rattle.std.specs.Prelude.{◌≡◌, ◌++◌, IfOk, OnOk};

use crate::linked::Linked;
use asn_check_listing::write_definitions;
use asn_memory::{Mem, Text};
use asn_tree::{GrammarErrorType, LinkerError, LinkerErrorType};
use std::alloc::Global;

/// The word of a kind of warnings.
fn kind_word(kind: LinkerErrorType) -> &'static str
    ensures { result.now ≡ kind_text kind }
{
    match kind {
        LinkerErrorType::MissingDependency => "MissingDependency",
        LinkerErrorType::InvalidConstraintsError => "InvalidConstraintsError",
        LinkerErrorType::Unknown => "Unknown",
        LinkerErrorType::Cycle => "Cycle",
        LinkerErrorType::Argument => "Argument",
        LinkerErrorType::Duplicate => "Duplicate",
    }
}

/// The word of a kind of refusals.
fn grammar_word(kind: GrammarErrorType) -> &'static str
    ensures { result.now ≡ grammar_text kind }
{
    match kind {
        GrammarErrorType::UnpackingError => "UnpackingError",
        GrammarErrorType::LinkerError => "LinkerError",
        GrammarErrorType::PerVisibleConstraintError => "PerVisibleConstraintError",
        GrammarErrorType::NotYetInplemented => "NotYetInplemented",
        GrammarErrorType::SyntaxMismatch => "SyntaxMismatch",
    }
}

/// The word of the fault that a warning tells.
fn fault_word(kind: LinkerErrorType, refusal: Option<GrammarErrorType>) -> &'static str
    ensures { result.now ≡ fault_text kind refusal }
{
    match refusal {
        None => kind_word(kind),
        Some(refusal) => grammar_word(refusal),
    }
}

fn write_name(out: &mut Text, name: &Option<Text>) -> Mem<()>
    ensures { OnOk result (out.new ≡ out.old ++ name_text name.now) }
{
    match name {
        Some(name) => out.push_str(name.as_str()),
        None => Ok(()),
    }
}

fn write_warning(out: &mut Text, warning: &LinkerError) -> Mem<()>
    ensures { OnOk result (out.new ≡ out.old ++ warning_line warning.now) }
{
    out.push_str("warning ")?;
    out.push_str(fault_word(warning.kind, warning.grammar))?;
    out.push_str(" ")?;
    write_name(out, &warning.pdu)?;
    out.push_str("\n")
}

fn write_warnings(out: &mut Text, warnings: &[LinkerError]) -> Mem<()>
    ensures { OnOk result (out.new ≡ out.old ++ warning_lines warnings.now) }
{
    for warning in warnings {
        write_warning(out, warning)?;
    }
    Ok(())
}

/// The listing: a line for each definition, in byte order of names, then a line for each warning, each ended by a
/// line feed.
pub fn listing(alloc: Global, linked: &Linked) -> Mem<Text>
    ensures { IfOk result (λ text. text ≡ listing_of linked.now) }
{
    let mut out = Text::new(alloc, "")?;
    write_definitions(alloc, &mut out, linked.definitions.as_slice())?;
    write_warnings(&mut out, linked.warnings.as_slice())?;
    Ok(out)
}
