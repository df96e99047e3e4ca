//! What a run hands out: the reading of its text and the linked answer, with the numbers that definitions have in each.

use crate::asked::Row;
use crate::out::{Told, say, write_number};
use crate::runs::at_least_one;
use asn_check::Linked;
use asn_check_listing::write_definition;
use asn_memory::{List, Text};
use asn_streams::{ListSink, ListSource};
use asn_tool::{Ended, run};
use asn_tree::{Reading, ToplevelDefinition};
use asn_tree_headers::{ModuleReference, TaggingEnvironment};
use std::alloc::Global;

/// Writes a definition on one line.
pub(crate) fn write_listed(
    alloc: Global,
    out: &mut Text,
    definition: &ToplevelDefinition,
) -> Told<()> {
    let mut line = Text::new(alloc, "")?;
    write_definition(alloc, &mut line, definition)?;
    say(
        out,
        line.as_str().strip_suffix("\n").unwrap_or(line.as_str()),
    )
}

/// Writes each definition with its number.
fn write_definitions(
    alloc: Global,
    out: &mut Text,
    definitions: &[ToplevelDefinition],
) -> Told<()> {
    for definition in definitions {
        match definition.get_index() {
            Some((home, place)) => {
                say(out, "  ")?;
                write_number(alloc, out, home)?;
                say(out, ".")?;
                write_number(alloc, out, place)?;
            }
            None => say(out, "  no number")?,
        }
        say(out, " ")?;
        write_listed(alloc, out, definition)?;
        say(out, "\n")?;
    }
    Ok(())
}

fn tagging_word(tagging: TaggingEnvironment) -> &'static str {
    match tagging {
        TaggingEnvironment::Automatic => ", automatic tags",
        TaggingEnvironment::Implicit => ", implicit tags",
        TaggingEnvironment::Explicit => ", explicit tags",
    }
}

fn write_header(alloc: Global, out: &mut Text, header: &ModuleReference) -> Told<()> {
    say(out, header.name.as_str())?;
    say(out, tagging_word(header.tagging_environment))?;
    say(out, ", imports ")?;
    write_number(alloc, out, header.imports.len())?;
    say(
        out,
        if header.exports.is_some() {
            ", exports\n"
        } else {
            "\n"
        },
    )
}

fn write_modules(
    alloc: Global,
    out: &mut Text,
    modules: &[(ModuleReference, List<ToplevelDefinition>)],
) -> Told<()> {
    for (header, definitions) in modules {
        say(out, "module ")?;
        write_header(alloc, out, header)?;
        write_definitions(alloc, out, definitions.as_slice())?;
    }
    Ok(())
}

fn write_reading(alloc: Global, out: &mut Text, reading: &Option<Reading>) -> Told<()> {
    match reading {
        Some(modules) => write_modules(alloc, out, modules.as_slice()),
        None => say(out, "no reading\n"),
    }
}

fn write_linked(alloc: Global, out: &mut Text, linked: &Option<Linked>) -> Told<()> {
    match linked {
        Some(linked) => {
            say(out, "linked, modules ")?;
            write_number(alloc, out, linked.modules.len())?;
            say(out, ", warnings ")?;
            write_number(alloc, out, linked.warnings.len())?;
            say(out, "\n")?;
            write_definitions(alloc, out, linked.definitions.as_slice())
        }
        None => say(out, "no linked answer\n"),
    }
}

fn write_ended(alloc: Global, out: &mut Text, ended: &Ended) -> Told<()> {
    write_reading(alloc, out, &ended.reading)?;
    write_linked(alloc, out, &ended.linked)
}

/// Writes what a run read and linked.
pub(crate) fn write_trees(alloc: Global, out: &mut Text, row: &Row, text: &[u8]) -> Told<()> {
    let mut source = ListSource::new(text, at_least_one(row.reads), row.failing_reads.as_slice());
    let failing = row.failing_writes.as_slice();
    let mut sink = ListSink::new(alloc, row.room, at_least_one(row.writes), failing)?;
    let ended = run(alloc, row.words.as_slice(), &mut source, &mut sink);
    write_ended(alloc, out, &ended)
}
