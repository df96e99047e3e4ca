//! The program `rows_calls`: it reads texts on standard input by the whole of ASN.1 and writes what the calls on trees answer about
//! each definition.
//!
//! A line `==== calls` stands before each text. Of each module it writes some lines for each definition as it is read, those of values
//! that stand beside each other, and then each definition once more as it is after the calls that change trees. Nothing here is made by
//! hand: the calls are made on what was read. The library `rows` tells the rest.
#![tactic(auto)]

mod changes;
mod classes;
mod constraints;
mod copies;
mod definitions;
mod enumerations;
mod objects;
mod types;
mod values;
mod words;

use crate::changes::write_changes;
use crate::definitions::write_module;
use asn_memory::{List, Mem, Text};
use asn_modules::asn_spec;
use asn_read_nodes::SpecError;
use asn_tree::{Reading, ToplevelDefinition};
use asn_tree_headers::ModuleReference;
use rows::{Answers, answer_texts, question_of};
use rows_trees::{TellsModules, tell_modules};
use std::alloc::Global;
use std::process::ExitCode;

/// The most calls of rules that may lie within each other.
const DEPTH: usize = 512;

/// Writes what is answered about modules as they are read.
fn write_modules(
    alloc: Global,
    out: &mut Text,
    modules: &[(ModuleReference, List<ToplevelDefinition>)],
) -> Mem<()> {
    for (header, definitions) in modules {
        write_module(alloc, out, header, definitions.as_slice())?;
    }
    Ok(())
}

/// Writes what is answered about modules while they are changed.
fn write_changed_modules(alloc: Global, out: &mut Text, modules: &mut Reading) -> Mem<()> {
    for place in 0..modules.len() {
        if let Some(module) = modules.get_mut(place) {
            let environment = module.0.tagging_environment;
            write_changes(alloc, out, place, environment, &mut module.1)?;
        }
    }
    Ok(())
}

/// What is told of the calls on trees.
#[derive(Clone, Copy)]
struct Calls;

impl TellsModules for Calls {
    fn tell(&self, alloc: Global, out: &mut Text, modules: &mut Reading) -> Mem<()> {
        write_modules(alloc, out, modules.as_slice())?;
        write_changed_modules(alloc, out, modules)
    }

    fn tell_error(&self, _alloc: Global, out: &mut Text, _error: &SpecError) -> Mem<()> {
        out.push_str("nothing is read\n")
    }
}

impl Answers for Calls {
    fn write(&self, alloc: Global, out: &mut Text, asked: &str) -> Mem<()> {
        let (question, text) = question_of(asked);
        match question {
            "calls" => tell_modules(alloc, out, asn_spec(alloc, text, DEPTH), self),
            _ => out.push_str("no question\n"),
        }
    }
}

fn main(rt: HostRuntime) -> ExitCode {
    answer_texts(rt.alloc(), rt.stdin(), rt.stdout(), &Calls)
}
