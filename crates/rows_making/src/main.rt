//! The program `rows_making`: it reads texts on standard input by the whole of ASN.1 and writes what is made of what was read.
//!
//! A line `==== QUESTION` stands before each text. Of `copies` it writes the lines of the copy of a text; of `making` what the constructors
//! make of the parts of each header and each definition. `by hand` has no text, and tells of trees that no text is read as; of `items` each
//! line is an item of an object that no text has. The library `rows` tells the rest.
#![tactic(auto)]

mod by_hand;
mod constraints;
mod copies;
mod definitions;
mod headers;
mod making;
mod objects;
mod types;

use crate::by_hand::{write_by_hand, write_items};
use crate::copies::Copies;
use crate::making::Making;
use asn_memory::{Mem, Text};
use asn_modules::asn_spec;
use rows::{Answers, answer_texts, question_of};
use rows_trees::tell_modules;
use std::alloc::Global;
use std::process::ExitCode;

/// The most calls of rules that may lie within each other.
const DEPTH: usize = 512;

/// The texts of which something is made.
#[derive(Clone, Copy)]
struct MakingTexts;

impl Answers for MakingTexts {
    fn write(&self, alloc: Global, out: &mut Text, asked: &str) -> Mem<()> {
        let (question, text) = question_of(asked);
        match question {
            "copies" => tell_modules(alloc, out, asn_spec(alloc, text, DEPTH), &Copies),
            "making" => tell_modules(alloc, out, asn_spec(alloc, text, DEPTH), &Making),
            "by hand" => write_by_hand(alloc, out),
            "items" => write_items(alloc, out, text),
            _ => out.push_str("no question\n"),
        }
    }
}

fn main(rt: HostRuntime) -> ExitCode {
    answer_texts(rt.alloc(), rt.stdin(), rt.stdout(), &MakingTexts)
}
