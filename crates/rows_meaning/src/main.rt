//! The program `rows_meaning`: it reads texts on standard input by the whole of ASN.1 and writes what it is asked about what they mean.
//!
//! A line `==== QUESTION` stands before each text. All definitions of a text's modules, in order, are the definitions in sight. Of
//! `values` it tells which members the text's types have, what its values denote and which of its types accept that; of `instances` the
//! instance of each of its types, and which definitions are not closed; of `numbers` which whole numbers are left by its constraints. Where
//! nothing was read, one line tells that. The library `rows` tells the rest.
#![tactic(auto)]

mod instances;
mod numbers;
mod steps;
mod value_trees;
mod values;

use crate::instances::Instances;
use crate::numbers::NumbersLeft;
use crate::values::Values;
use asn_memory::{Mem, Text};
use asn_modules::asn_spec;
use rows::{Answers, answer_texts, question_of};
use rows_trees::tell_definitions;
use std::alloc::Global;
use std::process::ExitCode;

/// The most calls of rules that may lie within each other.
const DEPTH: usize = 512;

/// The texts whose meaning is told.
#[derive(Clone, Copy)]
struct MeaningTexts;

impl Answers for MeaningTexts {
    fn write(&self, alloc: Global, out: &mut Text, asked: &str) -> Mem<()> {
        let (question, text) = question_of(asked);
        match question {
            "values" => tell_definitions(alloc, out, asn_spec(alloc, text, DEPTH), &Values),
            "instances" => tell_definitions(alloc, out, asn_spec(alloc, text, DEPTH), &Instances),
            "numbers" => tell_definitions(alloc, out, asn_spec(alloc, text, DEPTH), &NumbersLeft),
            _ => out.push_str("no question\n"),
        }
    }
}

fn main(rt: HostRuntime) -> ExitCode {
    answer_texts(rt.alloc(), rt.stdin(), rt.stdout(), &MeaningTexts)
}
