//! The program `figures_table`: it reads a text on standard input, makes its packrat table by the whole of ASN.1, and writes how
//! many bytes the text has and how many entries the table.
//!
//! `bench/tables.py` runs it on growing texts.
#![tactic(auto)]

ghost use Rattle.figures_table.specs.Figures.{figures_line};
ghost use Rattle.asn_match.specs.Table.{IsTableOf};
ghost use Rattle.asn_rules.specs.Expression.{rule as rule_call};
ghost use Rattle.asn_rules.specs.Runs.{Exceeds};
ghost use Rattle.asn_rules.specs.Whole.{whole_rules};
ghost use Rattle.asn_rules.specs.declared.run.MatchFault.TheVariants.{TooDeep};
ghost use Rattle.std.specs.Prelude.{◌≡◌, ◌<◌, IfOk, Err};

use asn_match::{MatchTable, match_table};
use asn_memory::{Mem, Text};
use asn_probe::{Probe, Steps};
use asn_rules::MatchFault;
use rows::{Answers, answer_text};
use std::alloc::Global;
use std::marker::Brand;
use std::process::ExitCode;
use std::sync::ledger::{Blank, Ledger};

/// The most calls of rules that may lie within each other.
const DEPTH: usize = 2000;

/// The table of a whole text, with a counter that is let go.
fn counted<L: Ledger>(alloc: Global, text: &Probe, blank: Blank) -> Result<MatchTable, MatchFault>
    requires name { blank.name ≡ L.name }
    requires parts { blank.parts ≡ L.parts }
    requires some { 0 < blank.parts }
    ensures table { IfOk result (IsTableOf whole_rules text.now 190) }
    ensures deep { result ≡ Err TooDeep → Exceeds whole_rules text.now (rule_call 190) 0 2000 }
{
    let mut steps = Steps::<L>::new(blank);
    match_table(alloc, text, DEPTH, &mut steps)
}

/// The table of a whole text.
fn table_of(alloc: Global, text: &Probe) -> Result<MatchTable, MatchFault>
    ensures table { IfOk result (IsTableOf whole_rules text.now 190) }
    ensures deep { result ≡ Err TooDeep → Exceeds whole_rules text.now (rule_call 190) 0 2000 }
{
    counted::<Brand>(alloc, text, Blank::new(1))
}

/// The line of a text of so many bytes and what its table came to.
///
/// Err: want of memory.
fn line_of(alloc: Global, bytes: usize, tried: &Result<MatchTable, MatchFault>) -> Mem<Text>
    ensures { IfOk result (λ l. l ≡ figures_line bytes tried.now) }
{
    match tried {
        Ok(table) => {
            let digits = bytes.to_string(alloc)?;
            let mut line = Text::new(alloc, digits.as_str())?;
            line.push_str(" bytes, ")?;
            let entries = table.entries().to_string(alloc)?;
            line.push_str(entries.as_str())?;
            line.push_str(" entries\n")?;
            Ok(line)
        }
        Err(MatchFault::TooDeep) => Text::new(alloc, "too deep\n"),
        Err(MatchFault::OutOfMemory) => Text::new(alloc, "out of memory\n"),
    }
}

/// The figures of a text.
#[derive(Clone, Copy)]
struct Figures;

impl Answers for Figures {
    fn write(&self, alloc: Global, out: &mut Text, asked: &str) -> Mem<()> {
        let probe = Probe::new(asked);
        let line = line_of(alloc, asked.len(), &table_of(alloc, &probe))?;
        out.push_str(line.as_str())
    }
}

fn main(rt: HostRuntime) -> ExitCode {
    answer_text(rt.alloc(), rt.stdin(), rt.stdout(), &Figures)
}
