//! What was tried, and what it came to.

ghost use Rattle.std.specs.Prelude.{◌≡◌, ◌<◌, ℕ, IfErr, None, OnOk, length};
ghost use Rattle.asn_match.specs.Table.{at, Sets};
ghost use Rattle.asn_rules.specs.declared.run.MatchFault.TheVariants.{OutOfMemory};

use crate::chains::{Entry, MatchTable};
use asn_rules::{MatchFault, Outcome, RuleId};
use std::alloc::Global;

impl MatchTable {
    // The table of no pair.
    pub(crate) fn new(alloc: Global) -> MatchTable
        ensures { (rule offset : ℕ) → at result rule offset ≡ None }
    {
        MatchTable {
            newest: Vec::new(alloc),
            entries: Vec::new(alloc),
        }
    }

    /// What the rule came to at the offset, in bytes from the start of the text; None exactly where the pair was not tried.
    pub fn outcome(&self, rule: RuleId, offset: usize) -> Option<Outcome>
        ensures { result ≡ at self.now rule.number offset }
    {
        self.find(rule.number, offset)
    }

    /// How many entries it has.
    pub fn entries(&self) -> usize
        ensures { result ≡ length self.now.entries.items }
    {
        self.entries.len()
    }

    // The outcome of the pair, if it was tried.
    pub(crate) fn find(&self, rule: u8, offset: usize) -> Option<Outcome>
        ensures { result ≡ at self.now rule offset }
    {
        if offset >= self.newest.len() {
            return None;
        }
        let mut place = self.newest[offset];
        while place > 0 {
            let entry = self.entries[place - 1];
            if entry.rule == rule {
                return Some(entry.outcome);
            }
            place = entry.next;
        }
        None
    }

    // A place for the offset.
    fn reach(&mut self, offset: usize) -> Result<(), MatchFault>
        ensures same { (s j : ℕ) → at self.new s j ≡ at self.old s j }
        ensures reached { OnOk result (offset < length self.new.newest.items) }
        ensures err { IfErr result (λ e. e ≡ OutOfMemory) }
    {
        while self.newest.len() <= offset {
            match self.newest.push(0) {
                Ok(()) => {}
                Err(_) => return Err(MatchFault::OutOfMemory),
            }
        }
        Ok(())
    }

    // Enters the outcome of the pair.
    pub(crate) fn put(
        &mut self,
        rule: u8,
        offset: usize,
        outcome: Outcome,
    ) -> Result<(), MatchFault>
        ensures sets { OnOk result (Sets self.old self.new rule offset outcome) }
        ensures err { IfErr result (λ e. e ≡ OutOfMemory) }
    {
        match self.reach(offset) {
            Ok(()) => {}
            Err(fault) => return Err(fault),
        }
        let next = self.newest[offset];
        match self.entries.push(Entry {
            rule,
            outcome,
            next,
        }) {
            Ok(()) => {
                self.newest[offset] = self.entries.len();
                Ok(())
            }
            Err(_) => Err(MatchFault::OutOfMemory),
        }
    }
}
