//! Entries that each lead to an earlier one.

ghost use Rattle.std.specs.Prelude.{length};
ghost use Rattle.asn_match.specs.Chain.{Falls, Starts};

use asn_rules::Outcome;

/// The entry of a pair. `next` is the place of the entry before it at the same offset.
#[derive(Clone, Copy)]
pub struct Entry {
    pub rule: u8,
    pub outcome: Outcome,
    pub next: usize,
}

/// For each pair of rule and offset that was tried, its outcome. A place is one more than the number of an entry, or 0.
#[derive(Drop)]
pub struct MatchTable {
    // the place of the newest entry at each offset
    pub newest: Vec<usize>,
    pub entries: Vec<Entry>,
    pub ghost falls: { Falls entries.items },
    pub ghost starts: { Starts (length entries.items) newest.items },
}
