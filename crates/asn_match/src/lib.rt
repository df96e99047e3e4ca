//! The packrat table: what each rule that was tried comes to at each offset, found once and kept, and the looks at the text
//! that it takes, counted.
//!
//! It stands on the table of rules, and reads a text one byte at a look. Time and memory grow with the pairs of rule and
//! offset that are tried.
#![tactic(auto)]

mod chains;
mod come;
mod derive;
mod due;
mod grow;
mod run;
mod sights;
mod table;
mod tries;
mod whole;

pub use asn_probe::{Probe, Steps};
pub use chains::MatchTable;
pub use derive::{derive_rule, node_at};
pub use tries::{match_rule, match_table, tried};
pub use whole::{WholeText, whole_text};
