//! The program: the words, and `run`, which takes a text from a source to a sink.
//!
//! The topmost room but for the program itself. `words` comes before a run, `lines` and `status` say what comes of it,
//! `judging` is what stands between, and `running` joins them to the loops of `asn_streams`.
#![tactic(auto)]

mod ended;
mod judging;
mod lines;
mod running;
mod status;
mod words;

pub use ended::Ended;
pub use judging::LONGEST;
pub use lines::{depth_line, matching_line};
pub use running::{end_without_words, run, run_to_status};
pub use status::{Status, error_line};
