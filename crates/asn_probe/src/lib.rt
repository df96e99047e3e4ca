//! A text that is seen one byte at a time, and a counter of looks.
//!
//! It stands on the standard library alone. asn_text hands both on, and the packrat table reads its text by them, so that
//! what it looks at can be counted.
#![tactic(auto)]

mod probe;

pub use probe::{Probe, Steps};
