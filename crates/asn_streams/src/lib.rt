//! Where bytes come from and where they go: sources, sinks, and the two loops over them.
//!
//! It stands on `asn_memory` and thiserror alone, and knows nothing of what the bytes say. `source` and `sink` are what a
//! caller is given, `sure`, `listed` and `standard` are such things, `taking` and `giving` are the loops, which the
//! program's run calls.
#![tactic(auto)]

mod giving;
mod listed;
mod sink;
mod source;
mod standard;
mod sure;
mod taking;

pub use giving::give_all;
pub use listed::{ListSink, ListSource};
pub use sink::{Sink, SinkFailed};
pub use source::{Source, SourceFailed};
pub use standard::{StdSink, StdSource};
pub use sure::{SureSink, SureSource};
pub use taking::{LIMIT, TakeFault, take_text};
