//! Texts, lists and boxes that contracts see as what they hold, and want of memory.
//!
//! The lowest room: it stands on the standard library alone, and knows nothing of ASN.1. Every tree of the crates
//! above is made of these, so that two trees are equal exactly where their contents are.
#![tactic(auto)]

mod boxed;
mod list;
mod memory;
mod text;

pub use boxed::Box;
pub use list::List;
pub use memory::{Mem, OutOfMemory};
pub use text::Text;
