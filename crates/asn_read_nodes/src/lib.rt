//! The nodes of a text: that of a whole text by a table, or why it has none; those where an input begins and at offsets of a table;
//! and what the smallest of them spell: names, numbers, truth values, bits, texts, reals and the arcs of object identifiers.
//!
//! It stands on the grammar, whose rules are those of the whole of ASN.1 here, and knows no tree of values or types. What two tables
//! need of whole texts stands here once, with the table as a parameter. The readers of values and types above begin with
//! [`read_node`] and ask for what a node spells by its rule.
#![tactic(auto)]

mod bare;
mod bits;
mod entry;
mod errors;
mod exact;
mod identifiers;
mod items;
mod names;
mod numbers;
mod paths;
mod reals;
mod strings;
mod texts;
mod truths;

pub use bits::{read_binary, read_hexadecimal, read_named_bits};
pub use entry::{node_at, read_node};
pub use errors::SpecError;
pub use exact::{blanks_are_those_of_bytes, names_are_exact, quoted_are_exact, times_are_exact};
pub use identifiers::read_object_identifier;
pub use items::{enumerated_numbers_fit, items_are_those_of_bytes};
pub use names::{children, read_name};
pub use numbers::{read_i32, read_i128, read_integer, read_u64, read_u128};
pub use paths::{join_steps, read_parent};
pub use reals::{read_decimal, read_real_parts};
pub use strings::{read_quadruple, read_quoted, read_time};
pub use texts::node_of;
pub use truths::read_truth;
