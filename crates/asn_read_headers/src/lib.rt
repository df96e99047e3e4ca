//! The readers of headers: names and identifiers of modules, defaults, exports and imports; and the comments before
//! definitions.
//!
//! It stands on the nodes and what the smallest of them spell, and on the types of headers, which lead to no type of the
//! notation, so that it never owns one of those. The readers of modules above call [`read_header`] and [`read_comments`];
//! [`module_reference`] is called by name.
#![tactic(auto)]

mod comments;
mod defaults;
mod headers;
mod identifiers;
mod imports;
mod readers;
mod symbols;

pub use comments::read_comments;
pub use headers::read_header;
pub use readers::module_reference;
