//! Parts of a source text with their positions: where a reader of the text stands.
//!
//! It stands on the texts, lists and boxes of `asn_memory`, which it hands on, on the marks of `asn_tree_leaves`, and its
//! lexical readers on the rules of `asn_rules`. The readers and the errors of the crates above speak of places in a
//! text through it; it knows nothing of trees.
#![tactic(auto)]

mod at_least_one;
mod bits;
pub mod constants;
mod equality;
mod errors;
mod fault;
mod gap;
mod input;
mod marks;
mod numbers;
mod place;
mod readers;
mod report;
mod until;

pub use asn_memory::{Box, List, Mem, OutOfMemory, Text};
pub use asn_probe::{Probe, Steps};
pub use asn_rules::ASN1_KEYWORDS;
pub use asn_tree_leaves::{ExtensionMarker, OptionalMarker, RangeSeperator};
pub use bits::hex_to_bools;
pub use errors::{
    Context, ErrorBranches, ErrorKind, ErrorLeaf, ErrorLink, ErrorLinks, ErrorTree, MiscError,
    NomKind,
};
pub use fault::{ParseFault, ParserResult};
pub use gap::{skip_ws, skip_ws_and_comments, symbol, word};
pub use input::Input;
pub use marks::{extension_marker, optional_comma, range_seperator};
pub use numbers::{number_i32, number_i128, number_u64, number_u128};
pub use readers::{
    assignment, block_comment, comment, identifier, line_comment, title_case_identifier,
    uppercase_identifier, value_identifier,
};
pub use report::{LexerError, LexerErrorType, ReportData};
pub use until::{one_course, take_until_and_not, take_until_or, take_until_unbalanced};
