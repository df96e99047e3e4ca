//! What the rooms of trees share: equality part by part, and what constructors do with a part.
//!
//! It stands on asn_memory and knows no tree. A room of trees says of each of its types how two are compared, by
//! `SameTree`, and takes `==` from `same`.
#![tactic(auto)]

mod equality;
mod making;

pub use equality::{SameTree, same};
pub use making::{appended, beside, boxed_each, joined, listed, marked, optional_text, texts_of};
