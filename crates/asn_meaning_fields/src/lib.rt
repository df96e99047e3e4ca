//! A program that computes the list of all fields that an object gives, in order (X.681 11.4, 11.6).
//!
//! It stands on the trees and on asn_meaning_heads, which tells what an item of an object gives at the place of a token of its class's own
//! syntax, and whether a group of a syntax begins. It borrows the trees. A call fails for want of memory and for nothing else.
#![tactic(auto)]

mod built_in;
mod following;
mod giving;
mod walks;

pub use giving::given_fields;
