//! The public readers.
//!
//! Each reads the rule of its name where its input begins; blanks and comments may stand before it. Want of memory aside,
//! each answers `TooDeep` exactly where the height of its rule exceeds `depth`, and `Fail` exactly where it does not and
//! the rule fails: a leaf with the input unchanged and the reader's name.

pub(crate) mod constraints;
pub(crate) mod objects;
pub(crate) mod types;
