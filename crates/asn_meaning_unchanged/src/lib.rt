//! What linking leaves as it is, told of a definition by its form alone, and the type references that occur in a definition; with the
//! law that neither looks at tags (`retagged`): both are the same of a definition and of the definition with its module's tagging
//! environment added to each tag.
//!
//! It stands on the trees and on what plain form is (asn_meaning). It borrows trees, and rewrites and looks up nothing. The layer
//! above asks it which definitions are linked by giving them as they are read, and which names these need.
#![tactic(auto)]

mod constraints;
mod definitions;
mod laws;
mod literals;
mod references;
mod retagged;
mod types;

pub use definitions::{is_unchanged, is_unchanged_type, type_references};
pub use laws::unchanged_is_plain;
pub use literals::Literal;
pub use retagged::{retagged_names_are_the_same, retagged_stay};
pub use types::Linking;
