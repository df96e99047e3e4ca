//! Which forms that linking replaces stand in a type, told by its form alone: selections, COMPONENTS OF, class fields of fixed type,
//! and references in constraints and defaults.
//!
//! It stands on the trees, borrows them, and looks no name up; one law speaks of plain form (asn_meaning). The layer above asks it
//! whether a type needs a pass.
#![tactic(auto)]

mod constraints;
mod fields;
mod forms;
mod laws;
mod objects;
mod types;
mod values;

pub use forms::{
    Form, contains_components_of_notation, contains_constraint_reference,
    has_choice_selection_type, references_class_by_name, stands_in,
};
pub use laws::plain_is_free;
