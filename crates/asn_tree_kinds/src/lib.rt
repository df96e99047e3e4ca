//! Kinds of types, constraints, objects and values that hold others: each over any others.
//!
//! A struct with one way back to the trees of types is generic in what it holds, so that what a check of those trees
//! costs does not grow with it. Enumerals, named numbers and the constraints that hold no tree stand here too. It stands
//! on asn_tree_equality and asn_tree_leaves.
#![tactic(auto)]

mod constraints;
mod equality;
mod making;
mod objects;
mod types;
mod values;

pub use constraints::{
    ComponentPresence, ConstrainedComponentOver, ElementSetOver, InnerTypeConstraintOver,
    PatternConstraint, RelationalConstraint, SetOperator, TableConstraintOver,
    UserDefinedConstraint,
};
pub use equality::equal_kinds;
pub use objects::{
    FixedValueFieldOver, InformationObjectFieldReferenceOver, ObjectSetFieldOver, ObjectSetOver,
    ObjectSetValueOver, TypeFieldOver,
};
pub use types::{
    BitStringOver, BooleanOver, CharacterStringOver, ChoiceSelectionType, DeclarationElsewhereOver,
    DistinguishedValue, Enumeral, EnumeratedOver, GeneralizedTimeOver, ObjectIdentifierOver,
    OctetStringOver, RealOver, TimeOver, UTCTimeOver,
};
pub use values::StructLikeFieldValueOver;
