//! Each kind of constraint (X.680 clauses 49 to 51, X.682 clauses 8 to 11) that leads to others, over any of these, and the
//! constraints that hold no tree.

ghost use Rattle.std.specs.Prelude.{◌≡◌};

use crate::objects::ObjectSetOver;
use asn_memory::{List, Text};

/// What joins two sets of values (X.680 50.1).
#[derive(Clone, Copy, Debug, PartialEq, Eq)]
pub enum SetOperator {
    Intersection,
    Union,
    Except,
}

/// What is asked of a component's presence (X.680 51.8.9).
#[derive(Clone, Copy, Debug, PartialEq, Eq)]
pub enum ComponentPresence {
    /// It is absent.
    Absent,
    /// It is present.
    Present,
    /// The word OPTIONAL stands: either.
    Optional,
    /// No word stands.
    Unspecified,
}

/// The components of a `WITH COMPONENTS` (X.680 51.8.6).
pub struct InnerTypeConstraintOver<C> {
    /// Whether the list begins with `...`: components that are not listed are free.
    pub is_partial: bool,
    /// The listed components in order.
    pub constraints: List<ConstrainedComponentOver<C>>,
}

impl<C: Drop> Drop for InnerTypeConstraintOver<C> {
    fn drop(self) {
        let InnerTypeConstraintOver {
            is_partial: _,
            constraints: _,
        } = self;
    }
}

/// A listed component with what is asked of it (X.680 51.8.7).
pub struct ConstrainedComponentOver<C> {
    pub identifier: Text,
    pub constraints: List<C>,
    pub presence: ComponentPresence,
}

impl<C: Drop> Drop for ConstrainedComponentOver<C> {
    fn drop(self) {
        let ConstrainedComponentOver {
            identifier: _,
            constraints: _,
            presence: _,
        } = self;
    }
}

/// A table constraint, with the fields that choose a row (X.682 10.3, 10.7).
pub struct TableConstraintOver<F> {
    pub object_set: ObjectSetOver<F>,
    /// The names after `@`, in order.
    pub linked_fields: List<RelationalConstraint>,
}

impl<F: Drop> Drop for TableConstraintOver<F> {
    fn drop(self) {
        let TableConstraintOver {
            object_set: _,
            linked_fields: _,
        } = self;
    }
}

/// A name after `@` (X.682 10.7).
#[derive(Drop)]
pub struct RelationalConstraint {
    pub field_name: Text,
    /// 0 where the name starts at the outermost type; else how many types outwards from the innermost it starts.
    pub level: usize,
}

/// A pattern (X.680 51.9).
#[derive(Drop)]
pub struct PatternConstraint {
    /// The text between the quotes.
    pub pattern: Text,
}

/// A constraint that the notation does not tell (X.682 9.1).
#[derive(Drop)]
pub struct UserDefinedConstraint {
    /// The text between the braces.
    pub definition: Text,
}

/// An element set specification (X.680 50.1).
pub struct ElementSetOver<O> {
    /// The root of the set.
    pub set: O,
    /// Whether an extension marker follows the root.
    pub extensible: bool,
}

impl<O: Drop> Drop for ElementSetOver<O> {
    fn drop(self) {
        let ElementSetOver {
            set: _,
            extensible: _,
        } = self;
    }
}

impl<O> ElementSetOver<O> {
    /// Takes the set out, without the marker behind it.
    pub fn into_set(self) -> O
        ensures { result ≡ self.set }
    {
        let ElementSetOver { set, extensible: _ } = self;
        set
    }
}
