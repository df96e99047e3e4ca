//! Equality of each kind of constraint, over any constraints within it.

ghost use Rattle.asn_tree_equality.specs.Equality.{same_by, same_by-laws};
ghost use Rattle.std.specs.Prelude.{◌≡◌, ◌↔◌, IsTrue};

use crate::constraints::{
    ConstrainedComponentOver, ElementSetOver, InnerTypeConstraintOver, PatternConstraint,
    RelationalConstraint, TableConstraintOver, UserDefinedConstraint,
};
use asn_tree_equality::{SameTree, same};

impl<C: SameTree> SameTree for InnerTypeConstraintOver<C> {
    fn is_same(&self, other: &Self) -> bool {
        self.is_partial == other.is_partial && self.constraints.is_same(&other.constraints)
    }
}

impl<C: SameTree> PartialEq for InnerTypeConstraintOver<C> {
    ghost use Rattle.asn_tree_kinds.specs.contracts.constraints.InnerTypeConstraintOver.{the_row};

    ghost eq = { same_by (the_row C.row).coded };

    ghost laws = { same_by-laws (the_row C.row).coded };

    fn eq(&self, other: &Self) -> bool
        ensures equal { IsTrue result ↔ (self.now ≡ other.now) }
        ensures gives { result ≡ same_by (the_row C.row).coded self.now other.now }
    {
        same(self, other)
    }
}

impl<C: SameTree> SameTree for ConstrainedComponentOver<C> {
    fn is_same(&self, other: &Self) -> bool {
        self.identifier.is_same(&other.identifier)
            && self.constraints.is_same(&other.constraints)
            && self.presence == other.presence
    }
}

impl<C: SameTree> PartialEq for ConstrainedComponentOver<C> {
    ghost use Rattle.asn_tree_kinds.specs.contracts.constraints.ConstrainedComponentOver.{the_row};

    ghost eq = { same_by (the_row C.row).coded };

    ghost laws = { same_by-laws (the_row C.row).coded };

    fn eq(&self, other: &Self) -> bool
        ensures equal { IsTrue result ↔ (self.now ≡ other.now) }
        ensures gives { result ≡ same_by (the_row C.row).coded self.now other.now }
    {
        same(self, other)
    }
}

impl<F: SameTree> SameTree for TableConstraintOver<F> {
    fn is_same(&self, other: &Self) -> bool {
        self.object_set.is_same(&other.object_set)
            && self.linked_fields.is_same(&other.linked_fields)
    }
}

impl<F: SameTree> PartialEq for TableConstraintOver<F> {
    ghost use Rattle.asn_tree_kinds.specs.contracts.constraints.TableConstraintOver.{the_row};

    ghost eq = { same_by (the_row F.row).coded };

    ghost laws = { same_by-laws (the_row F.row).coded };

    fn eq(&self, other: &Self) -> bool
        ensures equal { IsTrue result ↔ (self.now ≡ other.now) }
        ensures gives { result ≡ same_by (the_row F.row).coded self.now other.now }
    {
        same(self, other)
    }
}

impl SameTree for RelationalConstraint {
    fn is_same(&self, other: &Self) -> bool {
        self.field_name.is_same(&other.field_name) && self.level == other.level
    }
}

impl PartialEq for RelationalConstraint {
    ghost use Rattle.asn_tree_kinds.specs.contracts.constraints.RelationalConstraint.{the_row};

    ghost eq = { same_by the_row.coded };

    ghost laws = { same_by-laws the_row.coded };

    fn eq(&self, other: &Self) -> bool
        ensures equal { IsTrue result ↔ (self.now ≡ other.now) }
        ensures gives { result ≡ same_by the_row.coded self.now other.now }
    {
        same(self, other)
    }
}

impl SameTree for PatternConstraint {
    fn is_same(&self, other: &Self) -> bool {
        self.pattern.is_same(&other.pattern)
    }
}

impl PartialEq for PatternConstraint {
    ghost use Rattle.asn_tree_kinds.specs.contracts.constraints.PatternConstraint.{the_row};

    ghost eq = { same_by the_row.coded };

    ghost laws = { same_by-laws the_row.coded };

    fn eq(&self, other: &Self) -> bool
        ensures equal { IsTrue result ↔ (self.now ≡ other.now) }
        ensures gives { result ≡ same_by the_row.coded self.now other.now }
    {
        same(self, other)
    }
}

impl SameTree for UserDefinedConstraint {
    fn is_same(&self, other: &Self) -> bool {
        self.definition.is_same(&other.definition)
    }
}

impl PartialEq for UserDefinedConstraint {
    ghost use Rattle.asn_tree_kinds.specs.contracts.constraints.UserDefinedConstraint.{the_row};

    ghost eq = { same_by the_row.coded };

    ghost laws = { same_by-laws the_row.coded };

    fn eq(&self, other: &Self) -> bool
        ensures equal { IsTrue result ↔ (self.now ≡ other.now) }
        ensures gives { result ≡ same_by the_row.coded self.now other.now }
    {
        same(self, other)
    }
}

impl<O: SameTree> SameTree for ElementSetOver<O> {
    fn is_same(&self, other: &Self) -> bool {
        self.set.is_same(&other.set) && self.extensible == other.extensible
    }
}

impl<O: SameTree> PartialEq for ElementSetOver<O> {
    ghost use Rattle.asn_tree_kinds.specs.contracts.constraints.ElementSetOver.{the_row};

    ghost eq = { same_by (the_row O.row).coded };

    ghost laws = { same_by-laws (the_row O.row).coded };

    fn eq(&self, other: &Self) -> bool
        ensures equal { IsTrue result ↔ (self.now ≡ other.now) }
        ensures gives { result ≡ same_by (the_row O.row).coded self.now other.now }
    {
        same(self, other)
    }
}
