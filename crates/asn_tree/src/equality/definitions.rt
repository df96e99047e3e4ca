//! Equality of definitions and of their parameters.

ghost use Rattle.asn_tree_equality.specs.Equality.{same_by, same_by-laws};
ghost use Rattle.std.specs.Prelude.{◌≡◌, ◌↔◌, IsTrue};

use crate::definitions::{
    ParameterGovernor, Parameterization, ParameterizationArgument, ToplevelDefinition,
    ToplevelInformationDefinition, ToplevelTypeDefinition, ToplevelValueDefinition,
};
use asn_tree_equality::{SameTree, same};

impl SameTree for ToplevelDefinition {
    fn is_same(&self, other: &Self) -> bool {
        match (self, other) {
            (ToplevelDefinition::TypeDef(left), ToplevelDefinition::TypeDef(right)) => left.is_same(
                right,
            ),
            (ToplevelDefinition::Value(left), ToplevelDefinition::Value(right)) => left.is_same(
                right,
            ),
            (ToplevelDefinition::Information(left), ToplevelDefinition::Information(right)) =>
                left.is_same(right),
            _ => false,
        }
    }
}

impl PartialEq for ToplevelDefinition {
    ghost use Rattle.asn_tree.specs.contracts.definitions.ToplevelDefinition.{the_row};

    ghost eq = { same_by the_row.coded };

    ghost laws = { same_by-laws the_row.coded };

    fn eq(&self, other: &Self) -> bool
        ensures equal { IsTrue result ↔ (self.now ≡ other.now) }
        ensures gives { result ≡ same_by the_row.coded self.now other.now }
    {
        same(self, other)
    }
}

impl SameTree for ToplevelTypeDefinition {
    fn is_same(&self, other: &Self) -> bool {
        self.comments.is_same(&other.comments)
            && self.tag == other.tag
            && self.name.is_same(&other.name)
            && self.ty.is_same(&other.ty)
            && self.parameterization.is_same(&other.parameterization)
            && self.index == other.index
    }
}

impl PartialEq for ToplevelTypeDefinition {
    ghost use Rattle.asn_tree.specs.contracts.definitions.ToplevelTypeDefinition.{the_row};

    ghost eq = { same_by the_row.coded };

    ghost laws = { same_by-laws the_row.coded };

    fn eq(&self, other: &Self) -> bool
        ensures equal { IsTrue result ↔ (self.now ≡ other.now) }
        ensures gives { result ≡ same_by the_row.coded self.now other.now }
    {
        same(self, other)
    }
}

impl SameTree for ToplevelValueDefinition {
    fn is_same(&self, other: &Self) -> bool {
        self.comments.is_same(&other.comments)
            && self.name.is_same(&other.name)
            && self.associated_type.is_same(&other.associated_type)
            && self.parameterization.is_same(&other.parameterization)
            && self.value.is_same(&other.value)
            && self.index == other.index
    }
}

impl PartialEq for ToplevelValueDefinition {
    ghost use Rattle.asn_tree.specs.contracts.definitions.ToplevelValueDefinition.{the_row};

    ghost eq = { same_by the_row.coded };

    ghost laws = { same_by-laws the_row.coded };

    fn eq(&self, other: &Self) -> bool
        ensures equal { IsTrue result ↔ (self.now ≡ other.now) }
        ensures gives { result ≡ same_by the_row.coded self.now other.now }
    {
        same(self, other)
    }
}

impl SameTree for ToplevelInformationDefinition {
    fn is_same(&self, other: &Self) -> bool {
        self.comments.is_same(&other.comments)
            && self.name.is_same(&other.name)
            && self.parameterization.is_same(&other.parameterization)
            && self.class.is_same(&other.class)
            && self.value.is_same(&other.value)
            && self.index == other.index
    }
}

impl PartialEq for ToplevelInformationDefinition {
    ghost use Rattle.asn_tree.specs.contracts.definitions.ToplevelInformationDefinition.{the_row};

    ghost eq = { same_by the_row.coded };

    ghost laws = { same_by-laws the_row.coded };

    fn eq(&self, other: &Self) -> bool
        ensures equal { IsTrue result ↔ (self.now ≡ other.now) }
        ensures gives { result ≡ same_by the_row.coded self.now other.now }
    {
        same(self, other)
    }
}

impl SameTree for Parameterization {
    fn is_same(&self, other: &Self) -> bool {
        self.parameters.is_same(&other.parameters)
    }
}

impl PartialEq for Parameterization {
    ghost use Rattle.asn_tree.specs.contracts.definitions.Parameterization.{the_row};

    ghost eq = { same_by the_row.coded };

    ghost laws = { same_by-laws the_row.coded };

    fn eq(&self, other: &Self) -> bool
        ensures equal { IsTrue result ↔ (self.now ≡ other.now) }
        ensures gives { result ≡ same_by the_row.coded self.now other.now }
    {
        same(self, other)
    }
}

impl SameTree for ParameterizationArgument {
    fn is_same(&self, other: &Self) -> bool {
        self.dummy_reference.is_same(&other.dummy_reference)
            && self.param_governor.is_same(&other.param_governor)
    }
}

impl PartialEq for ParameterizationArgument {
    ghost use Rattle.asn_tree.specs.contracts.definitions.ParameterizationArgument.{the_row};

    ghost eq = { same_by the_row.coded };

    ghost laws = { same_by-laws the_row.coded };

    fn eq(&self, other: &Self) -> bool
        ensures equal { IsTrue result ↔ (self.now ≡ other.now) }
        ensures gives { result ≡ same_by the_row.coded self.now other.now }
    {
        same(self, other)
    }
}

impl SameTree for ParameterGovernor {
    fn is_same(&self, other: &Self) -> bool {
        match (self, other) {
            (ParameterGovernor::None, ParameterGovernor::None) => true,
            (ParameterGovernor::TypeOrClass(left), ParameterGovernor::TypeOrClass(right)) =>
                left.is_same(right),
            (ParameterGovernor::Class(left), ParameterGovernor::Class(right)) => left.is_same(
                right,
            ),
            _ => false,
        }
    }
}

impl PartialEq for ParameterGovernor {
    ghost use Rattle.asn_tree.specs.contracts.definitions.ParameterGovernor.{the_row};

    ghost eq = { same_by the_row.coded };

    ghost laws = { same_by-laws the_row.coded };

    fn eq(&self, other: &Self) -> bool
        ensures equal { IsTrue result ↔ (self.now ≡ other.now) }
        ensures gives { result ≡ same_by the_row.coded self.now other.now }
    {
        same(self, other)
    }
}
