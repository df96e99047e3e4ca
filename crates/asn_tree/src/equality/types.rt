//! Equality of types and of their parts.

ghost use Rattle.asn_tree_equality.specs.Equality.{same_by, same_by-laws};
ghost use Rattle.std.specs.Prelude.{◌≡◌, ◌↔◌, IsTrue};

use crate::equality::constraints::same_constraints;
use crate::equality::values::same_optional_asn1_value;
use crate::types::{
    ASN1Type, Choice, ChoiceOption, IntegerOver, SequenceComponent, SequenceOrSet,
    SequenceOrSetMember, SequenceOrSetOf,
};
use asn_memory::List;
use asn_tree_equality::{SameTree, same};

impl<C: SameTree> SameTree for IntegerOver<C> {
    fn is_same(&self, other: &Self) -> bool {
        self.constraints.is_same(&other.constraints)
            && self
                .distinguished_values
                .is_same(&other.distinguished_values)
    }
}

impl<C: SameTree> PartialEq for IntegerOver<C> {
    ghost use Rattle.asn_tree.specs.contracts.types.IntegerOver.{the_row};

    ghost eq = { same_by (the_row C.row).coded };

    ghost laws = { same_by-laws (the_row C.row).coded };

    fn eq(&self, other: &Self) -> bool
        ensures equal { IsTrue result ↔ (self.now ≡ other.now) }
        ensures gives { result ≡ same_by (the_row C.row).coded self.now other.now }
    {
        same(self, other)
    }
}

impl SameTree for SequenceComponent {
    fn is_same(&self, other: &Self) -> bool {
        match (self, other) {
            (SequenceComponent::Member(left), SequenceComponent::Member(right)) => left.is_same(
                right,
            ),
            (SequenceComponent::ComponentsOf(left), SequenceComponent::ComponentsOf(right)) =>
                left.is_same(right),
            _ => false,
        }
    }
}

impl PartialEq for SequenceComponent {
    ghost use Rattle.asn_tree.specs.contracts.types.SequenceComponent.{the_row};

    ghost eq = { same_by the_row.coded };

    ghost laws = { same_by-laws the_row.coded };

    fn eq(&self, other: &Self) -> bool
        ensures equal { IsTrue result ↔ (self.now ≡ other.now) }
        ensures gives { result ≡ same_by the_row.coded self.now other.now }
    {
        same(self, other)
    }
}

#[cycle(comparing)]
pub(super) fn same_asn1_type(left: &ASN1Type, right: &ASN1Type) -> bool
    ensures { IsTrue result ↔ (left.now ≡ right.now) }
{
    match (left, right) {
        (ASN1Type::Null, ASN1Type::Null) => true,
        (ASN1Type::Boolean(x), ASN1Type::Boolean(y)) => same_constraints(
            &x.constraints,
            &y.constraints,
        ),
        (ASN1Type::Integer(x), ASN1Type::Integer(y)) => same_constraints(
            &x.constraints,
            &y.constraints,
        ) && x.distinguished_values.is_same(&y.distinguished_values),
        (ASN1Type::BitString(x), ASN1Type::BitString(y)) => same_constraints(
            &x.constraints,
            &y.constraints,
        ) && x.distinguished_values.is_same(&y.distinguished_values),
        (ASN1Type::Real(x), ASN1Type::Real(y)) => same_constraints(&x.constraints, &y.constraints),
        (ASN1Type::OctetString(x), ASN1Type::OctetString(y)) => same_constraints(
            &x.constraints,
            &y.constraints,
        ),
        (ASN1Type::Time(x), ASN1Type::Time(y)) => same_constraints(&x.constraints, &y.constraints),
        (ASN1Type::GeneralizedTime(x), ASN1Type::GeneralizedTime(y)) => same_constraints(
            &x.constraints,
            &y.constraints,
        ),
        (ASN1Type::UTCTime(x), ASN1Type::UTCTime(y)) => same_constraints(
            &x.constraints,
            &y.constraints,
        ),
        (ASN1Type::ObjectIdentifier(x), ASN1Type::ObjectIdentifier(y)) => same_constraints(
            &x.constraints,
            &y.constraints,
        ),
        (ASN1Type::CharacterString(x), ASN1Type::CharacterString(y)) => same_constraints(
            &x.constraints,
            &y.constraints,
        ) && x.ty == y.ty,
        (ASN1Type::Enumerated(x), ASN1Type::Enumerated(y)) => x.members.is_same(&y.members)
            && x.extensible == y.extensible
            && same_constraints(&x.constraints, &y.constraints),
        (ASN1Type::Choice(x), ASN1Type::Choice(y)) => same_choice(x, y),
        (ASN1Type::Sequence(x), ASN1Type::Sequence(y)) => same_sequence_or_set(x, y),
        (ASN1Type::SequenceOf(x), ASN1Type::SequenceOf(y)) => same_sequence_or_set_of(x, y),
        (ASN1Type::Set(x), ASN1Type::Set(y)) => same_sequence_or_set(x, y),
        (ASN1Type::SetOf(x), ASN1Type::SetOf(y)) => same_sequence_or_set_of(x, y),
        (ASN1Type::ElsewhereDeclaredType(x), ASN1Type::ElsewhereDeclaredType(y)) => x
            .parent
            .is_same(&y.parent)
            && x.identifier.is_same(&y.identifier)
            && same_constraints(&x.constraints, &y.constraints),
        (ASN1Type::ChoiceSelectionType(x), ASN1Type::ChoiceSelectionType(y)) => x.is_same(y),
        (
            ASN1Type::InformationObjectFieldReference(x),
            ASN1Type::InformationObjectFieldReference(y),
        ) => x.class.is_same(&y.class)
            && x.field_path.is_same(&y.field_path)
            && same_constraints(&x.constraints, &y.constraints),
        (ASN1Type::EmbeddedPdv, ASN1Type::EmbeddedPdv) => true,
        (ASN1Type::External, ASN1Type::External) => true,
        _ => false,
    }
}

#[cycle(comparing)]
fn same_sequence_or_set_of(left: &SequenceOrSetOf, right: &SequenceOrSetOf) -> bool
    ensures { IsTrue result ↔ (left.now ≡ right.now) }
{
    same_constraints(&left.constraints, &right.constraints)
        && same_asn1_type(left.element_type.get(), right.element_type.get())
        && left.is_recursive == right.is_recursive
}

#[cycle(comparing)]
fn same_sequence_or_set(left: &SequenceOrSet, right: &SequenceOrSet) -> bool
    ensures { IsTrue result ↔ (left.now ≡ right.now) }
{
    left.components_of.is_same(&right.components_of)
        && left.components_at.is_same(&right.components_at)
        && left.extensible == right.extensible
        && same_constraints(&left.constraints, &right.constraints)
        && same_members(&left.members, &right.members)
}

#[cycle(comparing)]
fn same_sequence_or_set_member(left: &SequenceOrSetMember, right: &SequenceOrSetMember) -> bool
    ensures { IsTrue result ↔ (left.now ≡ right.now) }
{
    left.name.is_same(&right.name)
        && left.tag == right.tag
        && same_asn1_type(&left.ty, &right.ty)
        && same_optional_asn1_value(&left.default_value, &right.default_value)
        && left.is_optional == right.is_optional
        && left.is_recursive == right.is_recursive
        && same_constraints(&left.constraints, &right.constraints)
}

#[cycle(comparing)]
fn same_choice(left: &Choice, right: &Choice) -> bool
    ensures { IsTrue result ↔ (left.now ≡ right.now) }
{
    left.extensible == right.extensible
        && same_options(&left.options, &right.options)
        && same_constraints(&left.constraints, &right.constraints)
}

#[cycle(comparing)]
fn same_choice_option(left: &ChoiceOption, right: &ChoiceOption) -> bool
    ensures { IsTrue result ↔ (left.now ≡ right.now) }
{
    left.name.is_same(&right.name)
        && left.tag == right.tag
        && same_asn1_type(&left.ty, &right.ty)
        && same_constraints(&left.constraints, &right.constraints)
        && left.is_recursive == right.is_recursive
}

#[cycle(comparing)]
fn same_members(left: &List<SequenceOrSetMember>, right: &List<SequenceOrSetMember>) -> bool
    ensures { IsTrue result ↔ (left.now ≡ right.now) }
{
    let (xs, ys) = (left.as_slice(), right.as_slice());
    if xs.len() != ys.len() {
        return false;
    }
    for i in 0..xs.len() {
        if !(same_sequence_or_set_member(&xs[i], &ys[i])) {
            return false;
        }
    }
    true
}

#[cycle(comparing)]
fn same_options(left: &List<ChoiceOption>, right: &List<ChoiceOption>) -> bool
    ensures { IsTrue result ↔ (left.now ≡ right.now) }
{
    let (xs, ys) = (left.as_slice(), right.as_slice());
    if xs.len() != ys.len() {
        return false;
    }
    for i in 0..xs.len() {
        if !(same_choice_option(&xs[i], &ys[i])) {
            return false;
        }
    }
    true
}

impl SameTree for ASN1Type {
    fn is_same(&self, other: &Self) -> bool {
        same_asn1_type(self, other)
    }
}

impl PartialEq for ASN1Type {
    ghost use Rattle.asn_tree.specs.contracts.types.ASN1Type.{the_row};

    ghost eq = { same_by the_row.coded };

    ghost laws = { same_by-laws the_row.coded };

    fn eq(&self, other: &Self) -> bool
        ensures equal { IsTrue result ↔ (self.now ≡ other.now) }
        ensures gives { result ≡ same_by the_row.coded self.now other.now }
    {
        same(self, other)
    }
}

impl SameTree for SequenceOrSetOf {
    fn is_same(&self, other: &Self) -> bool {
        same_sequence_or_set_of(self, other)
    }
}

impl PartialEq for SequenceOrSetOf {
    ghost use Rattle.asn_tree.specs.contracts.types.SequenceOrSetOf.{the_row};

    ghost eq = { same_by the_row.coded };

    ghost laws = { same_by-laws the_row.coded };

    fn eq(&self, other: &Self) -> bool
        ensures equal { IsTrue result ↔ (self.now ≡ other.now) }
        ensures gives { result ≡ same_by the_row.coded self.now other.now }
    {
        same(self, other)
    }
}

impl SameTree for SequenceOrSet {
    fn is_same(&self, other: &Self) -> bool {
        same_sequence_or_set(self, other)
    }
}

impl PartialEq for SequenceOrSet {
    ghost use Rattle.asn_tree.specs.contracts.types.SequenceOrSet.{the_row};

    ghost eq = { same_by the_row.coded };

    ghost laws = { same_by-laws the_row.coded };

    fn eq(&self, other: &Self) -> bool
        ensures equal { IsTrue result ↔ (self.now ≡ other.now) }
        ensures gives { result ≡ same_by the_row.coded self.now other.now }
    {
        same(self, other)
    }
}

impl SameTree for SequenceOrSetMember {
    fn is_same(&self, other: &Self) -> bool {
        same_sequence_or_set_member(self, other)
    }
}

impl PartialEq for SequenceOrSetMember {
    ghost use Rattle.asn_tree.specs.contracts.types.SequenceOrSetMember.{the_row};

    ghost eq = { same_by the_row.coded };

    ghost laws = { same_by-laws the_row.coded };

    fn eq(&self, other: &Self) -> bool
        ensures equal { IsTrue result ↔ (self.now ≡ other.now) }
        ensures gives { result ≡ same_by the_row.coded self.now other.now }
    {
        same(self, other)
    }
}

impl SameTree for Choice {
    fn is_same(&self, other: &Self) -> bool {
        same_choice(self, other)
    }
}

impl PartialEq for Choice {
    ghost use Rattle.asn_tree.specs.contracts.types.Choice.{the_row};

    ghost eq = { same_by the_row.coded };

    ghost laws = { same_by-laws the_row.coded };

    fn eq(&self, other: &Self) -> bool
        ensures equal { IsTrue result ↔ (self.now ≡ other.now) }
        ensures gives { result ≡ same_by the_row.coded self.now other.now }
    {
        same(self, other)
    }
}

impl SameTree for ChoiceOption {
    fn is_same(&self, other: &Self) -> bool {
        same_choice_option(self, other)
    }
}

impl PartialEq for ChoiceOption {
    ghost use Rattle.asn_tree.specs.contracts.types.ChoiceOption.{the_row};

    ghost eq = { same_by the_row.coded };

    ghost laws = { same_by-laws the_row.coded };

    fn eq(&self, other: &Self) -> bool
        ensures equal { IsTrue result ↔ (self.now ≡ other.now) }
        ensures gives { result ≡ same_by the_row.coded self.now other.now }
    {
        same(self, other)
    }
}
