//! Laws of what the readers give, each the contract of a function without a body.

ghost use Rattle.asn_types.specs.Laws.{NumbersAreTheStandards};

/// The numbers of the items of an ENUMERATED are those that the standard gives, where none passes 128 bits (X.680 clause 20).
pub fn numbers_are_the_standards()
    ensures { NumbersAreTheStandards }
{}
