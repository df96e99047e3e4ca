//! Laws of the numbers of an enumeration, each the contract of a function without a body.

ghost use Rattle.asn_tree_numbers.specs.Laws.{NumbersAreDistinct, NumbersAreOne};

/// The numbers of an enumeration are determined: `enumerate` has one list to give, or none within `i128`.
pub fn numbers_are_one()
    ensures { NumbersAreOne }
{}

/// The numbers are distinct where the root's written ones are, and each written addition is no number of the root's
/// and above those of all earlier additions.
pub fn numbers_are_distinct()
    ensures { NumbersAreDistinct }
{}
