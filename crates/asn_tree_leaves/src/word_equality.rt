//! Equality of plain kinds and of real numbers, whose `==` is derived.

ghost use Rattle.asn_tree_equality.specs.Equality.{IsEquality};

use crate::plain::{CharacterStringType, IntegerType, RealValue};

/// The law of `==` of what words and kinds stand for, and of real numbers: each is true exactly where both are equal.
pub fn equal_words()
    ensures integer { IsEquality ⟦<IntegerType as PartialEq>⟧.eq }
    ensures string { IsEquality ⟦<CharacterStringType as PartialEq>⟧.eq }
    ensures real { IsEquality ⟦<RealValue as PartialEq>⟧.eq }
{}
