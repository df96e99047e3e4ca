//! Equality of warnings and refusals, whose `==` is derived: the law that it is true exactly where both say the same.

ghost use Rattle.asn_tree_equality.specs.Equality.{IsEquality};
ghost use Rattle.asn_tree_leaves.specs.Errors.{SameFault, SameRefusal, SameWarning};
ghost use Rattle.std.specs.Prelude.{◌↔◌, IsTrue};

use crate::errors::{GrammarError, GrammarErrorType, LinkFault, LinkerError, LinkerErrorType};

/// The law of `==` of refusals: it is true exactly where words, kind and name are the same.
pub fn equal_refusals(left: &GrammarError, right: &GrammarError)
    ensures { IsTrue (⟦<GrammarError as PartialEq>⟧.eq left.now right.now) ↔ SameRefusal left.now right.now }
{}

/// The law of `==` of warnings: it is true exactly where name, words and both kinds are the same.
pub fn equal_warnings(left: &LinkerError, right: &LinkerError)
    ensures { IsTrue (⟦<LinkerError as PartialEq>⟧.eq left.now right.now) ↔ SameWarning left.now right.now }
{}

/// The law of `==` of faults: it is true exactly where both are the same refusal, or both want of memory.
pub fn equal_faults(left: &LinkFault, right: &LinkFault)
    ensures { IsTrue (⟦<LinkFault as PartialEq>⟧.eq left.now right.now) ↔ SameFault left.now right.now }
{}

/// The law of `==` of kinds, which is derived: each is true exactly where both are equal.
pub fn equal_fault_kinds()
    ensures refusal { IsEquality ⟦<GrammarErrorType as PartialEq>⟧.eq }
    ensures warning { IsEquality ⟦<LinkerErrorType as PartialEq>⟧.eq }
{}
