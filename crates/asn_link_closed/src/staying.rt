//! The law of the names that stay, the contract of a function without a body.

ghost use Rattle.asn_link_closed.specs.Staying.{NamesThatStay};

/// All names may stay in a type exactly if each of the names that stay in it may.
pub fn names_that_stay()
    ensures { NamesThatStay }
{}
