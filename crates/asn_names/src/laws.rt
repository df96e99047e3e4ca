//! Laws of names and of given definitions, each the contract of a function without a body of its own.
//!
//! They speak of the definitions in specs/ alone. The layers above stand on them: what they rewrite keeps its meaning.

ghost use Rattle.asn_names.specs.Laws.{EveryTreeDecided, FaultsStand, GivenDifferInTags, LastIsGiven, NamesOccur, StandingAreGiven};

use asn_meaning::{environments_change_tags, heads_stay};

/// Every tree is accepted or rejected by the type of a definition in which a type stands for each type reference, and for each that
/// it reaches, where all definitions have basic forms (BOOLEAN, INTEGER, SEQUENCE and plain names of types, with ranges of numbers):
/// within steps computed from the tree and the heights, in the order of needs, of the names that the definition reaches.
pub fn every_tree_decided()
    ensures { EveryTreeDecided }
{}

/// What occurs in a definition of basic form, by the relation over the whole notation, are the names in its type, each as a
/// type reference.
pub fn names_occur()
    ensures { NamesOccur }
{}

/// Where definitions have basic forms, the faults that stand, by the relation over the whole notation, are those that linking
/// finds: in a definition that linking leaves as it is, that does not need itself and has no reversed range.
pub fn faults_stand()
    ensures { FaultsStand }
{
    heads_stay();
}

/// The last definition of a name, once linking has given each its place, is the last of the name in the reading, as
/// linking gives it.
pub fn last_is_given()
    ensures { LastIsGiven }
{}

/// The given definitions of a reading that stand: one for each name, the last of that name, and no other list is.
pub fn standing_are_given()
    ensures { StandingAreGiven }
{}

/// A name sees among the given definitions what it sees in the reading, with other tags.
pub fn given_differ_in_tags()
    ensures { GivenDifferInTags }
{
    environments_change_tags();
}
