//! Laws of linked definitions, each the contract of a function without a body of its own.

ghost use Rattle.asn_link.specs.Laws.{CleanMeanTheSame, LeftAreClean};

use asn_link_all::made_are_instances;
use asn_link_closed::{closed_definitions_close, unchanged_names_are_references};
use asn_link_instance::closed_names_mean_the_same;
use asn_meaning_unchanged::{retagged_names_are_the_same, retagged_stay};

/// What a clean definition accepts and rejects among the linked definitions is what it accepted and rejected before, and its type is in
/// plain form there.
pub fn clean_mean_the_same()
    ensures { CleanMeanTheSame }
{
    made_are_instances();
    closed_definitions_close();
    closed_names_mean_the_same();
}

/// A type definition of a reading that linking leaves as it is, and with it each that it reaches, is clean.
pub fn left_are_clean()
    ensures { LeftAreClean }
{
    retagged_stay();
    retagged_names_are_the_same();
    unchanged_names_are_references();
}
