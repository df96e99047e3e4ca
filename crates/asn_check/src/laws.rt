//! What linking keeps, as laws: each is the contract of a function that does nothing but name the laws below it.

ghost use Rattle.asn_check.specs.KeptMeaning.{LinkingKeepsMeaning, OneListOfWarnings, WarningsAreDue};
ghost use Rattle.asn_check.specs.Needed.{DueAreWarned};

use asn_link::clean_mean_the_same;
use asn_meaning::retagged_types_mean_the_same;
use asn_names::{faults_stand, given_differ_in_tags};

/// Linking keeps the meaning of a reading: each clean definition of a type is in plain form among the linked definitions, and accepts
/// there what it accepts in the reading.
pub fn linking_keeps_meaning()
    ensures { LinkingKeepsMeaning }
{
    given_differ_in_tags();
    retagged_types_mean_the_same();
    clean_mean_the_same();
}

/// The warnings name by name, over the definitions that stand, are exactly those that are due, in order.
pub fn warnings_are_due()
    ensures { WarningsAreDue }
{}

/// No two lists are the warnings over the same definitions.
pub fn one_list_of_warnings()
    ensures { OneListOfWarnings }
{}

/// Where linking judges all definitions whole, a warning is due exactly where it stands in the relation of needs and faults
/// over the whole notation: of the fault of the definition that stands for its name, or of Duplicate.
pub fn due_are_warned()
    ensures { DueAreWarned }
{
    faults_stand();
}
