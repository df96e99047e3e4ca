//! A law of closed definitions, as the contract of a function without a body of its own.

ghost use Rattle.asn_link_closed.specs.Laws.{ClosedDefinitionsClose};

use crate::staying::names_that_stay;

/// Where linking gives each closed definition the type that was made of it, names are closed that have no definition or a closed one. So
/// each of them stands for a type that accepts and rejects the same trees as it did (`asn_link_instance::closed_names_mean_the_same`).
pub fn closed_definitions_close()
    ensures { ClosedDefinitionsClose }
{
    names_that_stay();
}
