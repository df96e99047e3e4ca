//! A law of what linking makes, as the contract of a function without a body of its own.

ghost use Rattle.asn_link_all.specs.Laws.{MadeAreInstances};

use asn_link_closed::unchanged_are_own_instances;
use asn_link_instance::{literals_steady, more_levels};

/// The type that is made of a definition is its instance, from some number of levels on, as the law of closed definitions asks
/// (`asn_link_closed::closed_definitions_close`).
pub fn made_are_instances()
    ensures { MadeAreInstances }
{
    unchanged_are_own_instances();
    literals_steady();
    more_levels();
}
