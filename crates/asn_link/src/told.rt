//! What is told of names.

ghost use Rattle.asn_link.specs.Linked.{is_told};
ghost use Rattle.asn_names_graph.specs.Drawn.{Ascend};
ghost use Rattle.std.specs.Prelude.{◌≡◌, length, map};

use asn_memory::Text;
use asn_names_graph::place_of;

/// What is told of a name among names that ascend, by their places; of a name that is not among them no. It is looked for by halves.
#[tactic(auto, using(crate::proofs::ByName::told_nowhere))]
pub fn is_told(names: &[&Text], told: &[bool], name: &Text) -> bool
    requires ascend { Ascend (map (λ n. n.now) names.now) }
    requires long { length told.now ≡ length names.now }
    ensures { result ≡ is_told (map (λ n. n.now) names.now) told.now name.now }
{
    match place_of(names, name) {
        Some(place) => told[place],
        None => false,
    }
}
