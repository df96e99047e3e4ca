//! The place of a name among names that ascend.

ghost use Rattle.asn_names_graph.specs.Drawn.{Ascend, StandsAt};
ghost use Rattle.std.specs.Prelude.{ℕ, IfNone, IfSome, map};

use asn_memory::Text;

/// The place of the name, which is looked for by halves; None where it does not stand among them.
pub fn place_of(names: &[&Text], name: &Text) -> Option<usize>
    requires { Ascend (map (λ n. n.now) names.now) }
    ensures found { IfSome result (λ place. StandsAt (map (λ n. n.now) names.now) name.now place) }
    ensures absent { IfNone result ((place : ℕ) → StandsAt (map (λ n. n.now) names.now) name.now place → ⊥) }
{
    match names.binary_search(&name) {
        Ok(place) => Some(place),
        Err(_) => None,
    }
}
