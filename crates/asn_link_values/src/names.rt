//! Which names stay.

ghost use Rattle.asn_meaning_heads.specs.Kinds.{shown_reference};
ghost use Rattle.asn_meaning_heads.specs.Scopes.{shown};
ghost use Rattle.asn_link_instance.specs.Instance.{is_empty, stays};
ghost use Rattle.asn_meaning.specs.Names.{lists_in};
ghost use Rattle.asn_meaning.specs.Scopes.{bound_to};
ghost use Rattle.asn_link_values.specs.Choosing.{chosen};
ghost use Rattle.std.specs.List.{list_all};
ghost use Rattle.std.specs.Prelude.{◌≡◌, ◌&&◌, is_none, map, not};

use asn_meaning_heads::{ArgumentLists, Reference, Scope, argument_lists};
use asn_memory::Text;
use asn_tree::Constraint;

/// Whether the name is none of the scope's dummies (X.683 8.4).
pub fn is_free(scope: &Scope<'_>, name: &str) -> bool
    ensures { result ≡ is_none (bound_to (shown scope.now) name.now) }
{
    scope.bound_to(name).is_none()
}

/// Whether each of the names is none of the scope's dummies.
pub fn are_free(scope: &Scope<'_>, names: &[&Text]) -> bool
    ensures { result ≡ list_all (λ name. is_none (bound_to (shown scope.now) name)) (map (λ n. n.now) names.now) }
{
    for name in names {
        if !is_free(scope, name.as_str()) {
            return false;
        }
    }
    true
}

/// Whether no argument list stands among the constraints behind a name (X.683 9.1).
#[tactic(auto, using(crate::proofs::Staying::no_list, crate::proofs::Staying::one_list, crate::proofs::Staying::several_lists))]
fn is_without_list(constraints: &[Constraint]) -> bool
    ensures { result ≡ is_empty (lists_in constraints.now) }
{
    match argument_lists(constraints) {
        ArgumentLists::Nothing => true,
        ArgumentLists::One(_) => false,
        ArgumentLists::Several => false,
    }
}

/// Whether a plain name stays that has these constraints behind it.
fn plain_stays(down: bool, scope: &Scope<'_>, name: &str, constraints: &[Constraint]) -> bool
    ensures { result ≡ (not down && (is_none (bound_to (shown scope.now) name.now) && is_empty (lists_in constraints.now))) }
{
    !down && (is_free(scope, name) && is_without_list(constraints))
}

/// Whether a name stays: a field of an object that is no dummy, and a plain name that is no dummy and has no argument list, where it
/// is not followed `down` to the head.
pub fn stays(down: bool, scope: &Scope<'_>, reference: Reference<'_>) -> bool
    ensures { result ≡ stays chosen down (shown scope.now) (shown_reference reference.entry) }
{
    match reference {
        Reference::Named(name) => plain_stays(down, scope, name.as_str(), &[]),
        Reference::Written(reference) => match &reference.parent {
            None => {
                let constraints = reference.constraints.as_slice();
                plain_stays(down, scope, reference.identifier.as_str(), constraints)
            }
            Some(object) => is_free(scope, object.as_str()),
        },
    }
}
