//! The dummies of one template with their arguments.

ghost use Rattle.asn_names_index.specs.Dummies.{pair_of, shown_pair};
ghost use Rattle.std.specs.Option.{option_map};
ghost use Rattle.std.specs.Prelude.{◌≡◌};

use asn_tree::{Parameter, ParameterGovernor, ParameterizationArgument};

/// A dummy's governor with its argument.
#[derive(Clone, Copy)]
pub struct Pair<'a> {
    pub governor: &'a ParameterGovernor,
    pub argument: &'a Parameter,
}

/// The first dummy of the name with its argument, which stands at the same place (X.683 9.7). None: no dummy has the name, or an
/// argument is missing before the first that has.
#[tactic(auto, using(crate::proofs::Pairing::none_left, crate::proofs::Pairing::no_argument, crate::proofs::Pairing::has_name, crate::proofs::Pairing::lacks_name))]
pub fn pair_of<'a>(
    dummies: &'a [ParameterizationArgument],
    arguments: &'a [Parameter],
    name: &str,
) -> Option<Pair<'a>>
    ensures { option_map shown_pair result ≡ pair_of dummies.now arguments.now name.now }
{
    for i in 0..dummies.len() {
        if i >= arguments.len() {
            return None;
        }
        if dummies[i].dummy_reference.as_str() == name {
            return Some(Pair {
                governor: &dummies[i].param_governor,
                argument: &arguments[i],
            });
        }
    }
    None
}
