//! Arguments that are object sets.

ghost use Rattle.asn_meaning_dummies.specs.Sets.{shown_set};
ghost use Rattle.asn_meaning_heads.specs.Written.{shown_written};
ghost use Rattle.asn_needs.specs.Dummies.{set_argument, set_of_value, single_arc};
ghost use Rattle.asn_tree.specs.declared.constraints.Parameter.{out-Parameter};
ghost use Rattle.std.specs.Option.{option_copied, option_map};
ghost use Rattle.std.specs.Prelude.{◌≡◌, ◌∷◌, []};

use asn_meaning_heads::{Written, as_written};
use asn_memory::Text;
use asn_tree::{ObjectIdentifierArc, ObjectSet, Parameter};

/// An object set: one of a tree, or one that a value in braces stands for and that no tree holds.
#[derive(Clone, Copy)]
pub enum SetForm<'a> {
    Written(&'a ObjectSet),
    /// The set of the one reference.
    Named(&'a Text),
    /// `{}`.
    Nothing,
}

/// The name that an arc without a number is.
fn name_of_arc<'a>(arc: &'a ObjectIdentifierArc) -> Option<&'a Text>
    ensures { option_copied result ≡ single_arc (arc.now ∷ []) }
{
    match &arc.number {
        None => arc.name.as_ref(),
        Some(_) => None,
    }
}

/// The name that a single arc without a number is.
fn single_arc<'a>(arcs: &'a [ObjectIdentifierArc]) -> Option<&'a Text>
    ensures { option_copied result ≡ single_arc arcs.now }
{
    match arcs {
        [] => None,
        [arc] => name_of_arc(arc),
        [_, _, ..] => None,
    }
}

/// The set that a value in braces stands for: one reference that was read as an object identifier, or none.
fn set_of_value<'a>(written: Written<'a>) -> Option<SetForm<'a>>
    ensures { option_map shown_set result ≡ set_of_value (shown_written written.entry) }
{
    match written {
        Written::Arcs(arcs) => match single_arc(arcs.as_slice()) {
            None => None,
            Some(name) => Some(SetForm::Named(name)),
        },
        Written::Braces(items) => match items.as_slice() {
            [] => Some(SetForm::Nothing),
            [_, ..] => None,
        },
        Written::All => None,
        Written::Null => None,
        Written::Truth(_) => None,
        Written::Number(_) => None,
        Written::Real(_) => None,
        Written::Text(_) => None,
        Written::Bits(_) => None,
        Written::BitNames(_) => None,
        Written::Octets(_) => None,
        Written::Item(_) => None,
        Written::Name { .. } => None,
        Written::Fields(_) => None,
        Written::Elements(_) => None,
        Written::Alternative { .. } => None,
        Written::Nested(_) => None,
    }
}

/// The object set that an argument is.
pub fn set_argument<'a>(argument: &'a Parameter) -> Option<SetForm<'a>>
    ensures { option_map shown_set result ≡ set_argument (out-Parameter argument.now) }
{
    match argument {
        Parameter::ValueParameter(value) => set_of_value(as_written(value)),
        Parameter::TypeParameter(_) => None,
        Parameter::InformationObjectParameter(_) => None,
        Parameter::ObjectSetParameter(set) => Some(SetForm::Written(set)),
    }
}
