//! What a dummy's place in a template takes, and whether an argument serves there.

ghost use Rattle.asn_meaning_dummies.specs.Places.{shown_wanted};
ghost use Rattle.asn_meaning_heads.specs.Scopes.{shown, shown_argument, shown_bound};
ghost use Rattle.asn_meaning_heads.specs.Written.{shown_written};
ghost use Rattle.asn_needs.specs.Dummies.{is_null, is_type_argument, misplaced, serves, unserved};
ghost use Rattle.asn_needs.specs.Sites.{seen};
ghost use Rattle.asn_tree.specs.declared.constraints.Parameter.{out-Parameter};
ghost use Rattle.std.specs.Prelude.{◌≡◌, ◌+◌, ℕ, IfOk};

use crate::information::{governs_objects, is_information};
use crate::names::handed_on;
use crate::sets::set_argument;
use asn_meaning_heads::{Argument, Bound, Scope, Written, as_written};
use asn_memory::Mem;
use asn_names_index::Names;
use asn_tree::{Parameter, ParameterGovernor};

/// What a place takes.
#[derive(Clone, Copy)]
pub enum Wanted {
    Type,
    Set,
    /// Neither a type nor a set.
    Nothing,
}

/// Whether a value is NULL.
fn is_null(written: Written<'_>) -> bool
    ensures { result ≡ is_null (shown_written written.entry) }
{
    match written {
        Written::Null => true,
        Written::All => false,
        Written::Truth(_) => false,
        Written::Number(_) => false,
        Written::Real(_) => false,
        Written::Text(_) => false,
        Written::Bits(_) => false,
        Written::BitNames(_) => false,
        Written::Octets(_) => false,
        Written::Arcs(_) => false,
        Written::Item(_) => false,
        Written::Name { .. } => false,
        Written::Braces(_) => false,
        Written::Fields(_) => false,
        Written::Elements(_) => false,
        Written::Alternative { .. } => false,
        Written::Nested(_) => false,
    }
}

/// Whether an argument is a type, or the value NULL.
pub fn is_type_argument(argument: &Parameter) -> bool
    ensures { result ≡ is_type_argument (out-Parameter argument.now) }
{
    match argument {
        Parameter::ValueParameter(value) => is_null(as_written(value)),
        Parameter::TypeParameter(_) => true,
        Parameter::InformationObjectParameter(_) => false,
        Parameter::ObjectSetParameter(_) => false,
    }
}

/// Whether an argument is of the kind that a place takes.
pub fn serves(wanted: Wanted, argument: &Parameter) -> bool
    ensures { result ≡ serves (shown_wanted wanted) (out-Parameter argument.now) }
{
    match wanted {
        Wanted::Type => is_type_argument(argument),
        Wanted::Set => match set_argument(argument) {
            None => false,
            Some(_) => true,
        },
        Wanted::Nothing => false,
    }
}

/// Whether an argument is of another kind than the dummy's place in the template needs; the governor is read in this scope. One of
/// no right kind, an object or a class, is judged where it is written.
pub fn unserved(
    names: &Names<'_>,
    scope: &Scope<'_>,
    governor: &ParameterGovernor,
    wanted: Wanted,
    argument: Argument<'_, '_>,
) -> bool
    ensures { result ≡ unserved names.now.definitions.now (shown scope.now) governor.now (shown_wanted wanted) (shown_argument argument.entry) }
{
    if is_information(names, argument) {
        return false;
    }
    if governs_objects(names, scope, governor) {
        return false;
    }
    !serves(wanted, argument.tree)
}

/// Whether what a dummy of the scope stands for is of another kind than its place in the template needs. A dummy without an argument
/// is not.
///
/// Err: want of memory, only where its argument is handed on more often than there are steps.
pub fn misplaced(
    names: &Names<'_>,
    steps: usize,
    scope: &Scope<'_>,
    bound: Bound<'_, '_>,
    wanted: Wanted,
) -> Mem<bool>
    ensures { IfOk result (λ b. (m : ℕ) → b ≡ misplaced (seen names.now.definitions.now (steps + m)) (shown scope.now) (shown_bound bound.entry) (shown_wanted wanted)) }
{
    match bound.argument {
        None => Ok(false),
        Some(argument) => match handed_on(steps, argument)? {
            None => Ok(false),
            Some(found) => Ok(unserved(names, scope, bound.governor, wanted, found)),
        },
    }
}
