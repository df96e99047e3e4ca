//! Arguments of another kind than their governor (X.683 8.3).

ghost use Rattle.asn_meaning_heads.specs.Scopes.{shown, shown_argument};
ghost use Rattle.asn_meaning_heads.specs.Written.{shown_written};
ghost use Rattle.asn_meaning.specs.Accepts.{place};
ghost use Rattle.asn_meaning.specs.Definitions.{see};
ghost use Rattle.asn_needs.specs.Arguments.{is_braced, is_braced_at, is_unknown, is_value_argument, unknown_name, wrong_argument, wrong_by_type, wrong_kind};
ghost use Rattle.asn_needs.specs.Dummies.{handed_on, is_class_name};
ghost use Rattle.asn_needs.specs.PartsOfTypes.{here};
ghost use Rattle.asn_needs.specs.Sites.{seen};
ghost use Rattle.asn_places_types.specs.Sites.{shown_around};
ghost use Rattle.asn_tree.specs.declared.constraints.Parameter.{out-Parameter};
ghost use Rattle.std.specs.Option.{option_map};
ghost use Rattle.std.specs.Prelude.{◌≡◌, ◌+◌, ℕ, is_none, IfOk};

use asn_meaning_dummies::{is_class_at, is_type_argument, set_argument};
use asn_meaning_heads::{Argument, Scope, Written, as_written, kind_of_tree};
use asn_memory::Mem;
use asn_names_index::{Names, is_built_in};
use asn_places_objects::{handed_on_here, is_aside};
use asn_places_types::Around;
use asn_tree::{ASN1Type, Parameter, ParameterGovernor, ParameterizationArgument};
use std::alloc::Global;
use std::rc::Rc;

/// Whether an argument is a value.
fn is_value_argument(argument: &Parameter) -> bool
    ensures { result ≡ is_value_argument (out-Parameter argument.now) }
{
    match argument {
        Parameter::ValueParameter(_) => true,
        Parameter::TypeParameter(_) => false,
        Parameter::InformationObjectParameter(_) => false,
        Parameter::ObjectSetParameter(_) => false,
    }
}

/// Whether a value stands between braces.
fn is_braced_at(written: Written<'_>) -> bool
    ensures { result ≡ is_braced_at (shown_written written.entry) }
{
    match written {
        Written::Braces(_) => true,
        Written::Arcs(_) => true,
        Written::All => false,
        Written::Null => false,
        Written::Truth(_) => false,
        Written::Number(_) => false,
        Written::Real(_) => false,
        Written::Text(_) => false,
        Written::Bits(_) => false,
        Written::BitNames(_) => false,
        Written::Octets(_) => false,
        Written::Item(_) => false,
        Written::Name { .. } => false,
        Written::Fields(_) => false,
        Written::Elements(_) => false,
        Written::Alternative { .. } => false,
        Written::Nested(_) => false,
    }
}

/// Whether an argument is a value between braces, which may be an object.
pub fn is_braced(argument: &Parameter) -> bool
    ensures { result ≡ is_braced (out-Parameter argument.now) }
{
    match argument {
        Parameter::ValueParameter(value) => is_braced_at(as_written(value)),
        Parameter::TypeParameter(_) => false,
        Parameter::InformationObjectParameter(_) => false,
        Parameter::ObjectSetParameter(_) => false,
    }
}

/// Whether a name has no definition.
#[tactic(auto, using(crate::proofs::Wronging::built_in_seen, crate::proofs::Wronging::unknown_seen))]
fn is_undefined(names: &Names<'_>, name: &str) -> bool
    ensures { result ≡ is_none (see names.now.definitions.now name.now) }
{
    if is_built_in(name) {
        return false;
    }
    names.see(name).is_none()
}

/// Whether a value is a name that has no definition.
fn unknown_name(names: &Names<'_>, written: Written<'_>) -> bool
    ensures { result ≡ unknown_name names.now.definitions.now (shown_written written.entry) }
{
    match written {
        Written::Name {
            parent: _,
            identifier,
        } => is_undefined(names, identifier.as_str()),
        Written::All => false,
        Written::Null => false,
        Written::Truth(_) => false,
        Written::Number(_) => false,
        Written::Real(_) => false,
        Written::Text(_) => false,
        Written::Bits(_) => false,
        Written::BitNames(_) => false,
        Written::Octets(_) => false,
        Written::Arcs(_) => false,
        Written::Item(_) => false,
        Written::Braces(_) => false,
        Written::Fields(_) => false,
        Written::Elements(_) => false,
        Written::Alternative { .. } => false,
        Written::Nested(_) => false,
    }
}

/// Whether an argument is a name that has no definition.
pub fn is_unknown(names: &Names<'_>, argument: &Parameter) -> bool
    ensures { result ≡ is_unknown names.now.definitions.now (out-Parameter argument.now) }
{
    match argument {
        Parameter::ValueParameter(value) => unknown_name(names, as_written(value)),
        Parameter::TypeParameter(_) => false,
        Parameter::InformationObjectParameter(_) => false,
        Parameter::ObjectSetParameter(_) => false,
    }
}

/// Whether an argument is wrong under a governor that is a type or a class: under a class, braces are not linked and an unknown name is
/// missing.
fn wrong_by_type(names: &Names<'_>, classed: bool, argument: &Parameter) -> bool
    ensures { result ≡ wrong_by_type names.now.definitions.now classed (out-Parameter argument.now) }
{
    if !classed {
        return !is_value_argument(argument);
    }
    if is_braced(argument) {
        return false;
    }
    !is_unknown(names, argument)
}

/// Whether an argument is wrong under a type or a class, which is read in this scope.
fn wrong_typed(names: &Names<'_>, inner: &Scope<'_>, ty: &ASN1Type, argument: &Parameter) -> bool
    ensures { result ≡ wrong_by_type names.now.definitions.now (is_class_name names.now.definitions.now (place (shown inner.now) ty.now)) (out-Parameter argument.now) }
{
    let classed = is_class_at(names, inner, kind_of_tree(ty));
    wrong_by_type(names, classed, argument)
}

/// Whether an argument is of another kind than its governor, which is read in this scope.
fn wrong_kind(
    names: &Names<'_>,
    inner: &Scope<'_>,
    governor: &ParameterGovernor,
    argument: &Parameter,
) -> bool
    ensures { (n : ℕ) → result ≡ wrong_kind (seen names.now.definitions.now n) (shown inner.now) governor.now (out-Parameter argument.now) }
{
    match governor {
        ParameterGovernor::None => !is_type_argument(argument),
        ParameterGovernor::TypeOrClass(ty) => wrong_typed(names, inner, ty, argument),
        ParameterGovernor::Class(_) => set_argument(argument).is_none(),
    }
}

/// Whether what an argument stands for is of another kind than its governor; an object or a class is not.
///
/// Err: want of memory, also where the steps are used up.
#[tactic(auto, using(crate::proofs::Wronging::aside_right, crate::proofs::Wronging::none_right, crate::proofs::Wronging::some_wrong))]
fn wrong_found<'a>(
    alloc: Global,
    names: &Names<'a>,
    steps: usize,
    inner: &Scope<'a>,
    governor: &'a ParameterGovernor,
    argument: Option<Argument<'_, 'a>>,
) -> Mem<bool>
    ensures { IfOk result (λ b. (m : ℕ) → b ≡ wrong_argument (seen names.now.definitions.now (steps + m)) (shown inner.now) governor.now (option_map shown_argument argument.entry)) }
{
    if is_aside(alloc, names, steps, inner, governor, argument)? {
        return Ok(false);
    }
    match argument {
        None => Ok(false),
        Some(argument) => Ok(wrong_kind(names, inner, governor, argument.tree)),
    }
}

/// Whether an argument for a dummy of a template is of another kind than the dummy's governor, which is read in the template's scope:
/// no type where no governor stands, no value under a type, no object set under a class (X.683 8.3). A dummy that is handed on counts
/// as its argument, and an object or a class is wrong by no governor here.
///
/// Err: want of memory, also where the steps are used up.
#[tactic(auto, using(crate::proofs::Wronging::wrong_handed))]
pub fn is_wrong_argument<'a>(
    alloc: Global,
    names: &Names<'a>,
    steps: usize,
    around: &Rc<Around<'a>>,
    argument: &'a Parameter,
    dummy: &'a ParameterizationArgument,
    inner: &Scope<'a>,
) -> Mem<bool>
    ensures { IfOk result (λ b. (m : ℕ) → b ≡ wrong_argument (seen names.now.definitions.now (steps + m)) (shown inner.now) dummy.now.param_governor (handed_on (steps + m) (here (shown_around around.now.value) argument.now))) }
{
    let found = handed_on_here(steps, around, argument)?;
    let wrong = wrong_found(alloc, names, steps, inner, &dummy.param_governor, found)?;
    Ok(wrong)
}
