//! Arguments that are judged by their kind alone: none, or an object or a class; and those that are an item of their governor.

ghost use Rattle.asn_meaning_heads.specs.Places.{shown_place};
ghost use Rattle.asn_meaning_heads.specs.Scopes.{shown, shown_argument};
ghost use Rattle.asn_meaning.specs.Accepts.{place};
ghost use Rattle.asn_meaning.specs.Answers.{once};
ghost use Rattle.asn_meaning.specs.Judge.{meaning};
ghost use Rattle.asn_places_objects.specs.inner.Asked.{is_own_named};
ghost use Rattle.asn_needs.specs.Dummies.{handed_on, name_of_value};
ghost use Rattle.asn_meaning.specs.Written.{as_written};
ghost use Rattle.asn_needs.specs.PartsOfTypes.{here, is_aside, is_own, is_own_at};
ghost use Rattle.asn_needs.specs.Sites.{seen};
ghost use Rattle.asn_places_types.specs.Sites.{shown_around};
ghost use Rattle.asn_tree.specs.declared.constraints.Parameter.{out-Parameter};
ghost use Rattle.std.specs.Option.{option_map};
ghost use Rattle.std.specs.Prelude.{◌≡◌, ◌+◌, ℕ, false, IfOk};

use asn_meaning_dummies::{handed_on, is_information, name_of_value};
use asn_meaning_heads::{Argument, Place, Scope, TypeForm, as_written, head};
use asn_memory::Mem;
use asn_names_index::Names;
use asn_places_names::is_own;
use asn_places_types::{Around, scope_in};
use asn_tree::{ASN1Type, ASN1Value, Parameter, ParameterGovernor};
use std::alloc::Global;
use std::rc::Rc;

/// A governor's type in the scope of the template.
///
/// Err: want of memory.
pub fn governing<'a>(alloc: Global, inner: &Scope<'a>, ty: &'a ASN1Type) -> Mem<Place<'a>>
    ensures { IfOk result (λ p. shown_place p ≡ place (shown inner.now) ty.now) }
{
    let scope = inner.copy(alloc)?;
    let ty = TypeForm::Written(ty);
    Ok(Place { scope, ty })
}

/// Whether the name is an item or a named number of the type.
///
/// Err: want of memory, also where the steps are used up.
fn is_own_named<'a>(
    alloc: Global,
    names: &Names<'a>,
    steps: usize,
    place: &Place<'a>,
    name: &str,
) -> Mem<bool>
    ensures { IfOk result (λ b. (m : ℕ) → b ≡ is_own_named (meaning names.now.definitions.now (steps + m)) (shown_place place.now) name.now) }
{
    match head(alloc, names, steps, place)? {
        None => Ok(false),
        Some(head) => Ok(is_own(&head, name)),
    }
}

/// Whether a value is the name of an item or a named number of the type.
///
/// Err: want of memory, also where the steps are used up.
fn is_own_value<'a>(
    alloc: Global,
    names: &Names<'a>,
    steps: usize,
    place: &Place<'a>,
    value: &ASN1Value,
) -> Mem<bool>
    ensures { IfOk result (λ b. (m : ℕ) → b ≡ once false (name_of_value (as_written value.now)) (is_own_named (meaning names.now.definitions.now (steps + m)) (shown_place place.now))) }
{
    match name_of_value(as_written(value)) {
        None => Ok(false),
        Some(name) => {
            let own = is_own_named(alloc, names, steps, place, name.as_str())?;
            Ok(own)
        }
    }
}

/// Whether an argument is the name of an item or a named number of the type.
///
/// Err: want of memory, also where the steps are used up.
fn is_own_at<'a>(
    alloc: Global,
    names: &Names<'a>,
    steps: usize,
    place: &Place<'a>,
    argument: &Parameter,
) -> Mem<bool>
    ensures { IfOk result (λ b. (m : ℕ) → b ≡ is_own_at (seen names.now.definitions.now (steps + m)) (shown_place place.now) (out-Parameter argument.now)) }
{
    match argument {
        Parameter::ValueParameter(value) => {
            let own = is_own_value(alloc, names, steps, place, value)?;
            Ok(own)
        }
        Parameter::TypeParameter(_) => Ok(false),
        Parameter::InformationObjectParameter(_) => Ok(false),
        Parameter::ObjectSetParameter(_) => Ok(false),
    }
}

/// Whether an argument is an item of its governor, which comes before an object of that name.
///
/// Err: want of memory, also where the steps are used up.
pub fn is_own_argument<'a>(
    alloc: Global,
    names: &Names<'a>,
    steps: usize,
    inner: &Scope<'a>,
    governor: &'a ParameterGovernor,
    argument: Argument<'_, 'a>,
) -> Mem<bool>
    ensures { IfOk result (λ b. (m : ℕ) → b ≡ is_own (seen names.now.definitions.now (steps + m)) (shown inner.now) governor.now (shown_argument argument.entry)) }
{
    match governor {
        ParameterGovernor::None => Ok(false),
        ParameterGovernor::TypeOrClass(ty) => {
            let place = governing(alloc, inner, ty)?;
            let own = is_own_at(alloc, names, steps, &place, argument.tree)?;
            Ok(own)
        }
        ParameterGovernor::Class(_) => Ok(false),
    }
}

/// Whether an argument is judged by its kind alone: none, or an object or a class.
///
/// Err: want of memory, also where the steps are used up.
pub fn is_aside<'a>(
    alloc: Global,
    names: &Names<'a>,
    steps: usize,
    inner: &Scope<'a>,
    governor: &'a ParameterGovernor,
    argument: Option<Argument<'_, 'a>>,
) -> Mem<bool>
    ensures { IfOk result (λ b. (m : ℕ) → b ≡ is_aside (seen names.now.definitions.now (steps + m)) (shown inner.now) governor.now (option_map shown_argument argument.entry)) }
{
    match argument {
        None => Ok(true),
        Some(argument) => {
            if is_own_argument(alloc, names, steps, inner, governor, argument)? {
                Ok(false)
            } else {
                Ok(is_information(names, argument))
            }
        }
    }
}

/// What an argument that is written in these surroundings stands for: a dummy that is handed on counts as its argument. None: it ends
/// at a dummy without an argument.
///
/// Err: want of memory, only where it is handed on more often than there are steps.
pub fn handed_on_here<'s, 'a>(
    steps: usize,
    around: &'s Rc<Around<'a>>,
    argument: &'a Parameter,
) -> Mem<Option<Argument<'s, 'a>>>
    ensures { IfOk result (λ found. (m : ℕ) → option_map shown_argument found ≡ handed_on (steps + m) (here (shown_around around.now.value) argument.now)) }
{
    let here = Argument {
        tree: argument,
        scope: scope_in(around),
    };
    let found = handed_on(steps, here)?;
    Ok(found)
}

/// Whether what an argument stands for is judged by its kind alone.
///
/// Err: want of memory, also where the steps are used up.
#[tactic(auto, using(crate::proofs::Owning::aside_found))]
pub fn is_aside_here<'a>(
    alloc: Global,
    names: &Names<'a>,
    steps: usize,
    around: &Rc<Around<'a>>,
    argument: &'a Parameter,
    inner: &Scope<'a>,
    governor: &'a ParameterGovernor,
) -> Mem<bool>
    ensures { IfOk result (λ b. (m : ℕ) → b ≡ is_aside (seen names.now.definitions.now (steps + m)) (shown inner.now) governor.now (handed_on (steps + m) (here (shown_around around.now.value) argument.now))) }
{
    let found = handed_on_here(steps, around, argument)?;
    let aside = is_aside(alloc, names, steps, inner, governor, found)?;
    Ok(aside)
}
