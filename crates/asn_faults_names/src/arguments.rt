//! Arguments that are an unknown name, and arguments that are not linked (X.683 8.3).

ghost use Rattle.asn_meaning_heads.specs.Scopes.{shown, shown_argument};
ghost use Rattle.asn_meaning.specs.Answers.{once};
ghost use Rattle.asn_needs.specs.Arguments.{is_unknown};
ghost use Rattle.asn_needs.specs.Dummies.{handed_on};
ghost use Rattle.asn_needs.specs.Missing.{argument_unknown, argument_unsupported};
ghost use Rattle.asn_needs.specs.PartsOfTypes.{here};
ghost use Rattle.asn_needs.specs.Sites.{seen};
ghost use Rattle.asn_places_types.specs.Sites.{shown_around};
ghost use Rattle.asn_tree.specs.declared.constraints.Parameter.{out-Parameter};
ghost use Rattle.std.specs.Option.{option_map};
ghost use Rattle.std.specs.Prelude.{◌≡◌, ◌+◌, ℕ, false, IfOk};

use asn_faults_arguments::{is_braced, is_unknown};
use asn_meaning_dummies::{governs_objects, is_information};
use asn_meaning_heads::{Argument, Scope};
use asn_memory::Mem;
use asn_names_index::Names;
use asn_places_objects::{handed_on_here, is_aside, is_own_argument};
use asn_places_types::Around;
use asn_tree::{Parameter, ParameterGovernor, ParameterizationArgument};
use std::alloc::Global;
use std::rc::Rc;

/// Whether an argument, where there is one, is a name that has no definition.
fn is_unknown_name(names: &Names<'_>, argument: Option<Argument<'_, '_>>) -> bool
    ensures { result ≡ once false (option_map shown_argument argument.entry) (λ a. is_unknown names.now.definitions.now (out-Parameter a.tree)) }
{
    match argument {
        None => false,
        Some(argument) => is_unknown(names, argument.tree),
    }
}

/// Whether what an argument stands for is a name that has no definition, where its governor is a class.
///
/// Err: want of memory, also where the steps are used up.
#[tactic(auto, using(crate::proofs::Arguing::aside_known, crate::proofs::Arguing::classed_unknown, crate::proofs::Arguing::typed_known))]
fn is_found_unknown<'a>(
    alloc: Global,
    names: &Names<'a>,
    steps: usize,
    inner: &Scope<'a>,
    governor: &'a ParameterGovernor,
    argument: Option<Argument<'_, 'a>>,
) -> Mem<bool>
    ensures { IfOk result (λ b. (m : ℕ) → b ≡ argument_unknown (seen names.now.definitions.now (steps + m)) (shown inner.now) governor.now (option_map shown_argument argument.entry)) }
{
    if is_aside(alloc, names, steps, inner, governor, argument)? {
        return Ok(false);
    }
    if governs_objects(names, inner, governor) {
        Ok(is_unknown_name(names, argument))
    } else {
        Ok(false)
    }
}

/// Whether an argument for a dummy of a template is a name that has no definition, where the dummy's governor is a class.
///
/// Err: want of memory, also where the steps are used up.
#[tactic(auto, using(crate::proofs::Arguing::unknown_handed))]
pub(crate) fn is_unknown_argument<'a>(
    alloc: Global,
    names: &Names<'a>,
    steps: usize,
    around: &Rc<Around<'a>>,
    argument: &'a Parameter,
    dummy: &'a ParameterizationArgument,
    inner: &Scope<'a>,
) -> Mem<bool>
    ensures { IfOk result (λ b. (m : ℕ) → b ≡ argument_unknown (seen names.now.definitions.now (steps + m)) (shown inner.now) dummy.now.param_governor (handed_on (steps + m) (here (shown_around around.now.value) argument.now))) }
{
    let found = handed_on_here(steps, around, argument)?;
    let governor = &dummy.param_governor;
    let unknown = is_found_unknown(alloc, names, steps, inner, governor, found)?;
    Ok(unknown)
}

/// Whether an argument is or names an object or a class, or is written in braces where its governor is a class.
///
/// Err: want of memory, also where the steps are used up.
#[tactic(auto, using(crate::proofs::Arguing::plain_linked, crate::proofs::Arguing::own_linked, crate::proofs::Arguing::information_unlinked))]
fn is_unlinked<'a>(
    alloc: Global,
    names: &Names<'a>,
    steps: usize,
    inner: &Scope<'a>,
    governor: &'a ParameterGovernor,
    argument: Argument<'_, 'a>,
) -> Mem<bool>
    ensures { IfOk result (λ b. (m : ℕ) → b ≡ argument_unsupported (seen names.now.definitions.now (steps + m)) (shown inner.now) governor.now (shown_argument argument.entry)) }
{
    let braced = governs_objects(names, inner, governor) && is_braced(argument.tree);
    if !is_information(names, argument) {
        return Ok(braced);
    }
    if is_own_argument(alloc, names, steps, inner, governor, argument)? {
        Ok(braced)
    } else {
        Ok(true)
    }
}

/// The same of what an argument stands for, where that is known.
///
/// Err: want of memory, also where the steps are used up.
fn is_found_unlinked<'a>(
    alloc: Global,
    names: &Names<'a>,
    steps: usize,
    inner: &Scope<'a>,
    governor: &'a ParameterGovernor,
    argument: Option<Argument<'_, 'a>>,
) -> Mem<bool>
    ensures { IfOk result (λ b. (m : ℕ) → b ≡ once false (option_map shown_argument argument.entry) (argument_unsupported (seen names.now.definitions.now (steps + m)) (shown inner.now) governor.now)) }
{
    match argument {
        None => Ok(false),
        Some(argument) => {
            let unlinked = is_unlinked(alloc, names, steps, inner, governor, argument)?;
            Ok(unlinked)
        }
    }
}

/// Whether an argument for a dummy of a template is not linked: it stands for an object or a class, or for braces where the dummy's
/// governor is a class.
///
/// Err: want of memory, also where the steps are used up.
#[tactic(auto, using(crate::proofs::Arguing::unlinked_handed))]
pub(crate) fn is_unlinked_argument<'a>(
    alloc: Global,
    names: &Names<'a>,
    steps: usize,
    around: &Rc<Around<'a>>,
    argument: &'a Parameter,
    dummy: &'a ParameterizationArgument,
    inner: &Scope<'a>,
) -> Mem<bool>
    ensures { IfOk result (λ b. (m : ℕ) → b ≡ once false (handed_on (steps + m) (here (shown_around around.now.value) argument.now)) (argument_unsupported (seen names.now.definitions.now (steps + m)) (shown inner.now) dummy.now.param_governor)) }
{
    let found = handed_on_here(steps, around, argument)?;
    let governor = &dummy.param_governor;
    let unlinked = is_found_unlinked(alloc, names, steps, inner, governor, found)?;
    Ok(unlinked)
}
