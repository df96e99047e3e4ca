//! What stands for the element sets of a constraint (X.680 50, 51).

ghost use Rattle.asn_meaning_heads.specs.Scopes.{shown};
ghost use Rattle.asn_link_instance.specs.Instance.{element_instance, operation_instance, set_instance};
ghost use Rattle.asn_link_types.specs.inner.Made.{alphabet_made, size_made};
ghost use Rattle.asn_link_types.specs.inner.Parts.{operation_behind};
ghost use Rattle.asn_link_instance.specs.Subjects.{OnCharacters, OnValues};
ghost use Rattle.asn_meaning.specs.Judge.{meaning};
ghost use Rattle.asn_meaning.specs.Ranges.{integer_named};
ghost use Rattle.asn_link_values.specs.Choosing.{chosen, instances};
ghost use Rattle.asn_link_values.specs.Subjects.{shown_subject};
ghost use Rattle.asn_tree.specs.declared.constraints.ElementOrSetOperation.{out-ElementOrSetOperation};
ghost use Rattle.asn_tree.specs.declared.constraints.SetOperation.{out-SetOperation};
ghost use Rattle.asn_tree.specs.declared.constraints.SubtypeElement.{out-SubtypeElement};
ghost use Rattle.std.specs.Option.{option_map};
ghost use Rattle.std.specs.Prelude.{◌≡◌, IfOk, None};

use crate::leaves::{pattern_element, settings_element, user_defined_element, whole_number};
use crate::linking::constraints::{component_instance, inner_instance};
use crate::linking::types::type_in;
use crate::room::Room;
use crate::trees::{
    alphabet, contained, element_set, joined, operation_set, size, type_constraint,
};
use crate::writing::{range_element, single_element};
use asn_link_values::Subject;
use asn_meaning_heads::Scope;
use asn_memory::Mem;
use asn_names_index::Names;
use asn_tree::{ElementOrSetOperation, SetOperation, SubtypeElement};
use std::alloc::Global;

/// What stands for a set, within so many levels.
#[cycle(linking)]
#[tactic(auto, using(crate::proofs::Levels::no_set))]
pub(super) fn of_set<'a>(
    alloc: Global,
    names: &Names<'a>,
    steps: usize,
    levels: usize,
    room: &mut Room,
    scope: &Scope<'a>,
    subject: Subject<'_, 'a>,
    set: &'a ElementOrSetOperation,
) -> Mem<Option<ElementOrSetOperation>>
    ensures { IfOk result (λ made. made ≡ (instances names.now.definitions.now steps levels).of_set (shown scope.now) (shown_subject subject.entry) set.now) }
{
    room.take()?;
    if levels == 0 {
        return Ok(None);
    }
    let made = set_instance(alloc, names, steps, levels - 1, room, scope, subject, set)?;
    Ok(made)
}

/// What stands for a set, one level down.
#[cycle(linking)]
fn set_instance<'a>(
    alloc: Global,
    names: &Names<'a>,
    steps: usize,
    levels: usize,
    room: &mut Room,
    scope: &Scope<'a>,
    subject: Subject<'_, 'a>,
    set: &'a ElementOrSetOperation,
) -> Mem<Option<ElementOrSetOperation>>
    ensures { IfOk result (λ made. option_map out-ElementOrSetOperation made ≡ set_instance chosen names.now.definitions.now (meaning names.now.definitions.now steps) (instances names.now.definitions.now steps levels) (shown scope.now) (shown_subject subject.entry) (out-ElementOrSetOperation set.now)) }
{
    match set {
        ElementOrSetOperation::Element(element) => {
            let made = of_element(alloc, names, steps, levels, room, scope, subject, element)?;
            Ok(element_set(made))
        }
        ElementOrSetOperation::SetOperation(x) => {
            let made = operation_instance(alloc, names, steps, levels, room, scope, subject, x)?;
            Ok(operation_set(made))
        }
    }
}

/// What stands for an element, an operator and the set behind it.
#[cycle(linking)]
fn operation_instance<'a>(
    alloc: Global,
    names: &Names<'a>,
    steps: usize,
    levels: usize,
    room: &mut Room,
    scope: &Scope<'a>,
    subject: Subject<'_, 'a>,
    operation: &'a SetOperation,
) -> Mem<Option<SetOperation>>
    ensures { IfOk result (λ made. option_map out-SetOperation made ≡ operation_instance chosen names.now.definitions.now (meaning names.now.definitions.now steps) (instances names.now.definitions.now steps levels) (shown scope.now) (shown_subject subject.entry) (out-SetOperation operation.now)) }
{
    let written = &operation.base;
    let Some(base) = of_element(alloc, names, steps, levels, room, scope, subject, written)? else {
        return Ok(None);
    };
    let made = operation_behind(
        alloc, names, steps, levels, room, scope, subject, operation, base,
    )?;
    Ok(made)
}

/// What stands for an operation, of which the element before the operator is made.
#[cycle(linking)]
fn operation_behind<'a>(
    alloc: Global,
    names: &Names<'a>,
    steps: usize,
    levels: usize,
    room: &mut Room,
    scope: &Scope<'a>,
    subject: Subject<'_, 'a>,
    operation: &'a SetOperation,
    base: SubtypeElement,
) -> Mem<Option<SetOperation>>
    ensures { IfOk result (λ made. option_map out-SetOperation made ≡ operation_behind names.now.definitions.now steps levels (shown scope.now) (shown_subject subject.entry) (out-SetOperation operation.now) base) }
{
    let written = operation.operant.get();
    let operant = of_set(alloc, names, steps, levels, room, scope, subject, written)?;
    let made = joined(alloc, operation, base, operant)?;
    Ok(made)
}

/// What stands for an element, within so many levels.
#[cycle(linking)]
#[tactic(auto, using(crate::proofs::Levels::no_element))]
fn of_element<'a>(
    alloc: Global,
    names: &Names<'a>,
    steps: usize,
    levels: usize,
    room: &mut Room,
    scope: &Scope<'a>,
    subject: Subject<'_, 'a>,
    element: &'a SubtypeElement,
) -> Mem<Option<SubtypeElement>>
    ensures { IfOk result (λ made. made ≡ (instances names.now.definitions.now steps levels).of_element (shown scope.now) (shown_subject subject.entry) element.now) }
{
    room.take()?;
    if levels == 0 {
        return Ok(None);
    }
    let made = element_instance(
        alloc,
        names,
        steps,
        levels - 1,
        room,
        scope,
        subject,
        element,
    )?;
    Ok(made)
}

/// What stands for an element, one level down: a value becomes a literal or the name of an item, and a contained subtype its type down to
/// the head, with the constraints on the way.
#[cycle(linking)]
fn element_instance<'a>(
    alloc: Global,
    names: &Names<'a>,
    steps: usize,
    levels: usize,
    room: &mut Room,
    scope: &Scope<'a>,
    subject: Subject<'_, 'a>,
    element: &'a SubtypeElement,
) -> Mem<Option<SubtypeElement>>
    ensures { IfOk result (λ made. option_map out-SubtypeElement made ≡ element_instance chosen names.now.definitions.now (meaning names.now.definitions.now steps) (instances names.now.definitions.now steps levels) (shown scope.now) (shown_subject subject.entry) (out-SubtypeElement element.now)) }
{
    match element {
        SubtypeElement::SingleValue { value, extensible } => {
            let made = single_element(alloc, names, steps, scope, subject, value, *extensible)?;
            Ok(made)
        }
        SubtypeElement::ContainedSubtype {
            subtype,
            extensible,
        } => {
            let made = type_in(alloc, names, steps, levels, room, true, scope, subtype)?;
            Ok(contained(made, *extensible))
        }
        SubtypeElement::TypeConstraint(ty) => {
            let made = type_in(alloc, names, steps, levels, room, true, scope, ty)?;
            Ok(type_constraint(made))
        }
        SubtypeElement::ValueRange {
            min,
            max,
            min_open,
            max_open,
            extensible,
        } => {
            let made = range_element(
                alloc,
                names,
                steps,
                scope,
                subject,
                min,
                max,
                *min_open,
                *max_open,
                *extensible,
            )?;
            Ok(made)
        }
        SubtypeElement::PermittedAlphabet(set) => {
            let made = alphabet_instance(alloc, names, steps, levels, room, scope, set.get())?;
            Ok(made)
        }
        SubtypeElement::SizeConstraint(set) => {
            let made = size_instance(alloc, names, steps, levels, room, scope, set.get())?;
            Ok(made)
        }
        SubtypeElement::SingleTypeConstraint(inner) => {
            let inner = inner.as_slice();
            let made = component_instance(
                alloc, names, steps, levels, room, scope, subject, inner,
            )?;
            Ok(made)
        }
        SubtypeElement::MultipleTypeConstraints(inner) => {
            let made = inner_instance(alloc, names, steps, levels, room, scope, subject, inner)?;
            Ok(made)
        }
        SubtypeElement::PatternConstraint(x) => {
            let made = pattern_element(alloc, x)?;
            Ok(Some(made))
        }
        SubtypeElement::UserDefinedConstraint(x) => {
            let made = user_defined_element(alloc, x)?;
            Ok(Some(made))
        }
        SubtypeElement::PropertySettings(x) => {
            let made = settings_element(alloc, x)?;
            Ok(Some(made))
        }
    }
}

/// FROM: the set is one of characters (X.680 51.7).
#[cycle(linking)]
fn alphabet_instance<'a>(
    alloc: Global,
    names: &Names<'a>,
    steps: usize,
    levels: usize,
    room: &mut Room,
    scope: &Scope<'a>,
    set: &'a ElementOrSetOperation,
) -> Mem<Option<SubtypeElement>>
    ensures { IfOk result (λ made. option_map out-SubtypeElement made ≡ alphabet_made ((instances names.now.definitions.now steps levels).of_set (shown scope.now) OnCharacters set.now)) }
{
    let subject = Subject::OnCharacters;
    let made = of_set(alloc, names, steps, levels, room, scope, subject, set)?;
    let element = alphabet(alloc, made)?;
    Ok(element)
}

/// SIZE: the set is one of whole numbers (X.680 51.5).
#[cycle(linking)]
fn size_instance<'a>(
    alloc: Global,
    names: &Names<'a>,
    steps: usize,
    levels: usize,
    room: &mut Room,
    scope: &Scope<'a>,
    set: &'a ElementOrSetOperation,
) -> Mem<Option<SubtypeElement>>
    ensures { IfOk result (λ made. option_map out-SubtypeElement made ≡ size_made ((instances names.now.definitions.now steps levels).of_set (shown scope.now) (OnValues (integer_named None)) set.now)) }
{
    let whole = whole_number();
    let subject = Subject::OnValues(&whole);
    let made = of_set(alloc, names, steps, levels, room, scope, subject, set)?;
    let element = size(alloc, made)?;
    Ok(element)
}
