//! What stands for constraints, each in its order.

ghost use Rattle.asn_meaning_heads.specs.Places.{shown_place};
ghost use Rattle.asn_meaning_heads.specs.Scopes.{shown};
ghost use Rattle.asn_link_instance.specs.Instance.{component_instance, constraint_instance, inner_instance, listed_instance, of_constraints};
ghost use Rattle.asn_link_instance.specs.Subjects.{OnValues, gathered, traversed};
ghost use Rattle.asn_link_types.specs.inner.Parts.{constraint_on, listed_on};
ghost use Rattle.asn_meaning.specs.Judge.{meaning};
ghost use Rattle.asn_link_values.specs.Choosing.{chosen, instances};
ghost use Rattle.asn_link_values.specs.Subjects.{shown_subject};
ghost use Rattle.asn_tree.specs.declared.constraints.Constraint.{out-Constraint};
ghost use Rattle.asn_tree.specs.declared.constraints.SubtypeElement.{out-SubtypeElement};
ghost use Rattle.std.specs.Option.{option_map};
ghost use Rattle.std.specs.Prelude.{◌≡◌, IfOk};

use crate::linking::contents::content_instance;
use crate::linking::elements::of_set;
use crate::parts::part_of;
use crate::room::Room;
use crate::sets::table_constraint;
use crate::trees::{
    component, content_constraint, inner_element, listed_component, subtype_constraint,
};
use asn_link_values::Subject;
use asn_meaning_heads::{Place, Scope, head_within};
use asn_meaning_shapes::element_place;
use asn_memory::{List, Mem};
use asn_names_index::Names;
use asn_tree::{ConstrainedComponent, Constraint, InnerTypeConstraint, SubtypeElement};
use std::alloc::Global;

/// What stands for constraints that are written in a scope, on a type; without any its head is not asked for.
#[cycle(linking)]
#[tactic(auto, using(crate::proofs::Gathering::constraints_headless))]
pub(super) fn of_constraints<'a>(
    alloc: Global,
    names: &Names<'a>,
    steps: usize,
    levels: usize,
    room: &mut Room,
    scope: &Scope<'a>,
    place: &Place<'a>,
    constraints: &'a [Constraint],
) -> Mem<Option<List<Constraint>>>
    ensures { IfOk result (λ made. made ≡ of_constraints chosen names.now.definitions.now (meaning names.now.definitions.now steps) (instances names.now.definitions.now steps levels) (shown scope.now) (shown_place place.now) constraints.now) }
{
    if constraints.is_empty() {
        return Ok(Some(List::new(alloc)));
    }
    let Some(head) = head_within(alloc, names, steps, place)? else {
        return Ok(None);
    };
    let made = constraints_on(alloc, names, steps, levels, room, scope, &head, constraints)?;
    Ok(made)
}

/// What stands for constraints on a head.
#[cycle(linking)]
#[tactic(auto, using(crate::proofs::Gathering::begun, crate::proofs::Gathering::gathered_next, crate::proofs::Gathering::gathered_lost, crate::proofs::Gathering::gathered_done))]
fn constraints_on<'a>(
    alloc: Global,
    names: &Names<'a>,
    steps: usize,
    levels: usize,
    room: &mut Room,
    scope: &Scope<'a>,
    head: &Place<'a>,
    constraints: &'a [Constraint],
) -> Mem<Option<List<Constraint>>>
    ensures { IfOk result (λ made. made ≡ gathered (constraint_on names.now.definitions.now steps levels (shown scope.now) (shown_place head.now)) constraints.now) }
{
    let subject = Subject::OnValues(head);
    let mut made = List::new(alloc);
    for constraint in constraints {
        let Some(one) = constraint_instance(
            alloc, names, steps, levels, room, scope, subject, constraint,
        )?
        else {
            return Ok(None);
        };
        made.append(one)?;
    }
    Ok(Some(made))
}

/// What stands for a constraint: an argument list falls away.
#[cycle(linking)]
fn constraint_instance<'a>(
    alloc: Global,
    names: &Names<'a>,
    steps: usize,
    levels: usize,
    room: &mut Room,
    scope: &Scope<'a>,
    subject: Subject<'_, 'a>,
    constraint: &'a Constraint,
) -> Mem<Option<List<Constraint>>>
    ensures { IfOk result (λ made. made ≡ constraint_instance chosen names.now.definitions.now (meaning names.now.definitions.now steps) (instances names.now.definitions.now steps levels) (shown scope.now) (shown_subject subject.entry) (out-Constraint constraint.now)) }
{
    room.take()?;
    match constraint {
        Constraint::SubtypeConstraint(x) => {
            let set = of_set(alloc, names, steps, levels, room, scope, subject, &x.set)?;
            let made = subtype_constraint(alloc, x, set)?;
            Ok(made)
        }
        Constraint::TableConstraint(x) => {
            let made = table_constraint(alloc, scope, x)?;
            Ok(Some(made))
        }
        Constraint::Parameter(_) => Ok(Some(List::new(alloc))),
        Constraint::ContentConstraint(x) => {
            let content = content_instance(alloc, names, steps, levels, room, scope, x)?;
            let made = content_constraint(alloc, content)?;
            Ok(made)
        }
    }
}

/// WITH COMPONENT: constraints on the elements of a list; characters have none (X.680 51.8.5).
#[cycle(linking)]
pub(super) fn component_instance<'a>(
    alloc: Global,
    names: &Names<'a>,
    steps: usize,
    levels: usize,
    room: &mut Room,
    scope: &Scope<'a>,
    subject: Subject<'_, 'a>,
    constraints: &'a [Constraint],
) -> Mem<Option<SubtypeElement>>
    ensures { IfOk result (λ made. option_map out-SubtypeElement made ≡ component_instance chosen names.now.definitions.now (meaning names.now.definitions.now steps) (instances names.now.definitions.now steps levels) (shown scope.now) (shown_subject subject.entry) constraints.now) }
{
    match subject {
        Subject::OnValues(head) => {
            let made = component_on(alloc, names, steps, levels, room, scope, head, constraints)?;
            Ok(made)
        }
        Subject::OnCharacters => Ok(None),
    }
}

/// WITH COMPONENT on a head.
#[cycle(linking)]
fn component_on<'a>(
    alloc: Global,
    names: &Names<'a>,
    steps: usize,
    levels: usize,
    room: &mut Room,
    scope: &Scope<'a>,
    head: &Place<'a>,
    constraints: &'a [Constraint],
) -> Mem<Option<SubtypeElement>>
    ensures { IfOk result (λ made. option_map out-SubtypeElement made ≡ component_instance chosen names.now.definitions.now (meaning names.now.definitions.now steps) (instances names.now.definitions.now steps levels) (shown scope.now) (OnValues (shown_place head.now)) constraints.now) }
{
    let Some(element) = element_place(alloc, head)? else {
        return Ok(None);
    };
    let made = of_constraints(
        alloc,
        names,
        steps,
        levels,
        room,
        scope,
        &element,
        constraints,
    )?;
    Ok(component(made))
}

/// WITH COMPONENTS: constraints on the parts of a type; characters have none (X.680 51.8.6).
#[cycle(linking)]
pub(super) fn inner_instance<'a>(
    alloc: Global,
    names: &Names<'a>,
    steps: usize,
    levels: usize,
    room: &mut Room,
    scope: &Scope<'a>,
    subject: Subject<'_, 'a>,
    inner: &'a InnerTypeConstraint,
) -> Mem<Option<SubtypeElement>>
    ensures { IfOk result (λ made. option_map out-SubtypeElement made ≡ inner_instance chosen names.now.definitions.now (meaning names.now.definitions.now steps) (instances names.now.definitions.now steps levels) (shown scope.now) (shown_subject subject.entry) inner.now) }
{
    match subject {
        Subject::OnValues(head) => {
            let made = inner_on(alloc, names, steps, levels, room, scope, head, inner)?;
            Ok(made)
        }
        Subject::OnCharacters => Ok(None),
    }
}

/// WITH COMPONENTS on a head.
#[cycle(linking)]
fn inner_on<'a>(
    alloc: Global,
    names: &Names<'a>,
    steps: usize,
    levels: usize,
    room: &mut Room,
    scope: &Scope<'a>,
    head: &Place<'a>,
    inner: &'a InnerTypeConstraint,
) -> Mem<Option<SubtypeElement>>
    ensures { IfOk result (λ made. option_map out-SubtypeElement made ≡ inner_instance chosen names.now.definitions.now (meaning names.now.definitions.now steps) (instances names.now.definitions.now steps levels) (shown scope.now) (OnValues (shown_place head.now)) inner.now) }
{
    let written = inner.constraints.as_slice();
    let made = listed_instances(alloc, names, steps, levels, room, scope, head, written)?;
    Ok(inner_element(inner, made))
}

/// What stands for the listed components on a head.
#[cycle(linking)]
#[tactic(auto, using(crate::proofs::Gathering::begun, crate::proofs::Gathering::traversed_next, crate::proofs::Gathering::traversed_lost, crate::proofs::Gathering::traversed_done))]
fn listed_instances<'a>(
    alloc: Global,
    names: &Names<'a>,
    steps: usize,
    levels: usize,
    room: &mut Room,
    scope: &Scope<'a>,
    head: &Place<'a>,
    components: &'a [ConstrainedComponent],
) -> Mem<Option<List<ConstrainedComponent>>>
    ensures { IfOk result (λ made. made ≡ traversed (listed_on names.now.definitions.now steps levels (shown scope.now) (shown_place head.now)) components.now) }
{
    let mut made = List::new(alloc);
    for listed in components {
        let Some(one) = listed_instance(alloc, names, steps, levels, room, scope, head, listed)?
        else {
            return Ok(None);
        };
        made.add(one)?;
    }
    Ok(Some(made))
}

/// What stands for a listed component on a head.
#[cycle(linking)]
fn listed_instance<'a>(
    alloc: Global,
    names: &Names<'a>,
    steps: usize,
    levels: usize,
    room: &mut Room,
    scope: &Scope<'a>,
    head: &Place<'a>,
    listed: &'a ConstrainedComponent,
) -> Mem<Option<ConstrainedComponent>>
    ensures { IfOk result (λ made. made ≡ listed_instance chosen names.now.definitions.now (meaning names.now.definitions.now steps) (instances names.now.definitions.now steps levels) (shown scope.now) (shown_place head.now) listed.now) }
{
    room.take()?;
    let Some(part) = part_of(alloc, names, steps, levels, head, listed)? else {
        return Ok(None);
    };
    let own = listed.constraints.as_slice();
    let constraints = of_constraints(alloc, names, steps, levels, room, scope, &part, own)?;
    let made = listed_component(alloc, listed, constraints)?;
    Ok(made)
}
