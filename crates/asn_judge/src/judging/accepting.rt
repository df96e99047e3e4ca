//! Whether a type accepts a tree: what it stands for does, and all constraints of the type and of its place hold.

ghost use Rattle.asn_meaning_heads.specs.Kinds.{shown_kind};
ghost use Rattle.asn_meaning_heads.specs.Places.{shown_place};
ghost use Rattle.asn_meaning_heads.specs.Scopes.{shown};
ghost use Rattle.asn_meaning_heads.specs.Trails.{Passes, shown_targets};
ghost use Rattle.asn_judge.specs.inner.Judging.{type_accepts};
ghost use Rattle.asn_meaning_shapes.specs.Answers.{known};
ghost use Rattle.asn_meaning_shapes.specs.Members.{shown_member, shown_members};
ghost use Rattle.asn_meaning_shapes.specs.Trees.{shown_fields, shown_tree, shown_trees};
ghost use Rattle.asn_meaning.specs.Accepts.{judge};
ghost use Rattle.asn_meaning.specs.Answers.{each};
ghost use Rattle.asn_meaning.specs.Judge.{accepts_at, head_accepts, meaning, member_accepts, option_accepts, parts_accepted};
ghost use Rattle.asn_meaning.specs.Scopes.{Empty};
ghost use Rattle.asn_meaning.specs.Shapes.{choice_judged, fields_judged, is_of_kind, kind_or_parts, list_judged, member_judged, struct_judged, trees_judged};
ghost use Rattle.asn_meaning.specs.ValueTrees.{field_named};
ghost use Rattle.asn_tree.specs.declared.types.SequenceOrSet.{out-SequenceOrSet};
ghost use Rattle.std.specs.Prelude.{◌≡◌, IfOk, ℕ, ◌+◌};

use crate::characters::characters_fit;
use crate::judging::constraints::{Held, held_with};
use asn_meaning_heads::{
    Kind, Place, Scope, Target, TypeForm, constraints_at, kind_of, option_named, place_at, trail,
};
use asn_meaning_ranges::numbers_at_head;
use asn_meaning_shapes::{
    Answer, Field, FieldsByName, Member, MembersByName, Tree, alternative_of, elements_of,
    fields_of, is_of_kind, struct_members,
};
use asn_memory::{Mem, OutOfMemory};
use asn_names_index::Names;
use asn_tree::{ASN1Type, ChoiceOption, Constraint, SequenceOrSet};
use std::alloc::Global;

/// Whether a type with further constraints accepts a tree, within a number of steps.
///
/// Unknown: a name leads nowhere, however many steps there are. Err: want of memory, also where the steps are used up.
#[cycle(judging)]
#[tactic(auto, using(crate::proofs::Accepting::accepts_at_more))]
pub fn accepts<'a>(
    alloc: Global,
    names: &Names<'a>,
    steps: usize,
    place: &Place<'a>,
    constraints: &'a [Constraint],
    tree: &Tree,
) -> Mem<Answer>
    ensures { IfOk result (λ answer. (m : ℕ) → known answer ≡ (meaning names.now.definitions.now (steps + m)).accepts (shown_place place.now) constraints.now (shown_tree tree.now)) }
{
    if steps == 0 {
        return Err(OutOfMemory);
    }
    let answer = accepts_at(alloc, names, steps - 1, place, constraints, tree)?;
    Ok(answer)
}

/// Whether what a type stands for accepts a tree, and all constraints hold.
#[cycle(judging)]
#[tactic(auto, using(crate::proofs::Passed::lost_unknown))]
fn accepts_at<'a>(
    alloc: Global,
    names: &Names<'a>,
    steps: usize,
    place: &Place<'a>,
    constraints: &'a [Constraint],
    tree: &Tree,
) -> Mem<Answer>
    ensures { IfOk result (λ answer. (m : ℕ) → known answer ≡ accepts_at names.now.definitions.now (meaning names.now.definitions.now (steps + m)) (shown_place place.now) constraints.now (shown_tree tree.now)) }
{
    match trail(alloc, names, steps, place)? {
        None => Ok(Answer::Unknown),
        Some(targets) => {
            let answer = accepts_on(
                alloc,
                names,
                steps,
                place,
                targets.as_slice(),
                constraints,
                tree,
            )?;
            Ok(answer)
        }
    }
}

/// Whether a type accepts a tree that passes these targets on the way to its head: whether the head does, and from there backwards
/// whether the constraints of each place hold.
#[cycle(judging)]
#[tactic(auto, using(crate::proofs::Passed::stands_end, asn_meaning_ranges::proofs::Passed::numbers_end))]
fn accepts_on<'a>(
    alloc: Global,
    names: &Names<'a>,
    steps: usize,
    place: &Place<'a>,
    targets: &[Target<'a>],
    constraints: &'a [Constraint],
    tree: &Tree,
) -> Mem<Answer>
    requires passes { Passes names.now.definitions.now steps (shown_place place.now) (shown_targets targets.now) }
    ensures { IfOk result (λ answer. (m : ℕ) → known answer ≡ accepts_at names.now.definitions.now (meaning names.now.definitions.now (steps + m)) (shown_place place.now) constraints.now (shown_tree tree.now)) }
{
    let head = place_at(&*place, &*targets, targets.len());
    let left = steps.saturating_sub(targets.len());
    let answer = head_accepts(alloc, names, left, head, tree)?;
    let numbers = Some(numbers_at_head(head.ty));
    let mut held = Held { answer, numbers };
    for number in (0..targets.len()).rev() {
        let at = number + 1;
        let here = place_at(&*place, &*targets, at);
        let behind = constraints_at(&[], &*targets, at);
        let left = steps.saturating_sub(at);
        held = held_with(alloc, names, left, here, head, held, behind, tree)?;
    }
    let held = held_with(alloc, names, steps, place, head, held, constraints, tree)?;
    Ok(held.answer)
}

/// Whether a head accepts a tree, its constraints aside; an open type accepts every tree.
#[cycle(judging)]
fn head_accepts<'a>(
    alloc: Global,
    names: &Names<'a>,
    steps: usize,
    place: &Place<'a>,
    tree: &Tree,
) -> Mem<Answer>
    ensures { IfOk result (λ answer. (m : ℕ) → known answer ≡ head_accepts (meaning names.now.definitions.now (steps + m)) (shown_tree tree.now) (shown_place place.now)) }
{
    let kind = kind_of(place.ty);
    let characters = characters_fit(alloc, kind, tree)?;
    let answer = kind_accepts(alloc, names, steps, &place.scope, kind, tree)?;
    Ok(characters.and(answer))
}

/// Whether a tree is of a kind, and each of its parts is accepted.
#[cycle(judging)]
#[tactic(auto, using(crate::proofs::Accepting::judged_by, crate::proofs::Accepting::judged_beyond))]
fn kind_accepts<'a>(
    alloc: Global,
    names: &Names<'a>,
    steps: usize,
    scope: &Scope<'a>,
    kind: Kind<'a>,
    tree: &Tree,
) -> Mem<Answer>
    ensures { IfOk result (λ answer. (m : ℕ) → known answer ≡ kind_or_parts (is_of_kind (shown_kind kind.entry)) (parts_accepted (meaning names.now.definitions.now (steps + m)) (shown scope.now) (shown_tree tree.now) (shown_kind kind.entry)) (shown_tree tree.now)) }
{
    match is_of_kind(kind, tree) {
        Some(fits) => Ok(Answer::of(fits)),
        None => {
            let answer = parts_accepted(alloc, names, steps, scope, kind, tree)?;
            Ok(answer)
        }
    }
}

/// Whether each part of a tree is accepted by its type.
#[cycle(judging)]
fn parts_accepted<'a>(
    alloc: Global,
    names: &Names<'a>,
    steps: usize,
    scope: &Scope<'a>,
    kind: Kind<'a>,
    tree: &Tree,
) -> Mem<Answer>
    ensures { IfOk result (λ answer. (m : ℕ) → known answer ≡ parts_accepted (meaning names.now.definitions.now (steps + m)) (shown scope.now) (shown_tree tree.now) (shown_kind kind.entry)) }
{
    match kind {
        Kind::Struct(layer) => {
            let answer = struct_accepts(alloc, names, steps, scope, layer, tree)?;
            Ok(answer)
        }
        Kind::List(ty) => {
            let answer = list_accepts(alloc, names, steps, scope, ty, tree)?;
            Ok(answer)
        }
        Kind::Choice(options) => {
            let options = options.as_slice();
            let answer = choice_accepts(alloc, names, steps, scope, options, tree)?;
            Ok(answer)
        }
        Kind::Null => Ok(Answer::Unknown),
        Kind::Boolean => Ok(Answer::Unknown),
        Kind::Integer(_) => Ok(Answer::Unknown),
        Kind::Real => Ok(Answer::Unknown),
        Kind::BitString(_) => Ok(Answer::Unknown),
        Kind::OctetString => Ok(Answer::Unknown),
        Kind::CharacterString(_) => Ok(Answer::Unknown),
        Kind::Time => Ok(Answer::Unknown),
        Kind::Enumerated(_) => Ok(Answer::Unknown),
        Kind::ObjectIdentifier => Ok(Answer::Unknown),
        Kind::Opaque => Ok(Answer::Unknown),
        Kind::Field(_) => Ok(Answer::Unknown),
        Kind::Reference(_) => Ok(Answer::Unknown),
        Kind::Selection(_) => Ok(Answer::Unknown),
    }
}

/// Whether a SEQUENCE or SET accepts a tree (X.680 25, 27).
#[cycle(judging)]
#[tactic(auto, using(asn_meaning_shapes::proofs::Judging::no_struct, asn_meaning_shapes::proofs::Judging::struct_unknown, asn_meaning_shapes::proofs::Judging::struct_known))]
fn struct_accepts<'a>(
    alloc: Global,
    names: &Names<'a>,
    steps: usize,
    scope: &Scope<'a>,
    layer: &'a SequenceOrSet,
    tree: &Tree,
) -> Mem<Answer>
    ensures { IfOk result (λ answer. (m : ℕ) → known answer ≡ struct_judged (member_accepts (meaning names.now.definitions.now (steps + m))) ((meaning names.now.definitions.now (steps + m)).members (shown scope.now) (out-SequenceOrSet layer.now)) (shown_tree tree.now)) }
{
    match fields_of(tree) {
        None => Ok(Answer::No),
        Some(fields) => match struct_members(alloc, names, steps, scope, layer)? {
            None => Ok(Answer::Unknown),
            Some(members) => {
                let members = members.as_slice();
                let answer = fields_accepted(alloc, names, steps, members, fields)?;
                Ok(answer)
            }
        },
    }
}

/// Whether each field is a member's, each member that is present is accepted, and each that is absent may be.
#[cycle(judging)]
fn fields_accepted<'a>(
    alloc: Global,
    names: &Names<'a>,
    steps: usize,
    members: &[Member<'a>],
    fields: &[Field],
) -> Mem<Answer>
    ensures { IfOk result (λ answer. (m : ℕ) → known answer ≡ fields_judged (member_accepts (meaning names.now.definitions.now (steps + m))) (shown_fields fields.now) (shown_members members.now)) }
{
    let members_by_name = MembersByName::new(alloc, members)?;
    let named = Answer::of(members_by_name.has_members_for(fields));
    let fields_by_name = FieldsByName::new(alloc, fields)?;
    let answer = members_accept(alloc, names, steps, members, &fields_by_name)?;
    Ok(named.and(answer))
}

/// Whether each member that is present is accepted, and each that is absent may be.
#[cycle(judging)]
#[tactic(auto, using(asn_meaning_shapes::proofs::Judging::member_next, asn_meaning_shapes::proofs::Judging::members_done))]
fn members_accept<'a>(
    alloc: Global,
    names: &Names<'a>,
    steps: usize,
    members: &[Member<'a>],
    fields: &FieldsByName<'_>,
) -> Mem<Answer>
    ensures { IfOk result (λ answer. (m : ℕ) → known answer ≡ each (λ member. member_judged (member_accepts (meaning names.now.definitions.now (steps + m))) member (field_named (shown_fields fields.now.fields.now) member.written.name)) (shown_members members.now)) }
{
    let mut answer = Answer::Yes;
    for member in members {
        let one = member_accepts(alloc, names, steps, member, fields)?;
        answer = answer.and(one);
    }
    Ok(answer)
}

/// Whether the member's field is accepted, or may be absent where there is none.
#[cycle(judging)]
fn member_accepts<'a>(
    alloc: Global,
    names: &Names<'a>,
    steps: usize,
    member: &Member<'a>,
    fields: &FieldsByName<'_>,
) -> Mem<Answer>
    ensures { IfOk result (λ answer. (m : ℕ) → known answer ≡ member_judged (member_accepts (meaning names.now.definitions.now (steps + m))) (shown_member member.now) (field_named (shown_fields fields.now.fields.now) (shown_member member.now).written.name)) }
{
    match fields.tree(member.written.name.as_str()) {
        None => Ok(Answer::of(member.may_be_absent())),
        Some(tree) => {
            let place = member.place(alloc)?;
            let constraints = member.written.constraints.as_slice();
            let answer = accepts(alloc, names, steps, &place, constraints, tree)?;
            Ok(answer)
        }
    }
}

/// Whether a tree is a list, each element of which the type accepts (X.680 26, 28).
#[cycle(judging)]
#[tactic(auto, using(asn_meaning_shapes::proofs::Judging::no_list, asn_meaning_shapes::proofs::Judging::list_known))]
fn list_accepts<'a>(
    alloc: Global,
    names: &Names<'a>,
    steps: usize,
    scope: &Scope<'a>,
    ty: &'a ASN1Type,
    tree: &Tree,
) -> Mem<Answer>
    ensures { IfOk result (λ answer. (m : ℕ) → known answer ≡ list_judged (type_accepts (meaning names.now.definitions.now (steps + m)) (shown scope.now) ty.now) (shown_tree tree.now)) }
{
    match elements_of(tree) {
        None => Ok(Answer::No),
        Some(elements) => {
            let answer = elements_accepted(alloc, names, steps, scope, ty, elements)?;
            Ok(answer)
        }
    }
}

/// Whether the type accepts each tree.
#[cycle(judging)]
#[tactic(auto, using(asn_meaning_shapes::proofs::Judging::element_next, asn_meaning_shapes::proofs::Judging::elements_done))]
fn elements_accepted<'a>(
    alloc: Global,
    names: &Names<'a>,
    steps: usize,
    scope: &Scope<'a>,
    ty: &'a ASN1Type,
    elements: &[Tree],
) -> Mem<Answer>
    ensures { IfOk result (λ answer. (m : ℕ) → known answer ≡ trees_judged (type_accepts (meaning names.now.definitions.now (steps + m)) (shown scope.now) ty.now) (shown_trees elements.now)) }
{
    let mut answer = Answer::Yes;
    for element in elements {
        let one = type_accepts(alloc, names, steps, scope, ty, element)?;
        answer = answer.and(one);
    }
    Ok(answer)
}

/// Whether a type that is written in a scope accepts a tree.
#[cycle(judging)]
pub(super) fn type_accepts<'a>(
    alloc: Global,
    names: &Names<'a>,
    steps: usize,
    scope: &Scope<'a>,
    ty: &'a ASN1Type,
    tree: &Tree,
) -> Mem<Answer>
    ensures { IfOk result (λ answer. (m : ℕ) → known answer ≡ type_accepts (meaning names.now.definitions.now (steps + m)) (shown scope.now) ty.now (shown_tree tree.now)) }
{
    let scope = scope.copy(alloc)?;
    let place = Place {
        scope,
        ty: TypeForm::Written(ty),
    };
    let answer = accepts(alloc, names, steps, &place, &[], tree)?;
    Ok(answer)
}

/// Whether a tree is an alternative that an option names, and the option's type accepts it (X.680 29).
#[cycle(judging)]
#[tactic(auto, using(asn_meaning_shapes::proofs::Judging::no_choice, asn_meaning_shapes::proofs::Judging::no_option, asn_meaning_shapes::proofs::Judging::option_known))]
fn choice_accepts<'a>(
    alloc: Global,
    names: &Names<'a>,
    steps: usize,
    scope: &Scope<'a>,
    options: &'a [ChoiceOption],
    tree: &Tree,
) -> Mem<Answer>
    ensures { IfOk result (λ answer. (m : ℕ) → known answer ≡ choice_judged (option_accepts (meaning names.now.definitions.now (steps + m)) (shown scope.now)) options.now (shown_tree tree.now)) }
{
    match alternative_of(tree) {
        None => Ok(Answer::No),
        Some(alternative) => match option_named(options, alternative.name.as_str()) {
            None => Ok(Answer::No),
            Some(option) => {
                let scope = scope.copy(alloc)?;
                let place = Place {
                    scope,
                    ty: TypeForm::Written(&option.ty),
                };
                let constraints = option.constraints.as_slice();
                let tree = alternative.tree;
                let answer = accepts(alloc, names, steps, &place, constraints, tree)?;
                Ok(answer)
            }
        },
    }
}

/// Whether a type by itself accepts a tree, within a number of steps.
///
/// Unknown: a name leads nowhere, however many steps there are. Err: want of memory, also where the steps are used up.
#[tactic(auto, using(asn_meaning_heads::proofs::Scoping::shown_nothing))]
pub fn judge<'a>(
    alloc: Global,
    names: &Names<'a>,
    steps: usize,
    ty: &'a ASN1Type,
    tree: &Tree,
) -> Mem<Answer>
    ensures { IfOk result (λ answer. (m : ℕ) → known answer ≡ judge names.now.definitions.now (steps + m) Empty ty.now (shown_tree tree.now)) }
{
    let place = Place {
        scope: Scope::Empty,
        ty: TypeForm::Written(ty),
    };
    let answer = accepts(alloc, names, steps, &place, &[], tree)?;
    Ok(answer)
}
