//! WITH COMPONENTS: what is asked of the members of a SEQUENCE or SET, and of the alternatives of a CHOICE (X.680 51.8.6 to 51.8.9).

ghost use Rattle.asn_meaning_heads.specs.Kinds.{shown_kind};
ghost use Rattle.asn_meaning_heads.specs.Scopes.{shown};
ghost use Rattle.asn_meaning_ranges.specs.Parents.{shown_parent};
ghost use Rattle.asn_meaning_shapes.specs.Answers.{known};
ghost use Rattle.asn_meaning_shapes.specs.Members.{shown_member, shown_members};
ghost use Rattle.asn_meaning_shapes.specs.Trees.{shown_fields, shown_tree};
ghost use Rattle.asn_meaning.specs.Answers.{each};
ghost use Rattle.asn_meaning.specs.Constraints.{choice_holds, inner_at, inner_holds, listed_member_holds, listed_option_holds, member_holds, members_hold, option_holds, struct_holds};
ghost use Rattle.asn_meaning.specs.Judge.{meaning};
ghost use Rattle.asn_meaning.specs.ValueTrees.{field_named};
ghost use Rattle.asn_tree.specs.declared.types.ChoiceOption.{out-ChoiceOption};
ghost use Rattle.asn_tree.specs.declared.types.SequenceOrSet.{out-SequenceOrSet};
ghost use Rattle.std.specs.Prelude.{◌≡◌, IfOk, ℕ, ◌+◌};

use crate::judging::constraints::part_holds;
use crate::presence::{
    are_left_out, is_absent_word, is_choice_allowed, may_be_chosen, must_be_present,
};
use crate::trees::same_name;
use asn_meaning_heads::{Kind, Place, Scope, TypeForm, kind_of, option_named};
use asn_meaning_ranges::Parent;
use asn_meaning_shapes::{
    Answer, Field, Member, Tree, alternative_of, fields_of, find_field, member_named,
    struct_members,
};
use asn_memory::{Mem, Text};
use asn_names_index::Names;
use asn_tree::{ChoiceOption, ConstrainedComponent, InnerTypeConstraint, SequenceOrSet};
use std::alloc::Global;

/// Whether WITH COMPONENTS holds of a tree.
#[cycle(judging)]
pub(super) fn inner_holds<'a>(
    alloc: Global,
    names: &Names<'a>,
    steps: usize,
    scope: &Scope<'a>,
    parent: Parent<'_, '_, 'a>,
    inner: &'a InnerTypeConstraint,
    tree: &Tree,
) -> Mem<Answer>
    ensures { IfOk result (λ answer. (m : ℕ) → known answer ≡ inner_holds (meaning names.now.definitions.now (steps + m)) (shown scope.now) (shown_parent parent.entry) inner.now (shown_tree tree.now)) }
{
    match parent {
        Parent::Characters(_) => Ok(Answer::No),
        Parent::Values { head, .. } => {
            let kind = kind_of(head.ty);
            let inside = &head.scope;
            let answer = inner_at(alloc, names, steps, scope, inner, tree, inside, kind)?;
            Ok(answer)
        }
    }
}

/// Whether WITH COMPONENTS on a head of this kind, which is read in `inside`, holds of a tree; one without such parts says no.
#[cycle(judging)]
fn inner_at<'a>(
    alloc: Global,
    names: &Names<'a>,
    steps: usize,
    scope: &Scope<'a>,
    inner: &'a InnerTypeConstraint,
    tree: &Tree,
    inside: &Scope<'a>,
    kind: Kind<'a>,
) -> Mem<Answer>
    ensures { IfOk result (λ answer. (m : ℕ) → known answer ≡ inner_at (meaning names.now.definitions.now (steps + m)) (shown scope.now) inner.now (shown_tree tree.now) (shown inside.now) (shown_kind kind.entry)) }
{
    match kind {
        Kind::Struct(layer) => {
            let answer = struct_holds(alloc, names, steps, scope, inside, layer, inner, tree)?;
            Ok(answer)
        }
        Kind::Choice(options) => {
            let options = options.as_slice();
            let answer = choice_holds(alloc, names, steps, scope, inside, options, inner, tree)?;
            Ok(answer)
        }
        Kind::Null => Ok(Answer::No),
        Kind::Boolean => Ok(Answer::No),
        Kind::Integer(_) => Ok(Answer::No),
        Kind::Real => Ok(Answer::No),
        Kind::BitString(_) => Ok(Answer::No),
        Kind::OctetString => Ok(Answer::No),
        Kind::CharacterString(_) => Ok(Answer::No),
        Kind::Time => Ok(Answer::No),
        Kind::Enumerated(_) => Ok(Answer::No),
        Kind::ObjectIdentifier => Ok(Answer::No),
        Kind::Opaque => Ok(Answer::No),
        Kind::List(_) => Ok(Answer::No),
        Kind::Field(_) => Ok(Answer::No),
        Kind::Reference(_) => Ok(Answer::No),
        Kind::Selection(_) => Ok(Answer::No),
    }
}

/// Whether WITH COMPONENTS on a SEQUENCE or SET holds of a tree.
#[cycle(judging)]
#[tactic(auto, using(crate::proofs::Inner::no_struct, crate::proofs::Inner::struct_unknown, crate::proofs::Inner::struct_known))]
fn struct_holds<'a>(
    alloc: Global,
    names: &Names<'a>,
    steps: usize,
    scope: &Scope<'a>,
    inside: &Scope<'a>,
    layer: &'a SequenceOrSet,
    inner: &'a InnerTypeConstraint,
    tree: &Tree,
) -> Mem<Answer>
    ensures { IfOk result (λ answer. (m : ℕ) → known answer ≡ struct_holds (meaning names.now.definitions.now (steps + m)) (shown scope.now) ((meaning names.now.definitions.now (steps + m)).members (shown inside.now) (out-SequenceOrSet layer.now)) inner.now (shown_tree tree.now)) }
{
    match fields_of(tree) {
        None => Ok(Answer::No),
        Some(fields) => match struct_members(alloc, names, steps, inside, layer)? {
            None => Ok(Answer::Unknown),
            Some(members) => {
                let members = members.as_slice();
                let answer = members_hold(alloc, names, steps, scope, inner, fields, members)?;
                Ok(answer)
            }
        },
    }
}

/// Whether each listed member is as it is asked for, and each other one is left out.
#[cycle(judging)]
fn members_hold<'a>(
    alloc: Global,
    names: &Names<'a>,
    steps: usize,
    scope: &Scope<'a>,
    inner: &'a InnerTypeConstraint,
    fields: &[Field],
    members: &[Member<'a>],
) -> Mem<Answer>
    ensures { IfOk result (λ answer. (m : ℕ) → known answer ≡ members_hold (meaning names.now.definitions.now (steps + m)) (shown scope.now) inner.now (shown_fields fields.now) (shown_members members.now)) }
{
    let listed = listed_members_hold(alloc, names, steps, scope, inner, fields, members)?;
    let others = are_left_out(inner, fields, members);
    Ok(listed.and(others))
}

/// Whether each listed member is as it is asked for.
#[cycle(judging)]
#[tactic(auto, using(crate::proofs::Inner::listed_member_next, crate::proofs::Inner::listed_members_done))]
fn listed_members_hold<'a>(
    alloc: Global,
    names: &Names<'a>,
    steps: usize,
    scope: &Scope<'a>,
    inner: &'a InnerTypeConstraint,
    fields: &[Field],
    members: &[Member<'a>],
) -> Mem<Answer>
    ensures { IfOk result (λ answer. (m : ℕ) → known answer ≡ each (listed_member_holds (meaning names.now.definitions.now (steps + m)) (shown scope.now) inner.now.is_partial (shown_members members.now) (shown_fields fields.now)) inner.now.constraints) }
{
    let is_partial = inner.is_partial;
    let components = inner.constraints.as_slice();
    let mut answer = Answer::Yes;
    for listed in components {
        let one = listed_member_holds(
            alloc, names, steps, scope, is_partial, members, fields, listed,
        )?;
        answer = answer.and(one);
    }
    Ok(answer)
}

/// Whether a listed member is as it is asked for.
#[cycle(judging)]
#[tactic(auto, using(crate::proofs::Inner::no_member, crate::proofs::Inner::some_member))]
fn listed_member_holds<'a>(
    alloc: Global,
    names: &Names<'a>,
    steps: usize,
    scope: &Scope<'a>,
    is_partial: bool,
    members: &[Member<'a>],
    fields: &[Field],
    listed: &'a ConstrainedComponent,
) -> Mem<Answer>
    ensures { IfOk result (λ answer. (m : ℕ) → known answer ≡ listed_member_holds (meaning names.now.definitions.now (steps + m)) (shown scope.now) is_partial (shown_members members.now) (shown_fields fields.now) listed.now) }
{
    match member_named(members, listed.identifier.as_str()) {
        None => Ok(Answer::Unknown),
        Some(member) => {
            let answer = member_holds(
                alloc, names, steps, scope, is_partial, listed, fields, member,
            )?;
            Ok(answer)
        }
    }
}

/// Whether a member is present as it is asked for, and constraints on its type hold of it.
#[cycle(judging)]
#[tactic(auto, using(crate::proofs::Inner::member_missing, crate::proofs::Inner::member_there))]
fn member_holds<'a>(
    alloc: Global,
    names: &Names<'a>,
    steps: usize,
    scope: &Scope<'a>,
    is_partial: bool,
    listed: &'a ConstrainedComponent,
    fields: &[Field],
    member: &Member<'a>,
) -> Mem<Answer>
    ensures { IfOk result (λ answer. (m : ℕ) → known answer ≡ member_holds (meaning names.now.definitions.now (steps + m)) (shown scope.now) is_partial listed.now (field_named (shown_fields fields.now) listed.now.identifier) (shown_member member.now)) }
{
    match find_field(fields, listed.identifier.as_str()) {
        None => Ok(Answer::of(!must_be_present(is_partial, listed.presence, member))),
        Some(tree) => {
            let place = member.place(alloc)?;
            let allowed = Answer::of(!is_absent_word(listed.presence));
            let constraints = listed.constraints.as_slice();
            let held = part_holds(alloc, names, steps, scope, &place, constraints, tree)?;
            Ok(allowed.and(held))
        }
    }
}

/// Whether WITH COMPONENTS on a CHOICE, whose options are read in `inside`, holds of a tree.
#[cycle(judging)]
#[tactic(auto, using(crate::proofs::Inner::no_choice, crate::proofs::Inner::some_choice))]
fn choice_holds<'a>(
    alloc: Global,
    names: &Names<'a>,
    steps: usize,
    scope: &Scope<'a>,
    inside: &Scope<'a>,
    options: &'a [ChoiceOption],
    inner: &'a InnerTypeConstraint,
    tree: &Tree,
) -> Mem<Answer>
    ensures { IfOk result (λ answer. (m : ℕ) → known answer ≡ choice_holds (meaning names.now.definitions.now (steps + m)) (shown scope.now) (shown inside.now) options.now inner.now (shown_tree tree.now)) }
{
    match alternative_of(tree) {
        None => Ok(Answer::No),
        Some(alternative) => {
            let named = Answer::of(may_be_chosen(inner, alternative.name.as_str()));
            let listed = listed_options_hold(
                alloc,
                names,
                steps,
                scope,
                inside,
                options,
                alternative.name,
                alternative.tree,
                inner.constraints.as_slice(),
            )?;
            Ok(listed.and(named))
        }
    }
}

/// Whether each listed alternative is as it is asked for, where the one of this name is chosen.
#[cycle(judging)]
#[tactic(auto, using(crate::proofs::Inner::listed_option_next, crate::proofs::Inner::listed_options_done))]
fn listed_options_hold<'a>(
    alloc: Global,
    names: &Names<'a>,
    steps: usize,
    scope: &Scope<'a>,
    inside: &Scope<'a>,
    options: &'a [ChoiceOption],
    name: &Text,
    tree: &Tree,
    components: &'a [ConstrainedComponent],
) -> Mem<Answer>
    ensures { IfOk result (λ answer. (m : ℕ) → known answer ≡ each (listed_option_holds (meaning names.now.definitions.now (steps + m)) (shown scope.now) (shown inside.now) options.now name.now (shown_tree tree.now)) components.now) }
{
    let mut answer = Answer::Yes;
    for listed in components {
        let one = listed_option_holds(
            alloc, names, steps, scope, inside, options, name, tree, listed,
        )?;
        answer = answer.and(one);
    }
    Ok(answer)
}

/// Whether a listed alternative is as it is asked for.
#[cycle(judging)]
#[tactic(auto, using(crate::proofs::Inner::no_option, crate::proofs::Inner::some_option))]
fn listed_option_holds<'a>(
    alloc: Global,
    names: &Names<'a>,
    steps: usize,
    scope: &Scope<'a>,
    inside: &Scope<'a>,
    options: &'a [ChoiceOption],
    name: &Text,
    tree: &Tree,
    listed: &'a ConstrainedComponent,
) -> Mem<Answer>
    ensures { IfOk result (λ answer. (m : ℕ) → known answer ≡ listed_option_holds (meaning names.now.definitions.now (steps + m)) (shown scope.now) (shown inside.now) options.now name.now (shown_tree tree.now) listed.now) }
{
    match option_named(options, listed.identifier.as_str()) {
        None => Ok(Answer::Unknown),
        Some(option) => {
            let chosen = same_name(name, &listed.identifier);
            let answer = option_holds(
                alloc, names, steps, scope, inside, chosen, tree, listed, option,
            )?;
            Ok(answer)
        }
    }
}

/// Whether an alternative may be chosen or not as it is asked for, and constraints on its type hold of it where it is chosen.
#[cycle(judging)]
#[tactic(auto, using(crate::proofs::Inner::option_chosen, crate::proofs::Inner::option_not_chosen))]
fn option_holds<'a>(
    alloc: Global,
    names: &Names<'a>,
    steps: usize,
    scope: &Scope<'a>,
    inside: &Scope<'a>,
    chosen: bool,
    tree: &Tree,
    listed: &'a ConstrainedComponent,
    option: &'a ChoiceOption,
) -> Mem<Answer>
    ensures { IfOk result (λ answer. (m : ℕ) → known answer ≡ option_holds (meaning names.now.definitions.now (steps + m)) (shown scope.now) (shown inside.now) chosen (shown_tree tree.now) listed.now (out-ChoiceOption option.now)) }
{
    let allowed = Answer::of(is_choice_allowed(listed.presence, chosen));
    if !chosen {
        return Ok(allowed);
    }
    let place_scope = inside.copy(alloc)?;
    let place = Place {
        scope: place_scope,
        ty: TypeForm::Written(&option.ty),
    };
    let constraints = listed.constraints.as_slice();
    let held = part_holds(alloc, names, steps, scope, &place, constraints, tree)?;
    Ok(allowed.and(held))
}
