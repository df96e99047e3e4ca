//! Shape: which trees fit a type's kind at every depth, constraints and character sets aside.

ghost use Rattle.asn_meaning_heads.specs.Kinds.{shown_kind};
ghost use Rattle.asn_meaning_heads.specs.Places.{shown_place};
ghost use Rattle.asn_meaning_heads.specs.Scopes.{shown};
ghost use Rattle.asn_meaning_heads.specs.Spans.{further};
ghost use Rattle.asn_meaning_shapes.specs.Answers.{known};
ghost use Rattle.asn_meaning_shapes.specs.inner.Fitting.{member_fits, option_fits, type_fits};
ghost use Rattle.asn_meaning_shapes.specs.Members.{shown_member, shown_members};
ghost use Rattle.asn_meaning_shapes.specs.Trees.{shown_fields, shown_tree, shown_trees};
ghost use Rattle.asn_meaning.specs.Answers.{each};
ghost use Rattle.asn_meaning.specs.Judge.{meaning};
ghost use Rattle.asn_meaning.specs.Shapes.{choice_judged, fields_judged, fits_at, head_fits, list_judged, member_judged, parts_fit, struct_judged, trees_judged};
ghost use Rattle.asn_meaning.specs.ValueTrees.{field_named};
ghost use Rattle.asn_tree.specs.declared.types.SequenceOrSet.{out-SequenceOrSet};
ghost use Rattle.std.specs.Prelude.{◌≡◌, IfOk, ℕ, ◌+◌};

use crate::answers::Answer;
use crate::by_name::{FieldsByName, MembersByName};
use crate::components::struct_members_over;
use crate::members::Member;
use crate::parts::{alternative_of, elements_of, fields_of, is_of_kind};
use crate::trees::{Field, Tree};
use asn_meaning_heads::{Kind, Place, Scope, Span, TypeForm, head_over, kind_of, option_named};
use asn_memory::{Mem, OutOfMemory};
use asn_names_index::Names;
use asn_tree::{ASN1Type, ChoiceOption, SequenceOrSet};
use std::alloc::Global;

/// Whether a tree fits a type. It is found within these steps, and stays the same within more.
///
/// Unknown: a name leads nowhere, or to a type of another kind, however many steps there are; or, over these steps alone, they are used
/// up. Err: want of memory, over further steps also where these are used up.
#[cycle(fitting)]
#[tactic(auto, using(crate::proofs::Judging::fits_at_more, crate::proofs::Judging::fits_not))]
pub fn fits_over<'a>(
    alloc: Global,
    names: &Names<'a>,
    span: Span,
    steps: usize,
    place: &Place<'a>,
    tree: &Tree,
) -> Mem<Answer>
    ensures { IfOk result (λ answer. (m : ℕ) → known answer ≡ (meaning names.now.definitions.now (steps + further span m)).fits (shown_place place.now) (shown_tree tree.now)) }
{
    if steps == 0 {
        return match span {
            Span::Further => Err(OutOfMemory),
            Span::These => Ok(Answer::Unknown),
        };
    }
    let answer = fits_at(alloc, names, span, steps - 1, place, tree)?;
    Ok(answer)
}

/// Whether a tree fits a type, by the type's head.
#[cycle(fitting)]
#[tactic(auto, using(crate::proofs::Judging::headless, crate::proofs::Judging::headed))]
fn fits_at<'a>(
    alloc: Global,
    names: &Names<'a>,
    span: Span,
    steps: usize,
    place: &Place<'a>,
    tree: &Tree,
) -> Mem<Answer>
    ensures { IfOk result (λ answer. (m : ℕ) → known answer ≡ fits_at (meaning names.now.definitions.now (steps + further span m)) (shown_place place.now) (shown_tree tree.now)) }
{
    match head_over(alloc, names, span, steps, place)? {
        None => Ok(Answer::Unknown),
        Some(found) => {
            let answer = head_fits(alloc, names, span, steps, &found, tree)?;
            Ok(answer)
        }
    }
}

/// Whether a tree fits a head.
#[cycle(fitting)]
#[tactic(auto, using(crate::proofs::Judging::of_kind, crate::proofs::Judging::of_parts))]
fn head_fits<'a>(
    alloc: Global,
    names: &Names<'a>,
    span: Span,
    steps: usize,
    place: &Place<'a>,
    tree: &Tree,
) -> Mem<Answer>
    ensures { IfOk result (λ answer. (m : ℕ) → known answer ≡ head_fits (meaning names.now.definitions.now (steps + further span m)) (shown_tree tree.now) (shown_place place.now)) }
{
    let kind = kind_of(place.ty);
    match is_of_kind(kind, tree) {
        Some(fits) => Ok(Answer::of(fits)),
        None => {
            let answer = parts_fit(alloc, names, span, steps, &place.scope, kind, tree)?;
            Ok(answer)
        }
    }
}

/// Whether each part of a tree fits its type.
#[cycle(fitting)]
fn parts_fit<'a>(
    alloc: Global,
    names: &Names<'a>,
    span: Span,
    steps: usize,
    scope: &Scope<'a>,
    kind: Kind<'a>,
    tree: &Tree,
) -> Mem<Answer>
    ensures { IfOk result (λ answer. (m : ℕ) → known answer ≡ parts_fit (meaning names.now.definitions.now (steps + further span m)) (shown scope.now) (shown_tree tree.now) (shown_kind kind.entry)) }
{
    match kind {
        Kind::Struct(layer) => {
            let answer = struct_fits(alloc, names, span, steps, scope, layer, tree)?;
            Ok(answer)
        }
        Kind::List(ty) => {
            let answer = list_fits(alloc, names, span, steps, scope, ty, tree)?;
            Ok(answer)
        }
        Kind::Choice(options) => {
            let options = options.as_slice();
            let answer = choice_fits(alloc, names, span, steps, scope, options, tree)?;
            Ok(answer)
        }
        Kind::Null => Ok(Answer::Unknown),
        Kind::Boolean => Ok(Answer::Unknown),
        Kind::Integer(_) => Ok(Answer::Unknown),
        Kind::Real => Ok(Answer::Unknown),
        Kind::BitString(_) => Ok(Answer::Unknown),
        Kind::OctetString => Ok(Answer::Unknown),
        Kind::CharacterString(_) => Ok(Answer::Unknown),
        Kind::Time => Ok(Answer::Unknown),
        Kind::Enumerated(_) => Ok(Answer::Unknown),
        Kind::ObjectIdentifier => Ok(Answer::Unknown),
        Kind::Opaque => Ok(Answer::Unknown),
        Kind::Field(_) => Ok(Answer::Unknown),
        Kind::Reference(_) => Ok(Answer::Unknown),
        Kind::Selection(_) => Ok(Answer::Unknown),
    }
}

/// Whether a tree fits a SEQUENCE or SET (X.680 25, 27).
#[cycle(fitting)]
#[tactic(auto, using(crate::proofs::Judging::no_struct, crate::proofs::Judging::struct_unknown, crate::proofs::Judging::struct_known))]
fn struct_fits<'a>(
    alloc: Global,
    names: &Names<'a>,
    span: Span,
    steps: usize,
    scope: &Scope<'a>,
    layer: &'a SequenceOrSet,
    tree: &Tree,
) -> Mem<Answer>
    ensures { IfOk result (λ answer. (m : ℕ) → known answer ≡ struct_judged (member_fits (meaning names.now.definitions.now (steps + further span m))) ((meaning names.now.definitions.now (steps + further span m)).members (shown scope.now) (out-SequenceOrSet layer.now)) (shown_tree tree.now)) }
{
    match fields_of(tree) {
        None => Ok(Answer::No),
        Some(fields) => match struct_members_over(alloc, names, span, steps, scope, layer)? {
            None => Ok(Answer::Unknown),
            Some(members) => {
                let members = members.as_slice();
                let answer = fields_fit(alloc, names, span, steps, members, fields)?;
                Ok(answer)
            }
        },
    }
}

/// Whether each field is a member's, each member that is present fits, and each that is absent may be.
#[cycle(fitting)]
fn fields_fit<'a>(
    alloc: Global,
    names: &Names<'a>,
    span: Span,
    steps: usize,
    members: &[Member<'a>],
    fields: &[Field],
) -> Mem<Answer>
    ensures { IfOk result (λ answer. (m : ℕ) → known answer ≡ fields_judged (member_fits (meaning names.now.definitions.now (steps + further span m))) (shown_fields fields.now) (shown_members members.now)) }
{
    let members_by_name = MembersByName::new(alloc, members)?;
    let named = Answer::of(members_by_name.has_members_for(fields));
    let fields_by_name = FieldsByName::new(alloc, fields)?;
    let answer = members_fit(alloc, names, span, steps, members, &fields_by_name)?;
    Ok(named.and(answer))
}

/// Whether each member that is present fits, and each that is absent may be.
#[cycle(fitting)]
#[tactic(auto, using(crate::proofs::Judging::member_next, crate::proofs::Judging::members_done))]
fn members_fit<'a>(
    alloc: Global,
    names: &Names<'a>,
    span: Span,
    steps: usize,
    members: &[Member<'a>],
    fields: &FieldsByName<'_>,
) -> Mem<Answer>
    ensures { IfOk result (λ answer. (m : ℕ) → known answer ≡ each (λ member. member_judged (member_fits (meaning names.now.definitions.now (steps + further span m))) member (field_named (shown_fields fields.now.fields.now) member.written.name)) (shown_members members.now)) }
{
    let mut answer = Answer::Yes;
    for member in members {
        let one = member_fits(alloc, names, span, steps, member, fields)?;
        answer = answer.and(one);
    }
    Ok(answer)
}

/// Whether the member's field fits, or may be absent where there is none.
#[cycle(fitting)]
fn member_fits<'a>(
    alloc: Global,
    names: &Names<'a>,
    span: Span,
    steps: usize,
    member: &Member<'a>,
    fields: &FieldsByName<'_>,
) -> Mem<Answer>
    ensures { IfOk result (λ answer. (m : ℕ) → known answer ≡ member_judged (member_fits (meaning names.now.definitions.now (steps + further span m))) (shown_member member.now) (field_named (shown_fields fields.now.fields.now) (shown_member member.now).written.name)) }
{
    match fields.tree(member.written.name.as_str()) {
        None => Ok(Answer::of(member.may_be_absent())),
        Some(tree) => {
            let place = member.place(alloc)?;
            let answer = fits_over(alloc, names, span, steps, &place, tree)?;
            Ok(answer)
        }
    }
}

/// Whether a tree is a list, each element of which fits the type (X.680 26, 28).
#[cycle(fitting)]
#[tactic(auto, using(crate::proofs::Judging::no_list, crate::proofs::Judging::list_known))]
fn list_fits<'a>(
    alloc: Global,
    names: &Names<'a>,
    span: Span,
    steps: usize,
    scope: &Scope<'a>,
    ty: &'a ASN1Type,
    tree: &Tree,
) -> Mem<Answer>
    ensures { IfOk result (λ answer. (m : ℕ) → known answer ≡ list_judged (type_fits (meaning names.now.definitions.now (steps + further span m)) (shown scope.now) ty.now) (shown_tree tree.now)) }
{
    match elements_of(tree) {
        None => Ok(Answer::No),
        Some(elements) => {
            let scope = scope.copy(alloc)?;
            let place = Place {
                scope,
                ty: TypeForm::Written(ty),
            };
            let answer = elements_fit(alloc, names, span, steps, &place, elements)?;
            Ok(answer)
        }
    }
}

/// Whether each tree fits the type.
#[cycle(fitting)]
#[tactic(auto, using(crate::proofs::Judging::element_next, crate::proofs::Judging::elements_done))]
fn elements_fit<'a>(
    alloc: Global,
    names: &Names<'a>,
    span: Span,
    steps: usize,
    place: &Place<'a>,
    elements: &[Tree],
) -> Mem<Answer>
    ensures { IfOk result (λ answer. (m : ℕ) → known answer ≡ trees_judged ((meaning names.now.definitions.now (steps + further span m)).fits (shown_place place.now)) (shown_trees elements.now)) }
{
    let mut answer = Answer::Yes;
    for element in elements {
        let one = fits_over(alloc, names, span, steps, place, element)?;
        answer = answer.and(one);
    }
    Ok(answer)
}

/// Whether a tree is an alternative that an option names, and fits the option's type (X.680 29).
#[cycle(fitting)]
#[tactic(auto, using(crate::proofs::Judging::no_choice, crate::proofs::Judging::no_option, crate::proofs::Judging::option_known))]
fn choice_fits<'a>(
    alloc: Global,
    names: &Names<'a>,
    span: Span,
    steps: usize,
    scope: &Scope<'a>,
    options: &'a [ChoiceOption],
    tree: &Tree,
) -> Mem<Answer>
    ensures { IfOk result (λ answer. (m : ℕ) → known answer ≡ choice_judged (option_fits (meaning names.now.definitions.now (steps + further span m)) (shown scope.now)) options.now (shown_tree tree.now)) }
{
    match alternative_of(tree) {
        None => Ok(Answer::No),
        Some(alternative) => match option_named(options, alternative.name.as_str()) {
            None => Ok(Answer::No),
            Some(option) => {
                let scope = scope.copy(alloc)?;
                let place = Place {
                    scope,
                    ty: TypeForm::Written(&option.ty),
                };
                let answer = fits_over(alloc, names, span, steps, &place, alternative.tree)?;
                Ok(answer)
            }
        },
    }
}
