//! The members of a SEQUENCE or SET, with those that COMPONENTS OF puts in at their places (X.680 25.5).

ghost use Rattle.asn_meaning_shapes.specs.Members.{shown_member, shown_members};
ghost use Rattle.asn_meaning_heads.specs.Places.{shown_place};
ghost use Rattle.asn_meaning_heads.specs.Scopes.{shown};
ghost use Rattle.asn_meaning_heads.specs.Spans.{further};
ghost use Rattle.asn_meaning.specs.Judge.{meaning};
ghost use Rattle.asn_meaning.specs.Members.{components_of, is_addition_at, members_at, members_of, moved, put_in, root_members, written_member};
ghost use Rattle.asn_tree.specs.declared.types.SequenceOrSet.{out-SequenceOrSet};
ghost use Rattle.std.specs.Option.{option_map};
ghost use Rattle.std.specs.Prelude.{◌≡◌, ◌<◌, ◌+◌, ◌++◌, ◌∷◌, [], ℕ, get_or, if◌then◌else◌, length, nat_eq, IfOk, Some, map};

use crate::members::Member;
use asn_meaning_heads::{Kind, Place, Scope, Span, head_named_over, kind_of};
use asn_memory::{List, Mem, OutOfMemory, Text};
use asn_names_index::Names;
use asn_tree::{SequenceOrSet, SequenceOrSetMember};
use std::alloc::Global;

/// The members with one more at the end.
///
/// Err: want of memory.
#[tactic(auto, using(crate::proofs::Putting::one_more))]
fn with_member<'a>(members: List<Member<'a>>, member: Member<'a>) -> Mem<List<Member<'a>>>
    ensures { IfOk result (λ more. shown_members more ≡ shown_members members.entry ++ shown_member member.entry ∷ []) }
{
    let mut members = members;
    members.add(member)?;
    Ok(members)
}

/// The members of both lists in order.
///
/// Err: want of memory.
#[tactic(auto, using(crate::proofs::Putting::all_of_both))]
fn joined<'a>(members: List<Member<'a>>, others: List<Member<'a>>) -> Mem<List<Member<'a>>>
    ensures { IfOk result (λ all. shown_members all ≡ shown_members members.entry ++ shown_members others.entry) }
{
    let mut members = members;
    members.append(others)?;
    Ok(members)
}

/// Whether the member of this number stands behind the extension marker (X.680 25.1).
pub fn is_addition_at(marker: Option<usize>, number: usize) -> bool
    ensures { result ≡ is_addition_at marker number }
{
    match marker {
        None => false,
        Some(marker) => marker <= number,
    }
}

/// A member as it is written.
///
/// Err: want of memory.
fn written_member<'a>(
    alloc: Global,
    scope: &Scope<'a>,
    marker: Option<usize>,
    number: usize,
    member: &'a SequenceOrSetMember,
) -> Mem<Member<'a>>
    ensures { IfOk result (λ m. shown_member m ≡ written_member (shown scope.now) marker number member.now) }
{
    let scope = scope.copy(alloc)?;
    let is_addition = is_addition_at(marker, number);
    Ok(Member {
        scope,
        written: member,
        is_addition,
    })
}

/// The member as one of the additions or of the root.
///
/// Err: want of memory.
fn moved<'a>(alloc: Global, among: bool, member: &Member<'a>) -> Mem<Member<'a>>
    ensures { IfOk result (λ m. shown_member m ≡ moved among (shown_member member.now)) }
{
    let scope = member.scope.copy(alloc)?;
    Ok(Member {
        scope,
        written: member.written,
        is_addition: among,
    })
}

/// The root members, which come to stand among the additions or not.
///
/// Err: want of memory.
#[tactic(auto, using(crate::proofs::Putting::root_passed, crate::proofs::Putting::root_taken, crate::proofs::Putting::roots_done))]
fn moved_roots<'a>(alloc: Global, among: bool, members: &[Member<'a>]) -> Mem<List<Member<'a>>>
    ensures { IfOk result (λ roots. shown_members roots ≡ map (moved among) (root_members (shown_members members.now))) }
{
    let mut roots = List::new(alloc);
    for member in members {
        if !member.is_addition {
            let root = moved(alloc, among, member)?;
            roots = with_member(roots, root)?;
        }
    }
    Ok(roots)
}

/// The members of a SEQUENCE or SET: the written ones, with the root members of each COMPONENTS OF at its place (X.680 25.5).
/// They are found within these steps, and stay the same within more.
///
/// None: a name leads nowhere, or to a type of another kind, however many steps there are; or, over these steps alone, they are used up.
/// Err: want of memory, over further steps also where these are used up.
#[cycle(membering)]
#[tactic(auto, using(crate::proofs::Putting::members_at_more, crate::proofs::Putting::no_members))]
pub fn struct_members_over<'a>(
    alloc: Global,
    names: &Names<'a>,
    span: Span,
    steps: usize,
    scope: &Scope<'a>,
    layer: &'a SequenceOrSet,
) -> Mem<Option<List<Member<'a>>>>
    ensures { IfOk result (λ found. (m : ℕ) → option_map shown_members found ≡ (meaning names.now.definitions.now (steps + further span m)).members (shown scope.now) (out-SequenceOrSet layer.now)) }
{
    if steps == 0 {
        return match span {
            Span::Further => Err(OutOfMemory),
            Span::These => Ok(None),
        };
    }
    let found = members_at(alloc, names, span, steps - 1, scope, layer)?;
    Ok(found)
}

/// The members, where what is known of names and of other members is known within these steps.
#[cycle(membering)]
#[tactic(auto, using(crate::proofs::Putting::members_begin, crate::proofs::Putting::member_lost, crate::proofs::Putting::member_next, crate::proofs::Putting::members_lost, crate::proofs::Putting::members_done))]
fn members_at<'a>(
    alloc: Global,
    names: &Names<'a>,
    span: Span,
    steps: usize,
    scope: &Scope<'a>,
    layer: &'a SequenceOrSet,
) -> Mem<Option<List<Member<'a>>>>
    ensures { IfOk result (λ found. (m : ℕ) → option_map shown_members found ≡ members_at (meaning names.now.definitions.now (steps + further span m)) (shown scope.now) (out-SequenceOrSet layer.now)) }
{
    let mut members = List::new(alloc);
    for number in 0..layer.members.len() {
        match put_in(alloc, names, span, steps, scope, layer, number)? {
            None => return Ok(None),
            Some(others) => {
                members = joined(members, others)?;
                let written = &layer.members.as_slice()[number];
                let member = written_member(alloc, scope, layer.extensible, number, written)?;
                members = with_member(members, member)?;
            }
        }
    }
    match put_in(alloc, names, span, steps, scope, layer, layer.members.len())? {
        None => Ok(None),
        Some(others) => {
            let all = joined(members, others)?;
            Ok(Some(all))
        }
    }
}

/// The place of this number.
fn place_at(places: &[(usize, bool)], number: usize) -> (usize, bool)
    requires { number < length places.now }
    ensures { result ≡ get_or places.now number result }
{
    places[number]
}

/// What the names after COMPONENTS OF put in that stand behind so many members.
#[cycle(membering)]
#[tactic(auto, using(crate::proofs::Putting::put_begin, crate::proofs::Putting::put_lost, crate::proofs::Putting::put_next, crate::proofs::Putting::put_done))]
fn put_in<'a>(
    alloc: Global,
    names: &Names<'a>,
    span: Span,
    steps: usize,
    scope: &Scope<'a>,
    layer: &'a SequenceOrSet,
    number: usize,
) -> Mem<Option<List<Member<'a>>>>
    ensures { IfOk result (λ found. (m : ℕ) → option_map shown_members found ≡ put_in (meaning names.now.definitions.now (steps + further span m)) (shown scope.now) number (out-SequenceOrSet layer.now).components_of (out-SequenceOrSet layer.now).components_at) }
{
    let included = layer.components_of.as_slice();
    let places = layer.components_at.as_slice();
    let mut members = List::new(alloc);
    for i in 0..included.len() {
        if i >= places.len() {
            return Ok(Some(members));
        }
        let at = place_at(places, i);
        match put_at(alloc, names, span, steps, scope, &included[i], at, number)? {
            None => return Ok(None),
            Some(others) => {
                let all = joined(members, others)?;
                members = all;
            }
        }
    }
    Ok(Some(members))
}

/// What a name after COMPONENTS OF puts in behind so many members, where it stands behind `at.0` of them.
#[cycle(membering)]
fn put_at<'a>(
    alloc: Global,
    names: &Names<'a>,
    span: Span,
    steps: usize,
    scope: &Scope<'a>,
    name: &'a Text,
    at: (usize, bool),
    number: usize,
) -> Mem<Option<List<Member<'a>>>>
    ensures { IfOk result (λ found. (m : ℕ) → option_map shown_members found ≡ (if nat_eq at.0 number then components_of (meaning names.now.definitions.now (steps + further span m)) (shown scope.now) at.1 name.now else Some [])) }
{
    if at.0 == number {
        let found = components_of(alloc, names, span, steps, scope, at.1, name)?;
        Ok(found)
    } else {
        Ok(Some(List::new(alloc)))
    }
}

/// The root members of the SEQUENCE or SET that a name stands for, which come to stand among the additions or not
/// (X.680 25.5).
#[cycle(membering)]
#[tactic(auto, using(crate::proofs::Putting::components_headless, crate::proofs::Putting::components_of_none, crate::proofs::Putting::components_found))]
fn components_of<'a>(
    alloc: Global,
    names: &Names<'a>,
    span: Span,
    steps: usize,
    scope: &Scope<'a>,
    among: bool,
    name: &'a Text,
) -> Mem<Option<List<Member<'a>>>>
    ensures { IfOk result (λ found. (m : ℕ) → option_map shown_members found ≡ components_of (meaning names.now.definitions.now (steps + further span m)) (shown scope.now) among name.now) }
{
    match head_named_over(alloc, names, span, steps, scope, name)? {
        None => Ok(None),
        Some(head) => match members_over(alloc, names, span, steps, &head)? {
            None => Ok(None),
            Some(members) => {
                let roots = moved_roots(alloc, among, members.as_slice())?;
                Ok(Some(roots))
            }
        },
    }
}

/// The members of a head that is a SEQUENCE or SET.
///
/// None and Err: as `struct_members`; None for a head of another kind too.
#[cycle(membering)]
pub fn members_over<'a>(
    alloc: Global,
    names: &Names<'a>,
    span: Span,
    steps: usize,
    head: &Place<'a>,
) -> Mem<Option<List<Member<'a>>>>
    ensures { IfOk result (λ found. (m : ℕ) → option_map shown_members found ≡ members_of (meaning names.now.definitions.now (steps + further span m)) (shown_place head.now)) }
{
    match kind_of(head.ty) {
        Kind::Struct(layer) => {
            let found = struct_members_over(alloc, names, span, steps, &head.scope, layer)?;
            Ok(found)
        }
        Kind::Null => Ok(None),
        Kind::Boolean => Ok(None),
        Kind::Integer(_) => Ok(None),
        Kind::Real => Ok(None),
        Kind::BitString(_) => Ok(None),
        Kind::OctetString => Ok(None),
        Kind::CharacterString(_) => Ok(None),
        Kind::Time => Ok(None),
        Kind::Enumerated(_) => Ok(None),
        Kind::ObjectIdentifier => Ok(None),
        Kind::Opaque => Ok(None),
        Kind::List(_) => Ok(None),
        Kind::Choice(_) => Ok(None),
        Kind::Field(_) => Ok(None),
        Kind::Reference(_) => Ok(None),
        Kind::Selection(_) => Ok(None),
    }
}
