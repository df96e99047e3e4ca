//! The object set of a table constraint, where dummies become the members of their arguments (X.682 10.3, X.683 8.4).

ghost use Rattle.asn_meaning_heads.specs.Scopes.{shown, shown_argument};
ghost use Rattle.asn_meaning_heads.specs.Written.{shown_written};
ghost use Rattle.asn_link_instance.specs.Tables.{argument_members, members_bound, opened, opened_one, value_members};
ghost use Rattle.asn_meaning.specs.Answers.{once};
ghost use Rattle.asn_meaning.specs.Written.{as_written};
ghost use Rattle.asn_link_values.specs.Sets.{shown_set_member};
ghost use Rattle.asn_link_values.specs.inner.Binding.{arc_name, argument_bound, depth, name_in_braces};
ghost use Rattle.asn_tree.specs.declared.constraints.Parameter.{out-Parameter};
ghost use Rattle.std.specs.Option.{option_copied, option_map};
ghost use Rattle.std.specs.Prelude.{◌≡◌, ◌<◌, ◌++◌, ◌∷◌, [], IfOk, IfSome, None, Some, length, map, take};

use asn_meaning_heads::{Argument, Scope, Written, as_written};
use asn_memory::{List, Mem, Text};
use asn_tree::{
    ASN1Value, InformationObjectFields, ObjectIdentifierArc, ObjectSet, ObjectSetValue, Parameter,
};
use std::alloc::Global;

/// A member of an object set.
#[derive(Clone, Copy)]
pub enum SetMember<'a> {
    /// The name of an object or an object set.
    Reference(&'a Text),
    Inline(&'a InformationObjectFields),
}

/// The members with one more at the end.
///
/// Err: want of memory.
#[tactic(auto, using(crate::proofs::Opening::one_more))]
fn with_member<'a>(members: List<SetMember<'a>>, member: SetMember<'a>) -> Mem<List<SetMember<'a>>>
    ensures { IfOk result (λ more. map shown_set_member more ≡ map shown_set_member members.entry ++ shown_set_member member.entry ∷ []) }
{
    let mut members = members;
    members.add(member)?;
    Ok(members)
}

/// The argument that the scope binds the name to; the scope that it is read in is less deep.
#[tactic(auto, using(crate::proofs::Opening::bound_not, crate::proofs::Opening::bound_open, crate::proofs::Opening::bound_so, crate::proofs::Opening::bound_deeper))]
fn argument_bound<'s, 'a>(scope: &'s Scope<'a>, name: &str) -> Option<Argument<'s, 'a>>
    ensures value { option_map shown_argument result ≡ argument_bound (shown scope.now) name.now }
    ensures within { IfSome result (λ a. depth (shown a.scope.now) < depth (shown scope.now)) }
{
    match scope.bound_to(name) {
        None => None,
        Some(bound) => match bound.argument {
            None => None,
            Some(argument) => Some(argument),
        },
    }
}

/// The name of a single arc.
fn arc_name<'a>(arcs: &'a [ObjectIdentifierArc]) -> Option<&'a Text>
    ensures { option_copied result ≡ arc_name arcs.now }
{
    match arcs {
        [] => None,
        [arc] => arc.name.as_ref(),
        [_, _, ..] => None,
    }
}

/// The name in braces, which was read as an object identifier.
fn name_in_braces<'a>(written: Written<'a>) -> Option<&'a Text>
    ensures { option_copied result ≡ name_in_braces (shown_written written.entry) }
{
    match written {
        Written::Arcs(arcs) => arc_name(arcs.as_slice()),
        Written::All => None,
        Written::Null => None,
        Written::Truth(_) => None,
        Written::Number(_) => None,
        Written::Real(_) => None,
        Written::Text(_) => None,
        Written::Bits(_) => None,
        Written::BitNames(_) => None,
        Written::Octets(_) => None,
        Written::Item(_) => None,
        Written::Name { .. } => None,
        Written::Braces(_) => None,
        Written::Fields(_) => None,
        Written::Elements(_) => None,
        Written::Alternative { .. } => None,
        Written::Nested(_) => None,
    }
}

/// What was found before, and behind it what a reference stands for: the members of a dummy's argument, in the argument's scope;
/// another name stays.
///
/// Err: want of memory.
#[cycle(opening)]
#[tactic(auto, using(crate::proofs::Opening::named, crate::proofs::Opening::opens))]
fn members_bound<'a>(
    scope: &Scope<'a>,
    name: &'a Text,
    found: List<SetMember<'a>>,
) -> Mem<List<SetMember<'a>>>
    ensures { IfOk result (λ more. map shown_set_member more ≡ map shown_set_member found.entry ++ members_bound (shown scope.now) name.now) }
{
    match argument_bound(scope, name.as_str()) {
        None => {
            let more = with_member(found, SetMember::Reference(name))?;
            Ok(more)
        }
        Some(argument) => {
            let more = argument_members(argument.scope, argument.tree, found)?;
            Ok(more)
        }
    }
}

/// What was found before, and behind it the members that a value in braces names.
///
/// Err: want of memory.
#[cycle(opening)]
#[tactic(auto, using(crate::proofs::Opening::no_name, crate::proofs::Opening::one_name))]
fn value_members<'a>(
    scope: &Scope<'a>,
    value: &'a ASN1Value,
    found: List<SetMember<'a>>,
) -> Mem<List<SetMember<'a>>>
    ensures { IfOk result (λ more. map shown_set_member more ≡ map shown_set_member found.entry ++ value_members (members_bound (shown scope.now)) (as_written value.now)) }
{
    match name_in_braces(as_written(value)) {
        None => Ok(found),
        Some(name) => {
            let more = members_bound(scope, name, found)?;
            Ok(more)
        }
    }
}

/// What was found before, and behind it the members of a set argument.
///
/// Err: want of memory.
#[cycle(opening)]
#[tactic(auto, using(crate::proofs::Opening::nothing_more))]
fn argument_members<'a>(
    scope: &Scope<'a>,
    argument: &'a Parameter,
    found: List<SetMember<'a>>,
) -> Mem<List<SetMember<'a>>>
    ensures { IfOk result (λ more. map shown_set_member more ≡ map shown_set_member found.entry ++ argument_members (members_bound (shown scope.now)) (out-Parameter argument.now)) }
{
    match argument {
        Parameter::ObjectSetParameter(set) => {
            let more = opened(scope, set.values.as_slice(), found)?;
            Ok(more)
        }
        Parameter::ValueParameter(value) => {
            let more = value_members(scope, value, found)?;
            Ok(more)
        }
        Parameter::TypeParameter(_) => Ok(found),
        Parameter::InformationObjectParameter(_) => Ok(found),
    }
}

/// What was found before, and behind it a member of a set, or the members that it stands for.
///
/// Err: want of memory.
#[cycle(opening)]
fn opened_one<'a>(
    scope: &Scope<'a>,
    member: &'a ObjectSetValue,
    found: List<SetMember<'a>>,
) -> Mem<List<SetMember<'a>>>
    ensures { IfOk result (λ more. map shown_set_member more ≡ map shown_set_member found.entry ++ opened_one (members_bound (shown scope.now)) member.now) }
{
    match member {
        ObjectSetValue::Reference(name) => {
            let more = members_bound(scope, name, found)?;
            Ok(more)
        }
        ObjectSetValue::Inline(fields) => {
            let more = with_member(found, SetMember::Inline(fields))?;
            Ok(more)
        }
    }
}

/// What was found before, and behind it each member of a set as what it stands for, in order.
///
/// Err: want of memory.
#[cycle(opening)]
#[tactic(auto, using(crate::proofs::Opening::member_next, crate::proofs::Opening::members_done))]
fn opened<'a>(
    scope: &Scope<'a>,
    members: &'a [ObjectSetValue],
    found: List<SetMember<'a>>,
) -> Mem<List<SetMember<'a>>>
    ensures { IfOk result (λ more. map shown_set_member more ≡ map shown_set_member found.entry ++ opened (members_bound (shown scope.now)) members.now) }
{
    let mut found = found;
    for member in members {
        found = opened_one(scope, member, found)?;
    }
    Ok(found)
}

/// The members of a set in order: each name that is a dummy as the members of its argument; another name stays.
///
/// Err: want of memory.
pub fn set_members<'a>(
    alloc: Global,
    scope: &Scope<'a>,
    members: &'a [ObjectSetValue],
) -> Mem<List<SetMember<'a>>>
    ensures { IfOk result (λ found. map shown_set_member found ≡ opened (members_bound (shown scope.now)) members.now) }
{
    let found = opened(scope, members, List::new(alloc))?;
    Ok(found)
}

/// The first members, so many; all where there are no more.
fn first(members: &[ObjectSetValue], number: usize) -> &[ObjectSetValue]
    ensures { result.now ≡ take number members.now }
{
    if members.len() <= number {
        members
    } else {
        &members[..number]
    }
}

/// How many members a set has, once dummies are the members of their arguments.
///
/// Err: want of memory.
#[tactic(auto, using(crate::proofs::Opening::as_many))]
fn member_count<'a>(alloc: Global, scope: &Scope<'a>, members: &'a [ObjectSetValue]) -> Mem<usize>
    ensures { IfOk result (λ count. count ≡ length (opened (members_bound (shown scope.now)) members.now)) }
{
    let found = set_members(alloc, scope, members)?;
    Ok(found.len())
}

/// How many members stand before the marker of a set, where it has one, once dummies are the members of their arguments.
///
/// Err: want of memory.
pub fn set_marker<'a>(alloc: Global, scope: &Scope<'a>, set: &'a ObjectSet) -> Mem<Option<usize>>
    ensures { IfOk result (λ marker. marker ≡ once None set.now.extensible (λ number. Some (length (opened (members_bound (shown scope.now)) (take number set.now.values))))) }
{
    match set.extensible {
        None => Ok(None),
        Some(number) => {
            let count = member_count(alloc, scope, first(set.values.as_slice(), number))?;
            Ok(Some(count))
        }
    }
}
