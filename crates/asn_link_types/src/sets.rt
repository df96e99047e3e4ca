//! The table constraint with the object set that the bindings give.

ghost use Rattle.asn_meaning_heads.specs.Scopes.{shown};
ghost use Rattle.asn_link_instance.specs.Tables.{members_bound, opened, table_bound, table_opened};
ghost use Rattle.asn_link_types.specs.inner.Made.{table_made};
ghost use Rattle.asn_link_values.specs.Sets.{shown_set_member};
ghost use Rattle.std.specs.Prelude.{◌≡◌, IfOk, map};

use asn_copy_linked::{
    copy_information_object_fields, copy_object_set, copy_relational_constraint, copy_text,
};
use asn_link_values::{SetMember, is_outside, set_marker, set_members};
use asn_meaning_heads::Scope;
use asn_memory::{List, Mem};
use asn_tree::{Constraint, ObjectSet, ObjectSetValue, RelationalConstraint, TableConstraint};
use std::alloc::Global;

/// A copy of a member of a set.
///
/// Err: want of memory.
fn copied_member(alloc: Global, member: SetMember<'_>) -> Mem<ObjectSetValue>
    ensures { IfOk result (λ copy. copy ≡ shown_set_member member.entry) }
{
    match member {
        SetMember::Reference(name) => {
            let copy = copy_text(alloc, name)?;
            Ok(ObjectSetValue::Reference(copy))
        }
        SetMember::Inline(fields) => {
            let copy = copy_information_object_fields(alloc, fields)?;
            Ok(ObjectSetValue::Inline(copy))
        }
    }
}

/// Copies of the members of a set, in order.
///
/// Err: want of memory.
fn copied_members(alloc: Global, members: &[SetMember<'_>]) -> Mem<List<ObjectSetValue>>
    ensures { IfOk result (λ copies. copies ≡ map shown_set_member members.now) }
{
    let mut copies = List::new(alloc);
    for member in members {
        let copy = copied_member(alloc, *member)?;
        copies.add(copy)?;
    }
    Ok(copies)
}

/// The object set of a table, where each dummy is the members of its argument.
///
/// Err: want of memory.
fn bound_members<'a>(
    alloc: Global,
    scope: &Scope<'a>,
    members: &'a [ObjectSetValue],
) -> Mem<List<ObjectSetValue>>
    ensures { IfOk result (λ copies. copies ≡ opened (members_bound (shown scope.now)) members.now) }
{
    let found = set_members(alloc, scope, members)?;
    let copies = copied_members(alloc, found.as_slice())?;
    Ok(copies)
}

/// Copies of the names after `@`.
///
/// Err: want of memory.
fn copied_names(
    alloc: Global,
    names: &List<RelationalConstraint>,
) -> Mem<List<RelationalConstraint>>
    ensures { IfOk result (λ copies. copies ≡ names.now) }
{
    let mut copies = List::new(alloc);
    for name in names.as_slice() {
        let copy = copy_relational_constraint(alloc, name)?;
        copies.add(copy)?;
    }
    Ok(copies)
}

/// A table constraint with the set that the bindings of the scope give, as a list.
///
/// Err: want of memory.
fn opened_table<'a>(
    alloc: Global,
    scope: &Scope<'a>,
    table: &'a TableConstraint,
) -> Mem<List<Constraint>>
    ensures { IfOk result (λ made. made ≡ table_made (table_opened (shown scope.now) table.now)) }
{
    let extensible = set_marker(alloc, scope, &table.object_set)?;
    let linked_fields = copied_names(alloc, &table.linked_fields)?;
    let values = bound_members(alloc, scope, table.object_set.values.as_slice())?;
    let made = List::of(
        alloc,
        Constraint::TableConstraint(TableConstraint {
            object_set: ObjectSet { values, extensible },
            linked_fields,
        }),
    )?;
    Ok(made)
}

/// A table constraint as it stands, as a list.
///
/// Err: want of memory.
fn copied_table(alloc: Global, table: &TableConstraint) -> Mem<List<Constraint>>
    ensures { IfOk result (λ made. made ≡ table_made table.now) }
{
    let object_set = copy_object_set(alloc, &table.object_set)?;
    let linked_fields = copied_names(alloc, &table.linked_fields)?;
    let made = List::of(
        alloc,
        Constraint::TableConstraint(TableConstraint {
            object_set,
            linked_fields,
        }),
    )?;
    Ok(made)
}

/// A table constraint with the set that the scope gives, as a list (X.682 10.3, X.683 8.4). It stays in a scope without dummies.
///
/// Err: want of memory.
#[tactic(auto, using(crate::proofs::Contents::table_outside, crate::proofs::Contents::table_inside))]
pub fn table_constraint<'a>(
    alloc: Global,
    scope: &Scope<'a>,
    table: &'a TableConstraint,
) -> Mem<List<Constraint>>
    ensures { IfOk result (λ made. made ≡ table_made (table_bound (shown scope.now) table.now)) }
{
    if is_outside(scope) {
        let made = copied_table(alloc, table)?;
        Ok(made)
    } else {
        let made = opened_table(alloc, scope, table)?;
        Ok(made)
    }
}
