//! Lists and parts that may be absent, copied by the copy of what they hold.
//!
//! The trees that lead back to each other have loops of their own, beside the copies of their items: a call of a function that
//! is handed over tells the prover nothing of the item's depth.

ghost use Rattle.std.specs.Prelude.{◌≡◌, IfOk};

use asn_memory::{List, Mem};
use std::alloc::Global;

/// A copy of a list, where `copy_item` copies an item.
///
/// Err: want of memory for the list or for an item.
pub fn copy_list<T: Drop, F: Fn(Global, &T) -> Mem<T>>(
    alloc: Global,
    list: &List<T>,
    copy_item: F,
) -> Mem<List<T>>
    requires callable { F.IsAlwaysCallable copy_item }
    requires copies { (alloc : _) (item : _) (answer : _) → F.post copy_item alloc item answer → IfOk answer (λ copy. copy ≡ item.now) }
    ensures { IfOk result (λ copy. copy ≡ list.now) }
{
    let mut copies = List::new(alloc);
    for item in list.as_slice() {
        copies.add(copy_item(alloc, item)?)?;
    }
    Ok(copies)
}

/// A copy of a part that may be absent, where `copy_part` copies the part.
///
/// Err: want of memory for the part.
pub fn copy_optional<T: Drop, F: Fn(Global, &T) -> Mem<T>>(
    alloc: Global,
    part: &Option<T>,
    copy_part: F,
) -> Mem<Option<T>>
    requires callable { F.IsAlwaysCallable copy_part }
    requires copies { (alloc : _) (part : _) (answer : _) → F.post copy_part alloc part answer → IfOk answer (λ copy. copy ≡ part.now) }
    ensures { IfOk result (λ copy. copy ≡ part.now) }
{
    match part {
        Some(part) => Ok(Some(copy_part(alloc, part)?)),
        None => Ok(None),
    }
}

/// A copy of an item that takes no memory.
pub fn copy_plain<T: Copy + Drop>(_alloc: Global, value: &T) -> Mem<T>
    ensures { IfOk result (λ copy. copy ≡ value.now) }
{
    Ok(*value)
}
