//! What is answered about the numbers of an ENUMERATED.

use asn_calls::enumerate;
use asn_memory::{List, Mem, Text};
use asn_tree::Enumerated;
use asn_tree_kinds::Enumeral;
use rows::push_number;
use std::alloc::Global;

/// The numbers of items, each as if it were written; or none of them.
fn numbers(alloc: Global, items: &[Enumeral], are_written: bool) -> Mem<List<Option<i128>>> {
    let mut numbers = List::new(alloc);
    for item in items {
        numbers.add(are_written.then_some(item.index))?;
    }
    Ok(numbers)
}

/// The items before the extension marker, and those behind it.
fn halves(enumerated: &Enumerated) -> (&[Enumeral], &[Enumeral]) {
    let items = enumerated.members.as_slice();
    match enumerated.extensible {
        Some(place) if place <= items.len() => items.split_at(place),
        _ => (items, &[]),
    }
}

/// Writes the numbers that the items would have if each item before the marker had its own in writing, and none behind it had.
pub(crate) fn write_counted(alloc: Global, out: &mut Text, enumerated: &Enumerated) -> Mem<()> {
    let (root, additions) = halves(enumerated);
    let root = numbers(alloc, root, true)?;
    let additions = numbers(alloc, additions, false)?;
    out.push_str("  counted")?;
    match enumerate(alloc, root.as_slice(), additions.as_slice())? {
        Some(numbers) => write_all(alloc, out, numbers.as_slice())?,
        None => out.push_str(" too far")?,
    }
    out.push_str("\n")
}

fn write_all(alloc: Global, out: &mut Text, numbers: &[i128]) -> Mem<()> {
    for number in numbers {
        out.push_str(" ")?;
        push_number(alloc, out, *number)?;
    }
    Ok(())
}
