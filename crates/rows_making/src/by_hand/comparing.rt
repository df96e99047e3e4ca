//! Comparing trees, so that each row is one call.
//!
//! A tree is handed over with the answer of the call that made it: so a row holds no tree beside a further step, and a check goes
//! through no drops of trees in it. Rows are handed over at once, so that nothing branches between one row and the next.

use asn_memory::{List, Mem, OutOfMemory, Text};
use rows::push_flag;
use std::alloc::Global;

/// Whether the tree that was made is the one that is wanted.
pub(crate) fn is_made<T: PartialEq + Drop>(made: Mem<T>, wanted: Mem<T>) -> Mem<bool> {
    Ok(made? == wanted?)
}

/// Whether the copy was made and is the tree.
pub(crate) fn is_same<T: PartialEq + Drop>(copy: Mem<T>, tree: &T) -> Mem<bool> {
    Ok(copy? == *tree)
}

/// The list of one item.
pub(crate) fn list<T: Drop>(alloc: Global, item: Mem<T>) -> Mem<List<T>> {
    List::of(alloc, item?)
}

/// Writes a line for each row: what was made, and whether it is what was wanted.
///
/// Err: want of memory.
pub(crate) fn push_rows(out: &mut Text, rows: &[(&str, Mem<bool>)]) -> Mem<()> {
    for (word, row) in rows {
        match row {
            Ok(holds) => push_flag(out, *word, *holds)?,
            Err(_) => return Err(OutOfMemory),
        }
        out.push_str("\n")?;
    }
    Ok(())
}
