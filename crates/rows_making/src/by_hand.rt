//! Trees that no text is read as: they are made by hand, copied, made by constructors, and asked about.

mod calls;
mod comparing;
mod faults;
mod items;
mod making;
mod others;
mod values;

use asn_memory::{Mem, Text};
pub(crate) use items::write_items;
use std::alloc::Global;

/// Writes the rows about each family.
///
/// Err: want of memory.
pub(crate) fn write_by_hand(alloc: Global, out: &mut Text) -> Mem<()> {
    out.push_str("copies of values\n")?;
    values::write_rows(alloc, out)?;
    out.push_str("copies of other parts\n")?;
    others::write_rows(alloc, out)?;
    out.push_str("copies of faults\n")?;
    faults::write_rows(alloc, out)?;
    out.push_str("constructors\n")?;
    making::write_rows(alloc, out)?;
    out.push_str("calls\n")?;
    calls::write_rows(alloc, out)
}
