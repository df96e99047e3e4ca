//! What is answered about constraints: the least integer type, and the parts of a range and of a single value.

use crate::words::either;
use asn_calls::{ConstraintCalls, IntegerTypeCalls};
use asn_memory::{Mem, Text};
use asn_tree::{ASN1Value, Constraint};
use rows_trees::{write_plain_value, write_refusal};
use std::alloc::Global;

/// Writes what is answered about each constraint.
pub(crate) fn write_constraints(
    alloc: Global,
    out: &mut Text,
    constraints: &[Constraint],
) -> Mem<()> {
    for constraint in constraints {
        out.push_str("  constraint in ")?;
        out.push_str(constraint.integer_constraints().as_str())?;
        write_range(alloc, out, constraint)?;
        write_single(alloc, out, constraint)?;
        out.push_str("\n")?;
    }
    Ok(())
}

fn write_range(alloc: Global, out: &mut Text, constraint: &Constraint) -> Mem<()> {
    match constraint.unpack_as_value_range() {
        Ok((min, max, is_marked)) => {
            out.push_str("; range ")?;
            write_end(alloc, out, min, "MIN")?;
            out.push_str("..")?;
            write_end(alloc, out, max, "MAX")?;
            out.push_str(either(is_marked, " with a marker", ""))
        }
        Err(refusal) => {
            out.push_str("; ")?;
            write_refusal(out, &refusal)
        }
    }
}

fn write_end(
    alloc: Global,
    out: &mut Text,
    end: &Option<ASN1Value>,
    without: &'static str,
) -> Mem<()> {
    match end {
        Some(value) => write_plain_value(alloc, out, value),
        None => out.push_str(without),
    }
}

fn write_single(alloc: Global, out: &mut Text, constraint: &Constraint) -> Mem<()> {
    match constraint.unpack_as_strict_value() {
        Ok((value, is_marked)) => {
            out.push_str("; single value ")?;
            write_plain_value(alloc, out, value)?;
            out.push_str(either(is_marked, " with a marker", ""))
        }
        Err(refusal) => {
            out.push_str("; ")?;
            write_refusal(out, &refusal)
        }
    }
}
