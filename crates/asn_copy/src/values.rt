//! Copies of the values of fields.

ghost use Rattle.std.specs.Prelude.{◌≡◌, IfOk};

use asn_copy_linked::{boxed, copy_asn1_value};
use asn_memory::Mem;
use asn_tree::StructLikeFieldValue;
use std::alloc::Global;

/// A copy of the value of a field.
///
/// Err: want of memory.
pub fn copy_struct_like_field_value(
    alloc: Global,
    value: &StructLikeFieldValue,
) -> Mem<StructLikeFieldValue>
    ensures { IfOk result (λ copy. copy ≡ value.now) }
{
    match value {
        StructLikeFieldValue::Explicit(inner) => Ok(StructLikeFieldValue::Explicit(boxed(
            alloc,
            copy_asn1_value(alloc, inner.get()),
        )?)),
        StructLikeFieldValue::Implicit(inner) => Ok(StructLikeFieldValue::Implicit(boxed(
            alloc,
            copy_asn1_value(alloc, inner.get()),
        )?)),
    }
}
