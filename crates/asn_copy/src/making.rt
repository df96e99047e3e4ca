//! Making trees in which a part stands twice, so that one of the two is a copy.

ghost use Rattle.std.specs.Prelude.{◌≡◌, IfOk, Some, false, true};

use asn_copy_linked::copy_asn1_value;
use asn_memory::Mem;
use asn_tree::{ASN1Value, ValueConstraint};
use asn_tree_leaves::ExtensionMarker;
use std::alloc::Global;

/// The constraints to a single value, which is both ends of a range.
pub trait ValueConstraintMaking {
    /// The constraint to a single value (X.680 51.2).
    ///
    /// Err: want of memory.
    fn single(alloc: Global, value: ASN1Value) -> Mem<ValueConstraint>
        ensures min { IfOk result (λ made. made.min_value ≡ Some value) }
        ensures max { IfOk result (λ made. made.max_value ≡ Some value) }
        ensures extensible { IfOk result (λ made. made.extensible ≡ false) };

    /// The constraint to a single value with an extension marker.
    ///
    /// Err: want of memory.
    fn extensible_single(
        alloc: Global,
        value: ASN1Value,
        marker: ExtensionMarker,
    ) -> Mem<ValueConstraint>
        ensures min { IfOk result (λ made. made.min_value ≡ Some value) }
        ensures max { IfOk result (λ made. made.max_value ≡ Some value) }
        ensures extensible { IfOk result (λ made. made.extensible ≡ true) };
}

impl ValueConstraintMaking for ValueConstraint {
    fn single(alloc: Global, value: ASN1Value) -> Mem<ValueConstraint> {
        let (min, max) = twice(alloc, value)?;
        Ok(ValueConstraint {
            min_value: Some(min),
            max_value: Some(max),
            extensible: false,
        })
    }

    fn extensible_single(
        alloc: Global,
        value: ASN1Value,
        _marker: ExtensionMarker,
    ) -> Mem<ValueConstraint> {
        let (min, max) = twice(alloc, value)?;
        Ok(ValueConstraint {
            min_value: Some(min),
            max_value: Some(max),
            extensible: true,
        })
    }
}

/// A copy of the value, and the value.
fn twice(alloc: Global, value: ASN1Value) -> Mem<(ASN1Value, ASN1Value)>
    ensures { IfOk result (λ both. (both.0 ≡ value) × (both.1 ≡ value)) }
{
    let copy = copy_asn1_value(alloc, &value)?;
    Ok((copy, value))
}
