//! Parts of a tree, joined once each of them is copied.
//!
//! A `?` between two copies lets go of the first where the second fails, and a check goes through each tree that is let
//! go. So the copies of the families' modules are joined here, over any types, before the one `?` that ends them.

ghost use Rattle.std.specs.Prelude.{◌≡◌, IfOk, Ok};

use asn_memory::{Box, Mem};
use std::alloc::Global;

/// Both parts.
///
/// Err: want of memory for one of them.
pub fn both<A: Drop, B: Drop>(first: Mem<A>, second: Mem<B>) -> Mem<(A, B)>
    ensures { IfOk result (λ parts. (first ≡ Ok parts.0) × (second ≡ Ok parts.1)) }
{
    Ok((first?, second?))
}

/// The part on the heap.
///
/// Err: want of memory for the part or for its box.
pub fn boxed<T: Drop>(alloc: Global, part: Mem<T>) -> Mem<Box<T>>
    ensures { IfOk result (λ copy. part ≡ Ok copy) }
{
    Box::new(alloc, part?)
}
