//! The names that stay in a type.

ghost use Rattle.asn_link_closed.specs.Staying.{StayBy};
ghost use Rattle.asn_link_closed.specs.Lent.{shown_staying_names};
ghost use Rattle.asn_link_closed.specs.StayingNames.{staying_names};
ghost use Rattle.std.specs.Prelude.{◌≡◌, IfOk};

use crate::names::StayingName;
use crate::staying::names_that_stay;
use crate::trees::add_type;
use asn_memory::{List, Mem};
use asn_tree::ASN1Type;
use std::alloc::Global;

/// The names that stay in the type, in the order in which they stand, contents and tables aside: each type reference (X.680
/// 14.1), each field of an object (X.681 15), and the class of each class's field (X.681 14).
///
/// # Errors
///
/// Want of memory alone.
pub fn staying_names<'a>(alloc: Global, ty: &'a ASN1Type) -> Mem<List<StayingName<'a>>>
    ensures named { IfOk result (λ found. shown_staying_names found ≡ staying_names ty.now) }
    ensures stay { IfOk result (λ found. StayBy ty.now (shown_staying_names found)) }
{
    names_that_stay();
    let mut names = List::new(alloc);
    add_type(&mut names, ty)?;
    Ok(names)
}
