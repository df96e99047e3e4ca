//! How each definition is linked.

ghost use Rattle.asn_link_all.specs.Ways.{way_of, ways_of};
ghost use Rattle.std.specs.Prelude.{◌≡◌, IfOk, length};

use asn_memory::{List, Mem};
use std::alloc::Global;

/// How a definition is linked that linking does not leave as it is.
#[derive(Clone, Copy, Debug, PartialEq, Eq)]
pub enum Way {
    /// Within all steps and levels.
    Whole,
    /// It leads to a circle: within as many steps and levels as the limits tell for these.
    InCircles,
    /// It is given as read.
    AsRead,
}

/// How a definition is linked, where it leads to no circle or does, and is given as read or not.
fn way_of(is_free: bool, withheld: bool) -> Way
    ensures { result ≡ way_of is_free withheld }
{
    if withheld {
        Way::AsRead
    } else if is_free {
        Way::Whole
    } else {
        Way::InCircles
    }
}

/// How each of some definitions is linked, of which `free` tells whether it leads to no circle, and `withheld` whether it is given as read.
///
/// Err: want of memory.
pub(crate) fn ways_of(alloc: Global, free: &[bool], withheld: &[bool]) -> Mem<List<Way>>
    requires { length withheld.now ≡ length free.now }
    ensures { IfOk result (λ ways. ways ≡ ways_of free.now withheld.now) }
{
    let mut ways = List::new(alloc);
    for (i, is_free) in free.iter().enumerate() {
        ways.add(way_of(*is_free, withheld[i]))?;
    }
    Ok(ways)
}
