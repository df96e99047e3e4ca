//! The types that linking makes, with which of their definitions can be linked together.

ghost use Rattle.asn_names_index.specs.Definitions.{IsStanding};
ghost use Rattle.asn_link_all.specs.Linked.{AreLinkedTypes};
ghost use Rattle.std.specs.Prelude.{◌≡◌, IfOk, length, map};

use crate::making::{Limits, make_types};
use crate::tags::tag_types;
use crate::ways::ways_of;
use asn_link_closed::closed_definitions;
use asn_memory::{List, Mem};
use asn_names_circles::free_of_circles;
use asn_names_index::Names;
use asn_tree::{ASN1Type, AsnTag, ToplevelDefinition};
use std::alloc::Global;

/// What linking makes of definitions, each in its turn.
#[derive(Drop)]
pub struct LinkedTypes {
    /// The type that was made, where one was.
    pub made: List<Option<ASN1Type>>,
    /// The tag that stands before it.
    pub tags: List<Option<AsnTag>>,
    /// Whether the definition is closed: a type was made of it and of each definition of a type that its type leads to, and no field of
    /// an object stays in any of these.
    pub closed: List<bool>,
}

/// What linking makes of each of the definitions that stand, in their order, with its tag, and whether it is closed: the type of one that
/// linking leaves as it is, else the instance of the type of one that is no template, where an instance lies within the steps and levels;
/// of one that leads to a circle within as many as the limits tell for these; nothing of one that `withheld` tells to be given as read, where
/// linking does not leave it as it is. `standing` is what `Names::standing` gives of `names`.
/// Where linking gives closed definitions these types, each name of one stands for a type that accepts and rejects the same trees as it
/// did (`asn_link_closed::closed_definitions_close`, `asn_link_instance::closed_names_mean_the_same`).
///
/// # Errors
///
/// Want of memory, also where the room of an instance is used up.
pub fn link_types<'a>(
    alloc: Global,
    names: &Names<'a>,
    limits: Limits,
    standing: &[&'a ToplevelDefinition],
    withheld: &[bool],
) -> Mem<LinkedTypes>
    requires stand { IsStanding names.now.definitions.now (map (λ d. d.now) standing.now) }
    requires long { length withheld.now ≡ length standing.now }
    ensures { IfOk result (λ linked. AreLinkedTypes names.now.definitions.now limits.steps limits.levels limits.in_circles (map (λ d. d.now) standing.now) withheld.now linked.made linked.tags linked.closed) }
{
    let free = free_of_circles(alloc, names, standing)?;
    let told = free.as_slice();
    let ways = ways_of(alloc, told, withheld)?;
    let each = ways.as_slice();
    let made = make_types(alloc, names, limits, standing, each)?;
    let tags = tag_types(alloc, names, limits, standing, each)?;
    let closed = closed_definitions(alloc, names, standing, made.as_slice())?;
    Ok(LinkedTypes { made, tags, closed })
}
