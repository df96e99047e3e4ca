//! Everything that stands somewhere, at every depth.

ghost use Rattle.asn_needs.specs.Sites.{seen};
ghost use Rattle.asn_places_objects.specs.Nodes.{shown_node};
ghost use Rattle.asn_places.specs.Places.{AreBelow, ArePlacesOf};
ghost use Rattle.asn_places_types.specs.Sites.{shown_sites};
ghost use Rattle.std.specs.Prelude.{◌≡◌, ◌+◌, ◌++◌, ℕ, IfOk};

use crate::below::parts;
use asn_memory::{List, Mem, OutOfMemory};
use asn_names_index::Names;
use asn_places_objects::{Node, node_sites};
use asn_places_types::Site;
use std::alloc::Global;

/// How many sites are computed at most. A template that is entered twice by each of its places has more.
const MOST: usize = 4_000_000;

/// The sites with further ones behind them.
///
/// Err: want of memory.
#[tactic(auto, using(asn_places_types::proofs::Adding::all_of_both))]
fn with_all<'a>(sites: List<Site<'a>>, others: List<Site<'a>>) -> Mem<List<Site<'a>>>
    ensures { IfOk result (λ all. shown_sites all ≡ shown_sites sites.entry ++ shown_sites others.entry) }
{
    let mut sites = sites;
    sites.append(others)?;
    Ok(sites)
}

/// These sites, and what stands in each of them at every depth.
///
/// Err: want of memory, also where the steps are used up, and where there are four million sites or more.
pub fn sites_below<'a>(
    alloc: Global,
    names: &Names<'a>,
    steps: usize,
    first: List<Site<'a>>,
) -> Mem<List<Site<'a>>>
    ensures { IfOk result (λ all. (m : ℕ) → AreBelow (seen names.now.definitions.now (steps + m)) (shown_sites first.entry) (shown_sites all)) }
{
    let mut sites = first;
    for i in 0..MOST {
        if i >= sites.len() {
            return Ok(sites);
        }
        let found = parts(alloc, names, steps, &sites.as_slice()[i])?;
        sites = with_all(sites, found)?;
    }
    Err(OutOfMemory)
}

/// The places of a definition or of a class's field.
///
/// Err: want of memory, also where the steps are used up, and where there are four million places or more.
pub fn places_of<'a>(
    alloc: Global,
    names: &Names<'a>,
    steps: usize,
    node: Node<'_>,
) -> Mem<List<Site<'a>>>
    ensures { IfOk result (λ all. (m : ℕ) → ArePlacesOf (seen names.now.definitions.now (steps + m)) (shown_node node.entry) (shown_sites all)) }
{
    let first = node_sites(alloc, names, node)?;
    let all = sites_below(alloc, names, steps, first)?;
    Ok(all)
}
