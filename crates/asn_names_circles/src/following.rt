//! Which definitions follow none that leads to a circle.

ghost use Rattle.asn_names_circles.specs.Circles.{FollowedAreFree, FollowersAre, FreeAre, LeadsToNoCircle};
ghost use Rattle.asn_names_circles.specs.inner.Followed.{AreAllFree, AreTold, FollowEach};
ghost use Rattle.asn_names_index.specs.Definitions.{IsStanding};
ghost use Rattle.asn_tree.specs.Calls.{name_of};
ghost use Rattle.std.specs.Prelude.{◌↔◌, IfOk, IsTrue, map};

use asn_memory::{List, Mem, Text};
use asn_names_graph::{names_of, place_of};
use asn_names_index::Names;
use asn_names_references::followed;
use asn_tree::ToplevelDefinition;
use std::alloc::Global;

/// Whether a name leads to no circle: one that has no definition leads nowhere.
fn is_free(index: &Names<'_>, names: &[&Text], free: &[bool], name: &Text) -> bool
    requires { AreTold index.now.definitions.now (map (λ n. n.now) names.now) free.now }
    ensures { IsTrue result ↔ LeadsToNoCircle index.now.definitions.now name.now }
{
    match place_of(names, name) {
        Some(place) => free[place],
        None => true,
    }
}

/// Whether no name of these leads to a circle.
fn are_free(index: &Names<'_>, names: &[&Text], free: &[bool], mentioned: &[&Text]) -> bool
    requires { AreTold index.now.definitions.now (map (λ n. n.now) names.now) free.now }
    ensures { IsTrue result ↔ AreAllFree index.now.definitions.now (map (λ n. n.now) mentioned.now) }
{
    for name in mentioned {
        if !is_free(index, names, free, name) {
            return false;
        }
    }
    true
}

/// Whether a definition follows none that leads to a circle.
fn follows_none(
    alloc: Global,
    index: &Names<'_>,
    names: &[&Text],
    free: &[bool],
    definition: &ToplevelDefinition,
) -> Mem<bool>
    requires { AreTold index.now.definitions.now (map (λ n. n.now) names.now) free.now }
    ensures { IfOk result (λ told. IsTrue told ↔ FollowedAreFree index.now.definitions.now definition.now) }
{
    let mentioned = followed(alloc, definition)?;
    Ok(are_free(index, names, free, mentioned.as_slice()))
}

/// For each of these definitions, whether it follows none that leads to a circle.
fn follow_each(
    alloc: Global,
    index: &Names<'_>,
    names: &[&Text],
    free: &[bool],
    definitions: &[&ToplevelDefinition],
) -> Mem<List<bool>>
    requires { AreTold index.now.definitions.now (map (λ n. n.now) names.now) free.now }
    ensures { IfOk result (λ told. FollowEach index.now.definitions.now (map (λ d. d.now) definitions.now) told) }
{
    let mut told = List::new(alloc);
    for definition in definitions {
        told.add(follows_none(alloc, index, names, free, definition)?)?;
    }
    Ok(told)
}

/// For each of the definitions that stand, in their order, whether it follows none that leads to a circle: no name that `asn_names_references::followed`
/// gives of it. `standing` is what `Names::standing` gives of `names`, and `free` what
/// `free_of_circles` gives of both. The work is linear in the names that are followed, but for a search by halves for each.
///
/// # Errors
///
/// Want of memory.
pub fn follow_no_circle<'t>(
    alloc: Global,
    names: &Names<'t>,
    standing: &[&'t ToplevelDefinition],
    free: &[bool],
) -> Mem<List<bool>>
    requires standing { IsStanding names.now.definitions.now (map (λ d. d.now) standing.now) }
    requires free { FreeAre names.now.definitions.now (map (λ d. name_of d.now) standing.now) free.now }
    ensures { IfOk result (λ told. FollowersAre names.now.definitions.now (map (λ d. name_of d.now) standing.now) told) }
{
    let all = names_of(alloc, standing)?;
    let told = follow_each(alloc, names, all.as_slice(), free, standing)?;
    Ok(told)
}
