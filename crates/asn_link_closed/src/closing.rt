//! Which definitions are closed.

ghost use Rattle.asn_link_closed.specs.Closed.{AreClosed};
ghost use Rattle.asn_names_index.specs.Definitions.{IsStanding};
ghost use Rattle.std.specs.Prelude.{◌≡◌, IfOk, length, map};

use crate::drawing::{graph_of, open_nodes};
use asn_memory::{List, Mem};
use asn_names_graph::{Components, free_nodes, names_of};
use asn_names_index::Names;
use asn_tree::{ASN1Type, ToplevelDefinition};
use std::alloc::Global;

/// For each of the definitions that stand, in their order, whether it is closed, by what linking made of it, where it made a type: it is
/// not open, nor does a name that stays in its type lead to an open one, by the types that were made. Open is the definition of a type of
/// which none was made, or in whose type a field of an object stays. `standing` is what `Names::standing` gives of `names`, and `made`
/// has a type or none for each of them, in their order.
///
/// # Errors
///
/// Want of memory.
pub fn closed_definitions<'t>(
    alloc: Global,
    names: &Names<'t>,
    standing: &[&'t ToplevelDefinition],
    made: &[Option<ASN1Type>],
) -> Mem<List<bool>>
    requires standing { IsStanding names.now.definitions.now (map (λ d. d.now) standing.now) }
    requires long { length standing.now ≡ length made.now }
    ensures { IfOk result (λ closed. AreClosed (map (λ d. d.now) standing.now) made.now closed) }
{
    let all = names_of(alloc, standing)?;
    let graph = graph_of(alloc, all.as_slice(), made)?;
    let components = Components::of(alloc, graph)?;
    let open = open_nodes(alloc, standing, made)?;
    let closed = free_nodes(alloc, &components, open.as_slice())?;
    Ok(closed)
}
