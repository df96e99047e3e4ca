//! Nodes that lead to marked ones: what is told goes back along the edges, until nothing more is told.

ghost use Rattle.asn_names_graph.specs.Graphs.{edges_of, IsGraph};
ghost use Rattle.asn_names_graph.specs.Reach.{AreFree, AreLeading, IsMarked};
ghost use Rattle.asn_names_graph.specs.inner.Spread.{AreSpread, IsClosed, LeadsOn, missing};
ghost use Rattle.std.specs.Prelude.{◌≡◌, ◌↔◌, ◌<◌, ◌+◌, ℕ, false, true, IfOk, IsTrue, length, map, not, slice_index};

use crate::components::Components;
use crate::steps::{end_of, target_at};
use crate::tables::start_of;
use asn_memory::{List, Mem};
use std::alloc::Global;

/// Whether an edge of the node leads to a node that is told.
fn leads_on(starts: &[usize], targets: &[usize], told: &[bool], node: usize) -> bool
    requires graph { IsGraph (edges_of starts.now targets.now) }
    requires long { length told.now + 1 ≡ length starts.now }
    requires node { node + 1 < length starts.now }
    ensures { IsTrue result ↔ LeadsOn (edges_of starts.now targets.now) told.now node }
{
    for edge in start_of(starts, node)..end_of(starts, node) {
        if told[target_at(targets, edge)] {
            return true;
        }
    }
    false
}

/// Whether the node is not told yet, and leads to one that is.
fn is_next(starts: &[usize], targets: &[usize], told: &[bool], node: usize) -> bool
    requires graph { IsGraph (edges_of starts.now targets.now) }
    requires long { length told.now + 1 ≡ length starts.now }
    requires node { node + 1 < length starts.now }
    ensures is { IsTrue result → LeadsOn (edges_of starts.now targets.now) told.now node × (IsMarked told.now node → ⊥) }
    ensures not { (IsTrue result → ⊥) → LeadsOn (edges_of starts.now targets.now) told.now node → IsMarked told.now node }
{
    if told[node] {
        false
    } else {
        leads_on(starts, targets, told, node)
    }
}

/// Tells each node of the order that leads to one which is told by then. Whether any was told.
fn tell_more(starts: &[usize], targets: &[usize], order: &[usize], told: &mut Vec<bool>) -> bool
    requires graph { IsGraph (edges_of starts.now targets.now) }
    requires long { length told.old.items + 1 ≡ length starts.now }
    requires nodes { (i : ℕ) → i < length order.now → slice_index order.now i + 1 < length starts.now }
    ensures long { length told.new.items + 1 ≡ length starts.now }
    ensures spread { AreSpread (edges_of starts.now targets.now) told.old.items told.new.items }
    ensures none { (IsTrue result → ⊥) → (told.new.items ≡ told.old.items) × IsClosed (edges_of starts.now targets.now) order.now told.new.items }
    ensures some { IsTrue result → missing told.new.items < missing told.old.items }
{
    let mut any = false;
    for node in order {
        if is_next(starts, targets, told.as_slice(), *node) {
            told[*node] = true;
            any = true;
        }
    }
    any
}

/// A copy of the marks.
fn copied(alloc: Global, marked: &[bool]) -> Mem<Vec<bool>>
    ensures { IfOk result (λ told. told.items ≡ marked.now) }
{
    let mut told = Vec::new(alloc);
    for mark in marked {
        told.push(*mark)?;
    }
    Ok(told)
}

/// For each node of the graph, whether it is marked or leads to one that is, in one step or more.
///
/// Err: want of memory.
fn leading_nodes(alloc: Global, components: &Components, marked: &[bool]) -> Mem<Vec<bool>>
    requires { length marked.now + 1 ≡ length components.now.edges.starts }
    ensures { IfOk result (λ told. AreLeading components.now.edges marked.now told.items) }
{
    let starts = components.graph().starts();
    let targets = components.graph().targets();
    let mut told = copied(alloc, marked)?;
    while tell_more(starts, targets, components.order(), &mut told) {}
    Ok(told)
}

/// For each of these, the other truth value.
fn others(alloc: Global, leading: &[bool]) -> Mem<List<bool>>
    ensures { IfOk result (λ others. others ≡ map not leading.now) }
{
    let mut others = List::new(alloc);
    for leads in leading {
        others.add(!*leads)?;
    }
    Ok(others)
}

/// For each node of the graph, whether it is not marked, and leads to none that is, in one step or more. Edges are gone over as often as
/// a node more is found to lead to one, and once more; as the order has needs first, that is more than twice only within a component.
///
/// # Errors
///
/// Want of memory.
pub fn free_nodes(alloc: Global, components: &Components, marked: &[bool]) -> Mem<List<bool>>
    requires { length marked.now + 1 ≡ length components.now.edges.starts }
    ensures { IfOk result (λ free. AreFree components.now.edges marked.now free) }
{
    let leading = leading_nodes(alloc, components, marked)?;
    let free = others(alloc, leading.as_slice())?;
    Ok(free)
}
