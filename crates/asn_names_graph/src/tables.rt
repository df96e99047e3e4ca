//! Tables of all nodes that are made of a search's numbers and order, each in one pass over the edges.

ghost use Rattle.std.specs.Prelude.{◌≡◌, ◌<◌, ◌≤◌, ◌+◌, ◌↔◌, ℕ, Bool, false, filter, length, map, IfOk, IsTrue, slice_index, slice_index_or};
ghost use Rattle.asn_names_graph.specs.Graphs.{edges_of, IsGraph, IsNode, NeedsNoCycle};
ghost use Rattle.asn_names_graph.specs.inner.Numbered.{number_in, LeadsToFree, Numbered, ReturnsTo};

use crate::mark::Mark;
use crate::steps::{end_of, target_at};
use asn_memory::Mem;
use std::alloc::Global;

// The numbers of the nodes' components.
pub(crate) fn numbers_of(alloc: Global, marks: &[Mark]) -> Mem<Vec<usize>>
    ensures { IfOk result (λ numbers. numbers.items ≡ map number_in marks.now) }
{
    let mut numbers = Vec::new(alloc);
    for mark in marks {
        numbers.push(number_of(*mark))?;
    }
    Ok(numbers)
}

fn number_of(mark: Mark) -> usize
    ensures { result ≡ number_in mark }
{
    match mark {
        Mark::New => 0,
        Mark::OnPath(_) => 0,
        Mark::Done(part) => part,
    }
}

// Where the node's edges start.
pub(crate) fn start_of(starts: &[usize], node: usize) -> usize
    requires { node + 1 < length starts.now }
    ensures { result ≡ slice_index starts.now node }
{
    starts[node]
}

// Whether an edge of the node stays in its component.
fn returns_to(starts: &[usize], targets: &[usize], numbers: &[usize], node: usize) -> bool
    requires graph { IsGraph (edges_of starts.now targets.now) }
    requires numbered { length numbers.now ≡ length starts.now }
    requires node { node + 1 < length starts.now }
    ensures { IsTrue result ↔ ReturnsTo (edges_of starts.now targets.now) numbers.now node }
{
    let number = numbers[node];
    for edge in start_of(starts, node)..end_of(starts, node) {
        let target = target_at(targets, edge);
        if numbers[target] == number {
            return true;
        }
    }
    false
}

// For each node, whether an edge of it stays in its component.
pub(crate) fn cycle_table(
    alloc: Global,
    starts: &[usize],
    targets: &[usize],
    numbers: &[usize],
) -> Mem<Vec<bool>>
    requires graph { IsGraph (edges_of starts.now targets.now) }
    requires numbered { length numbers.now ≡ length starts.now }
    ensures long { IfOk result (λ table. length table.items + 1 ≡ length starts.now) }
    ensures told { IfOk result (λ table. (x : ℕ) → x + 1 < length starts.now → (IsTrue (slice_index_or table.items x false) ↔ ReturnsTo (edges_of starts.now targets.now) numbers.now x)) }
{
    let mut table = Vec::new(alloc);
    for node in 0..starts.len() - 1 {
        let stays = returns_to(starts, targets, numbers, node);
        table.push(stays)?;
    }
    Ok(table)
}

// Whether each edge of the node leads to a free node of another component.
fn leads_to_free(
    starts: &[usize],
    targets: &[usize],
    numbers: &[usize],
    free: &[bool],
    node: usize,
) -> bool
    requires graph { IsGraph (edges_of starts.now targets.now) }
    requires numbered { length numbers.now ≡ length starts.now }
    requires free { length free.now ≡ length starts.now }
    requires node { node + 1 < length starts.now }
    ensures { IsTrue result ↔ LeadsToFree (edges_of starts.now targets.now) numbers.now free.now node }
{
    let number = numbers[node];
    for edge in start_of(starts, node)..end_of(starts, node) {
        let target = target_at(targets, edge);
        if numbers[target] == number {
            return false;
        }
        if !free[target] {
            return false;
        }
    }
    true
}

// A table of no free node.
fn none_free(alloc: Global, starts: &[usize]) -> Mem<Vec<bool>>
    ensures { IfOk result (λ table. length table.items ≡ length starts.now) }
{
    let mut table = Vec::new(alloc);
    for _start in starts {
        table.push(false)?;
    }
    Ok(table)
}

// For each node, whether it needs no cycle.
pub(crate) fn free_table(
    alloc: Global,
    starts: &[usize],
    targets: &[usize],
    numbers: &[usize],
    order: &[usize],
) -> Mem<Vec<bool>>
    requires graph { IsGraph (edges_of starts.now targets.now) }
    requires numbered { Numbered (edges_of starts.now targets.now) numbers.now order.now }
    ensures long { IfOk result (λ table. length table.items ≡ length starts.now) }
    ensures told { IfOk result (λ table. (i : ℕ) → i < length order.now → (IsTrue (slice_index_or table.items (slice_index order.now i) false) ↔ NeedsNoCycle (edges_of starts.now targets.now) (slice_index order.now i))) }
{
    let mut table = none_free(alloc, starts)?;
    for i in 0..order.len() {
        let node = order[i];
        let free = leads_to_free(starts, targets, numbers, table.as_slice(), node);
        table[node] = free;
    }
    Ok(table)
}

// The nodes of the order that are free.
pub(crate) fn free_order(alloc: Global, order: &[usize], free: &[bool]) -> Mem<Vec<usize>>
    requires { (i : ℕ) → i < length order.now → slice_index order.now i < length free.now }
    ensures { IfOk result (λ nodes. nodes.items ≡ filter (λ x. slice_index_or free.now x false) order.now) }
{
    let mut nodes = Vec::new(alloc);
    for node in order {
        if free[*node] {
            nodes.push(*node)?;
        }
    }
    Ok(nodes)
}
