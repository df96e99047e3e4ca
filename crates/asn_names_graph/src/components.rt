//! The components of a graph: what needs itself, what needs no cycle, and an order in which needs come first.

ghost use Rattle.std.specs.Prelude.{◌≡◌, ◌<◌, ◌≤◌, ◌+◌, ◌↔◌, ℕ, length, map, IfOk, IsTrue, slice_index, slice_index_or};
ghost use Rattle.asn_names_graph.specs.Graphs.{edges_of, AreOneComponent, HasEdge, IsGraph, IsNode, IsOrder, IsOrderOfFree, NeedsItself, NeedsNoCycle, Numbering};
ghost use Rattle.asn_names_graph.specs.inner.Numbered.{Numbered};
ghost use Rattle.asn_names_graph.specs.inner.Told.{IsTold};

use crate::graph::Graph;
use crate::steps::search_all;
use crate::tables::{cycle_table, free_order, free_table, numbers_of};
use asn_memory::Mem;
use std::alloc::Global;
use std::marker::Model;

/// The components of a graph: nodes are in one component where each needs the other. Contracts see it as the graph's edges and the
/// number of each node's component.
#[derive(Drop)]
pub struct Components {
    graph: Graph,
    numbers: Vec<usize>,
    order: Vec<usize>,
    free_order: Vec<usize>,
    cyclic: Vec<bool>,
    free: Vec<bool>,
}

impl Model for Components {
    ghost use Rattle.asn_names_graph.specs.Graphs.{Numbering};
    ghost use Rattle.asn_names_graph.specs.inner.Told.{IsTold};

    ghost Value = { Numbering };

    ghost view = { λ c. record { edges = c.graph; numbers = c.numbers.items } };

    ghost invariant = { λ c. IsTold c.graph c.numbers.items c.order.items c.free_order.items c.cyclic.items c.free.items };
}

impl Components {
    /// The components of the graph, by one search along a path and two passes over the edges: the work and the memory are linear in
    /// nodes and edges, and the stack stays as it is however long a chain of needs is.
    #[tactic(auto, using(crate::proofs::TablesTold::told_same))]
    pub fn of(alloc: Global, graph: Graph) -> Mem<Components>
        ensures { IfOk result (λ c. c.edges ≡ graph) }
    {
        let starts = graph.starts();
        let targets = graph.targets();
        let Found { numbers, order } = find(alloc, starts, targets)?;
        let Tables {
            free_order,
            cyclic,
            free,
        } = tell(alloc, starts, targets, numbers.as_slice(), order.as_slice())?;
        Ok(Components {
            graph,
            numbers,
            order,
            free_order,
            cyclic,
            free,
        })
    }

    /// The graph.
    pub fn graph(&self) -> &Graph
        ensures { result.now ≡ self.now.edges }
    {
        &self.graph
    }

    /// How many nodes the graph has.
    pub fn node_count(&self) -> usize
        ensures count { result + 1 ≡ length self.now.edges.starts }
        ensures well_formed { IsGraph self.now.edges }
    {
        self.graph.node_count()
    }

    /// Whether the node stands on a cycle: edges lead from it back to it in one step or more.
    pub fn needs_itself(&self, node: usize) -> bool
        requires { IsNode self.now.edges node }
        ensures { IsTrue result ↔ NeedsItself self.now.edges node }
    {
        self.cyclic[node]
    }

    /// Whether neither the node nor any that it needs stands on a cycle.
    pub fn needs_no_cycle(&self, node: usize) -> bool
        requires { IsNode self.now.edges node }
        ensures { IsTrue result ↔ NeedsNoCycle self.now.edges node }
    {
        self.free[node]
    }

    /// The number of the node's component. Two nodes have one number exactly where they are one node or each needs the other, and no
    /// edge leads to a higher number.
    pub fn component(&self, node: usize) -> usize
        requires { IsNode self.now.edges node }
        ensures number { result ≡ slice_index self.now.numbers node }
        ensures lower { (other : ℕ) → HasEdge self.now.edges node other → slice_index self.now.numbers other ≤ result }
        ensures one { (other : ℕ) → IsNode self.now.edges other → ((result ≡ slice_index self.now.numbers other) ↔ AreOneComponent self.now.edges node other) }
    {
        self.numbers[node]
    }

    /// All nodes, each once, needs first: where an edge leads to another component, its target stands before the node.
    pub fn order(&self) -> &[usize]
        ensures { IsOrder self.now.edges result.now }
    {
        self.order.as_slice()
    }

    /// The nodes that need no cycle, each once, and each behind all that it needs.
    pub fn free_order(&self) -> &[usize]
        ensures { IsOrderOfFree self.now.edges result.now }
    {
        self.free_order.as_slice()
    }
}

// The numbers of the components, and the nodes in the order in which they came out.
#[derive(Drop)]
struct Found {
    numbers: Vec<usize>,
    order: Vec<usize>,
}

// Searches the graph.
fn find(alloc: Global, starts: &[usize], targets: &[usize]) -> Mem<Found>
    requires { IsGraph (edges_of starts.now targets.now) }
    ensures { IfOk result (λ found. Numbered (edges_of starts.now targets.now) found.numbers.items found.order.items) }
{
    let search = search_all(alloc, starts, targets)?;
    let numbers = numbers_of(alloc, search.marks.as_slice())?;
    Ok(Found {
        numbers,
        order: search.order,
    })
}

// The nodes that need no cycle in their order, and for each node whether it needs itself and whether it needs no cycle.
#[derive(Drop)]
struct Tables {
    free_order: Vec<usize>,
    cyclic: Vec<bool>,
    free: Vec<bool>,
}

// The tables of these numbers and this order.
fn tell(
    alloc: Global,
    starts: &[usize],
    targets: &[usize],
    numbers: &[usize],
    order: &[usize],
) -> Mem<Tables>
    requires graph { IsGraph (edges_of starts.now targets.now) }
    requires numbered { Numbered (edges_of starts.now targets.now) numbers.now order.now }
    ensures { IfOk result (λ t. IsTold (edges_of starts.now targets.now) numbers.now order.now t.free_order.items t.cyclic.items t.free.items) }
{
    let cyclic = cycle_table(alloc, starts, targets, numbers)?;
    let free = free_table(alloc, starts, targets, numbers, order)?;
    let free_order = free_order(alloc, order, free.as_slice())?;
    Ok(Tables {
        free_order,
        cyclic,
        free,
    })
}
