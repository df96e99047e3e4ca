//! Graphs of nodes that are numbered from 0.

ghost use Rattle.std.specs.Prelude.{◌≡◌, ◌<◌, ◌≤◌, ◌+◌, ◌↔◌, ℕ, length, IfNone, IfSome, IsTrue, slice_index};
ghost use Rattle.asn_names_graph.specs.Graphs.{edges_of, IsGraph};
ghost use Rattle.asn_names_graph.specs.inner.Starts.{StartsWithin};

use std::marker::Model;

/// A graph of nodes that are numbered from 0, seen by contracts as its edges.
#[derive(Drop)]
pub struct Graph {
    starts: Vec<usize>,
    targets: Vec<usize>,
}

impl Model for Graph {
    ghost use Rattle.asn_names_graph.specs.Graphs.{edges_of, Edges, IsGraph};

    ghost Value = { Edges };

    ghost view = { λ g. edges_of g.starts.items g.targets.items };

    ghost invariant = { λ g. IsGraph (edges_of g.starts.items g.targets.items) };
}

impl Graph {
    /// The graph whose node `x` has the targets from `starts[x]` up to `starts[x + 1]`: so there is one start more than nodes. None
    /// exactly where there is no start, a start is below the one before it, the last start is above the number of targets, or a target
    /// is no node.
    pub fn new(starts: Vec<usize>, targets: Vec<usize>) -> Option<Graph>
        ensures made { IfSome result (λ g. g ≡ edges_of starts.items targets.items) }
        ensures well_formed { IfSome result (λ g. IsGraph g) }
        ensures refused { IfNone result (IsGraph (edges_of starts.items targets.items) → ⊥) }
    {
        if are_starts(starts.as_slice(), targets.len())
            && are_nodes(targets.as_slice(), starts.len())
        {
            return Some(Graph { starts, targets });
        }
        None
    }

    /// How many nodes the graph has.
    pub fn node_count(&self) -> usize
        ensures count { result + 1 ≡ length self.now.starts }
        ensures well_formed { IsGraph self.now }
    {
        self.starts.len() - 1
    }

    // Where the edges of each node start.
    pub(crate) fn starts(&self) -> &[usize]
        ensures value { result.now ≡ self.now.starts }
        ensures well_formed { IsGraph self.now }
    {
        self.starts.as_slice()
    }

    // Where the edges lead.
    pub(crate) fn targets(&self) -> &[usize]
        ensures { result.now ≡ self.now.targets }
    {
        self.targets.as_slice()
    }
}

// Whether there is a start, none falls, and the last is at most the number of targets.
fn are_starts(starts: &[usize], count: usize) -> bool
    ensures { IsTrue result ↔ StartsWithin starts.now count }
{
    if starts.is_empty() {
        return false;
    }
    for node in 0..starts.len() - 1 {
        if starts[node] > starts[node + 1] || starts[node + 1] > count {
            return false;
        }
    }
    true
}

// Whether each target is a node, where there is one start more than nodes.
fn are_nodes(targets: &[usize], start_count: usize) -> bool
    ensures { IsTrue result ↔ ((k : ℕ) → k < length targets.now → slice_index targets.now k + 1 < start_count) }
{
    for target in targets {
        if *target >= start_count.saturating_sub(1) {
            return false;
        }
    }
    true
}
