//! A graph that is written down node by node.

ghost use Rattle.std.specs.Prelude.{◌≡◌, ◌+◌, ◌⊎◌, ◌↔◌, ℕ, [], ◌∷◌, length, IfNone, IfOk, IfSome, OnErr, OnOk};
ghost use Rattle.asn_names_graph.specs.Graphs.{edges_of, HasEdge, IsGraph, IsNode};

use crate::graph::Graph;
use asn_memory::Mem;
use std::alloc::Global;
use std::marker::Model;

/// A graph that is being written down, seen by contracts as the edges so far.
#[derive(Drop)]
pub struct GraphBuilder {
    starts: Vec<usize>,
    targets: Vec<usize>,
}

impl Model for GraphBuilder {
    ghost use Rattle.asn_names_graph.specs.Graphs.{edges_of, Edges};
    ghost use Rattle.asn_names_graph.specs.inner.Starts.{IsOpen};

    ghost Value = { Edges };

    ghost view = { λ b. edges_of b.starts.items b.targets.items };

    ghost invariant = { λ b. IsOpen b.starts.items b.targets.items };
}

impl GraphBuilder {
    /// A graph of no node.
    pub fn new(alloc: Global) -> Mem<GraphBuilder>
        ensures { IfOk result (λ b. b ≡ edges_of (0 ∷ []) []) }
    {
        let mut starts = Vec::new(alloc);
        starts.push(0)?;
        Ok(GraphBuilder {
            starts,
            targets: Vec::new(alloc),
        })
    }

    /// How many nodes there are so far.
    pub fn node_count(&self) -> usize
        ensures { result + 1 ≡ length self.now.starts }
    {
        self.starts.len() - 1
    }

    /// Begins the next node, which has no edge yet. For want of memory the graph stays as it was.
    #[tactic(auto, using(crate::proofs::Builds::node_added, crate::proofs::Builds::node_open))]
    pub fn add_node(&mut self) -> Mem<()>
        ensures some { OnOk result (IsNode self.new 0) }
        ensures more { OnOk result (length self.new.starts ≡ length self.old.starts + 1) }
        ensures edges { OnOk result ((x y : ℕ) → HasEdge self.new x y ↔ HasEdge self.old x y) }
        ensures err { OnErr result (self.new ≡ self.old) }
    {
        let count = self.targets.len();
        self.starts.push(count)?;
        Ok(())
    }

    /// Adds an edge from the node that was begun last to `target`, which may be begun later. For want of memory the graph stays as it
    /// was.
    #[tactic(auto, using(crate::proofs::Builds::edge_added, crate::proofs::Builds::edge_open))]
    pub fn add_edge(&mut self, target: usize) -> Mem<()>
        requires { IsNode self.old 0 }
        ensures same { OnOk result (length self.new.starts ≡ length self.old.starts) }
        ensures edges { OnOk result ((x y : ℕ) → HasEdge self.new x y ↔ (HasEdge self.old x y ⊎ ((x + 2 ≡ length self.old.starts) × (y ≡ target)))) }
        ensures err { OnErr result (self.new ≡ self.old) }
    {
        self.targets.push(target)?;
        let last = self.starts.len() - 1;
        self.starts[last] = self.targets.len();
        Ok(())
    }

    /// The graph. None exactly where an edge leads to a number that is no node.
    pub fn finish(self) -> Option<Graph>
        ensures made { IfSome result (λ g. g ≡ self) }
        ensures well_formed { IfSome result (λ g. IsGraph g) }
        ensures refused { IfNone result (((x y : ℕ) → HasEdge self x y → IsNode self y) → ⊥) }
    {
        let GraphBuilder { starts, targets } = self;
        Graph::new(starts, targets)
    }
}
