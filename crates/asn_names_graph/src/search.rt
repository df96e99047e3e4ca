//! The state of a search, and its single changes.

ghost use Rattle.std.specs.Prelude.{◌≡◌, ◌<◌, ◌≤◌, ◌+◌, ◌^◌, ℕ, length, OnOk, slice_index};
ghost use Rattle.asn_names_graph.specs.inner.State.{closed, joined, left_behind, mark_of, passed, visited};
ghost use Rattle.asn_names_graph.specs.inner.Shown.{shown};

use crate::mark::Mark;
use crate::stack::Stack;
use asn_memory::Mem;

/// A search: the mark of each node, the number of its next edge, the path, the nodes that came out in their order, and the
/// places on the path of the nodes that are at work and of the parts' first nodes.
#[derive(Drop)]
pub(crate) struct Search {
    pub(crate) marks: Vec<Mark>,
    pub(crate) next: Vec<usize>,
    pub(crate) path: Vec<usize>,
    pub(crate) order: Vec<usize>,
    pub(crate) calls: Stack,
    pub(crate) bounds: Stack,
}

impl Search {
    // The node at a place of the path.
    pub(crate) fn node_at(&self, place: usize) -> usize
        requires { place < length self.now.path.items }
        ensures { result ≡ slice_index self.now.path.items place }
    {
        self.path[place]
    }

    // The place of the node's next edge.
    pub(crate) fn next_edge(&self, node: usize) -> usize
        requires { node < length self.now.next.items }
        ensures { result ≡ slice_index self.now.next.items node }
    {
        self.next[node]
    }

    // The mark of the node.
    pub(crate) fn mark(&self, node: usize) -> Mark
        requires { node < length self.now.marks.items }
        ensures { result ≡ mark_of self.now.marks.items node }
    {
        self.marks[node]
    }

    // Puts a node that is new on the path, as a part of its own.
    pub(crate) fn visit(&mut self, node: usize) -> Mem<()>
        requires { node < length self.old.marks.items }
        ensures { OnOk result (shown self.new ≡ visited (shown self.old) node) }
    {
        let place = self.path.len();
        self.path.push(node)?;
        self.calls.push(place)?;
        self.bounds.push(place)?;
        self.marks[node] = Mark::OnPath(place);
        Ok(())
    }

    // Passes the node's next edge.
    pub(crate) fn pass(&mut self, node: usize)
        requires in_list { node < length self.old.next.items }
        requires in_range { slice_index self.old.next.items node + 1 < 2 ^ 64 }
        ensures { shown self.new ≡ passed (shown self.old) node }
    {
        let edge = self.next[node];
        self.next[node] = edge + 1;
    }

    // Makes one part of all parts that begin above the place and the part that holds it.
    pub(crate) fn join(&mut self, place: usize)
        ensures { shown self.new ≡ joined (shown self.old) place }
    {
        while let Some(bound) = self.bounds.top() {
            if bound <= place {
                break;
            }
            self.bounds.pop();
        }
    }

    // Goes back from the node on top of the calls.
    pub(crate) fn leave(&mut self)
        ensures { shown self.new ≡ left_behind (shown self.old) }
    {
        self.calls.pop();
    }

    // Takes the part that begins at the place off the path, and puts its nodes out.
    #[tactic(auto, using(crate::proofs::Closing::closed_step, crate::proofs::Closing::order_step, std::proofs::lemmas::List::drop_all))]
    pub(crate) fn close(&mut self, place: usize) -> Mem<()>
        requires on_path { place ≤ length self.old.path.items }
        requires nodes { (k : ℕ) → k < length self.old.path.items → slice_index self.old.path.items k < length self.old.marks.items }
        ensures { OnOk result (shown self.new ≡ closed (shown self.old) place) }
    {
        let part = self.order.len();
        for i in place..self.path.len() {
            let node = self.path[i];
            self.order.push(node)?;
            self.marks[node] = Mark::Done(part);
        }
        self.path.truncate(place);
        self.calls.pop();
        self.bounds.pop();
        Ok(())
    }
}
