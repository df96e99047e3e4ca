//! The steps of a search, and the search.

ghost use Rattle.std.specs.Prelude.{◌≡◌, ◌<◌, ◌≤◌, ◌+◌, ◌^◌, ℕ, [], length, IfOk, OnOk, slice_index, Some};
ghost use Rattle.asn_names_graph.specs.Graphs.{edges_of, IsGraph};
ghost use Rattle.asn_names_graph.specs.inner.State.{top_of};
ghost use Rattle.asn_names_graph.specs.inner.Shown.{shown};
ghost use Rattle.asn_names_graph.specs.inner.Valid.{AllOut, Reaches, Returns, StepsOn, Valid};

use crate::mark::Mark;
use crate::search::Search;
use crate::stack::Stack;
use asn_memory::Mem;
use std::alloc::Global;

// A search that has not begun.
fn start(alloc: Global, starts: &[usize], targets: &[usize]) -> Mem<Search>
    requires { IsGraph (edges_of starts.now targets.now) }
    ensures valid { IfOk result (λ s. Valid (edges_of starts.now targets.now) (shown s)) }
    ensures no_call { IfOk result (λ s. s.calls ≡ []) }
{
    let mut marks = Vec::new(alloc);
    for start_of_node in starts {
        marks.push(Mark::New)?;
    }
    let mut next = Vec::new(alloc);
    next.extend_from_slice(starts)?;
    Ok(Search {
        marks,
        next,
        path: Vec::new(alloc),
        order: Vec::new(alloc),
        calls: Stack::new(alloc),
        bounds: Stack::new(alloc),
    })
}

// Where the node's edges end.
pub(crate) fn end_of(starts: &[usize], node: usize) -> usize
    requires { node + 1 < length starts.now }
    ensures { result ≡ slice_index starts.now (node + 1) }
{
    starts[node + 1]
}

// Where an edge leads.
pub(crate) fn target_at(targets: &[usize], edge: usize) -> usize
    requires { edge < length targets.now }
    ensures { result ≡ slice_index targets.now edge }
{
    targets[edge]
}

// One step at the node on top of the calls, which stands on the path at the place.
fn step(starts: &[usize], targets: &[usize], search: &mut Search, place: usize) -> Mem<()>
    requires graph { IsGraph (edges_of starts.now targets.now) }
    requires valid { Valid (edges_of starts.now targets.now) (shown search.old) }
    requires top { top_of search.old.calls ≡ Some place }
    ensures { OnOk result (StepsOn (edges_of starts.now targets.now) (shown search.old) (shown search.new)) }
{
    let node = search.node_at(place);
    let edge = search.next_edge(node);
    if edge >= end_of(starts, node) {
        return leave(starts, targets, search, place);
    }
    let target = target_at(targets, edge);
    match search.mark(target) {
        Mark::New => {
            search.visit(target)?;
            Ok(())
        }
        Mark::OnPath(lower) => {
            search.join(lower);
            search.pass(node);
            Ok(())
        }
        Mark::Done(_) => {
            search.pass(node);
            Ok(())
        }
    }
}

// Goes back from the node on top of the calls, all of whose edges were passed; where it is the first of its part, the part comes out.
fn leave(starts: &[usize], targets: &[usize], search: &mut Search, place: usize) -> Mem<()>
    requires valid { Valid (edges_of starts.now targets.now) (shown search.old) }
    requires top { top_of search.old.calls ≡ Some place }
    requires ended { slice_index search.old.next.items (slice_index search.old.path.items place) ≡ slice_index starts.now (slice_index search.old.path.items place + 1) }
    ensures { OnOk result (StepsOn (edges_of starts.now targets.now) (shown search.old) (shown search.new)) }
{
    match search.bounds.top() {
        Some(bound) => {
            if bound == place {
                search.close(place)?;
                Ok(())
            } else {
                search.leave();
                Ok(())
            }
        }
        None => {
            search.leave();
            Ok(())
        }
    }
}

// Steps until no call is left.
fn run(starts: &[usize], targets: &[usize], search: &mut Search) -> Mem<()>
    requires graph { IsGraph (edges_of starts.now targets.now) }
    requires valid { Valid (edges_of starts.now targets.now) (shown search.old) }
    ensures { OnOk result (Returns (edges_of starts.now targets.now) (shown search.old) (shown search.new)) }
{
    while let Some(place) = search.calls.top() {
        step(starts, targets, search, place)?;
    }
    Ok(())
}

// Searches from the node, unless it was met already.
fn search_from(starts: &[usize], targets: &[usize], search: &mut Search, node: usize) -> Mem<()>
    requires graph { IsGraph (edges_of starts.now targets.now) }
    requires valid { Valid (edges_of starts.now targets.now) (shown search.old) }
    requires no_call { search.old.calls ≡ [] }
    requires node { node + 1 < length starts.now }
    ensures { OnOk result (Reaches (edges_of starts.now targets.now) (shown search.old) (shown search.new) node) }
{
    match search.mark(node) {
        Mark::New => {
            search.visit(node)?;
            run(starts, targets, search)?;
            Ok(())
        }
        Mark::OnPath(_) => Ok(()),
        Mark::Done(_) => Ok(()),
    }
}

// Searches from each node.
#[tactic(auto, using(crate::proofs::Ends::met_more))]
pub(crate) fn search_all(alloc: Global, starts: &[usize], targets: &[usize]) -> Mem<Search>
    requires { IsGraph (edges_of starts.now targets.now) }
    ensures { IfOk result (λ s. AllOut (edges_of starts.now targets.now) (shown s)) }
{
    let mut search = start(alloc, starts, targets)?;
    for node in 0..starts.len() - 1 {
        search_from(starts, targets, &mut search, node)?;
    }
    Ok(search)
}
