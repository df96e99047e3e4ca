//! Graphs by their rows.

use asn_memory::Mem;
use asn_names_graph::{Graph, GraphBuilder};
use std::alloc::Global;

/// The number that is written; one that is no number stands for no node.
fn number_of(digits: &str) -> usize {
    match digits.parse::<usize>() {
        Ok(number) => number,
        Err(_) => usize::MAX,
    }
}

/// Adds an edge to the node that was begun last.
fn add_edge(builder: &mut GraphBuilder, target: usize) -> Mem<()> {
    if 0 < builder.node_count() {
        builder.add_edge(target)?;
    }
    Ok(())
}

fn add_edges(builder: &mut GraphBuilder, targets: &str) -> Mem<()> {
    for target in targets.split(" ") {
        if !target.is_empty() {
            add_edge(builder, number_of(target))?;
        }
    }
    Ok(())
}

/// The graph of these nodes, each with its targets, written down one after the other.
pub(crate) fn written(alloc: Global, nodes: &str) -> Mem<Option<Graph>> {
    let mut builder = GraphBuilder::new(alloc)?;
    if !nodes.is_empty() {
        for targets in nodes.split(";") {
            builder.add_node()?;
            add_edges(&mut builder, targets)?;
        }
    }
    Ok(builder.finish())
}

fn push_targets(all: &mut Vec<usize>, targets: &str) -> Mem<()> {
    for target in targets.split(" ") {
        if !target.is_empty() {
            all.push(number_of(target))?;
        }
    }
    Ok(())
}

/// The graph of these nodes, handed over as two lists: where the targets of each node begin, and all targets.
pub(crate) fn listed(alloc: Global, nodes: &str) -> Mem<Option<Graph>> {
    let mut starts = Vec::new(alloc);
    let mut targets = Vec::new(alloc);
    starts.push(0)?;
    if !nodes.is_empty() {
        for node in nodes.split(";") {
            push_targets(&mut targets, node)?;
            starts.push(targets.len())?;
        }
    }
    Ok(Graph::new(starts, targets))
}

/// The most nodes of a chain.
const MOST: usize = 1_000_000;

fn at_most(count: usize) -> usize {
    if count < MOST { count } else { MOST }
}

/// The graph of so many nodes, each with an edge to the next.
pub(crate) fn chain(alloc: Global, count: &str) -> Mem<Option<Graph>> {
    let mut starts = Vec::new(alloc);
    let mut targets = Vec::new(alloc);
    for node in 1..at_most(number_of(count)) {
        starts.push(node - 1)?;
        targets.push(node)?;
    }
    starts.push(targets.len())?;
    starts.push(targets.len())?;
    Ok(Graph::new(starts, targets))
}
