//! The program `rows_graph`: it reads graphs on standard input, a row each, and writes what stands on cycles, what needs each other, and
//! the orders.
//!
//! `written 1 2; 2;` has three nodes: the first has edges to the nodes 1 and 2, the second to the node 2, the third none. It is written
//! down node by node; `listed` has the same rows and hands them over as lists. `chain 100` is a hundred nodes with an edge to the next each.
//! An answer has a letter for each node, `c` where it stands on a cycle, `.` where it needs none and `-` else; for each node the first that
//! stands in the same component; the order of all nodes, and of those that need no cycle. The library `rows` tells what it does with the
//! rows.
#![tactic(auto)]

mod graphs;

use crate::graphs::{chain, listed, written};
use asn_memory::{Mem, Text};
use asn_names_graph::{Components, Graph};
use rows::{Answers, answer_rows, push_decimal};
use std::alloc::Global;
use std::process::ExitCode;

/// How many nodes are told one by one.
const FEW: usize = 100;

/// Writes numbers behind a word, of many the first and the last.
fn write_numbers(alloc: Global, out: &mut Text, word: &str, numbers: &[usize]) -> Mem<()> {
    out.push_str(word)?;
    match numbers {
        [first, .., last] if FEW < numbers.len() => {
            out.push_str(" ")?;
            push_decimal(alloc, out, *first)?;
            out.push_str(" .. ")?;
            push_decimal(alloc, out, *last)?;
            out.push_str(", so many: ")?;
            push_decimal(alloc, out, numbers.len())
        }
        _ => write_all(alloc, out, numbers),
    }
}

fn write_all(alloc: Global, out: &mut Text, numbers: &[usize]) -> Mem<()> {
    for number in numbers {
        out.push_str(" ")?;
        push_decimal(alloc, out, *number)?;
    }
    Ok(())
}

/// Writes the letter of each node.
fn write_kinds(out: &mut Text, components: &Components) -> Mem<()> {
    for node in 0..components.node_count() {
        let kind = if components.needs_itself(node) {
            "c"
        } else if components.needs_no_cycle(node) {
            "."
        } else {
            "-"
        };
        out.push_str(kind)?;
    }
    Ok(())
}

/// The first node of the same component.
fn first_beside(components: &Components, component: usize) -> usize {
    for node in 0..components.node_count() {
        if components.component(node) == component {
            return node;
        }
    }
    0
}

/// Writes for each node the first of the same component.
fn write_groups(alloc: Global, out: &mut Text, components: &Components) -> Mem<()> {
    out.push_str("; components")?;
    for node in 0..components.node_count() {
        out.push_str(" ")?;
        push_decimal(
            alloc,
            out,
            first_beside(components, components.component(node)),
        )?;
    }
    Ok(())
}

/// Writes what is told of a graph.
fn write_components(alloc: Global, out: &mut Text, components: &Components) -> Mem<()> {
    push_decimal(alloc, out, components.graph().node_count())?;
    out.push_str(" nodes ")?;
    if components.node_count() <= FEW {
        write_kinds(out, components)?;
        write_groups(alloc, out, components)?;
    }
    write_numbers(alloc, out, "; order", components.order())?;
    write_numbers(alloc, out, "; without cycles", components.free_order())?;
    out.push_str("\n")
}

/// Writes what is told of a graph, or that there is none.
fn write_graph(alloc: Global, out: &mut Text, graph: Option<Graph>) -> Mem<()> {
    match graph {
        Some(graph) => {
            let components = Components::of(alloc, graph)?;
            write_components(alloc, out, &components)
        }
        None => out.push_str("no graph\n"),
    }
}

/// Writes the answer to a row.
fn write_row(alloc: Global, out: &mut Text, row: &str) -> Mem<()> {
    let (kind, nodes) = row.split_once(" ").unwrap_or((row, ""));
    match kind {
        "written" => write_graph(alloc, out, written(alloc, nodes)?),
        "listed" => write_graph(alloc, out, listed(alloc, nodes)?),
        "chain" => write_graph(alloc, out, chain(alloc, nodes)?),
        _ => {
            out.push_str("no row: ")?;
            out.push_str(row)?;
            out.push_str("\n")
        }
    }
}

/// The rows of graphs.
#[derive(Clone, Copy)]
struct GraphRows;

impl Answers for GraphRows {
    fn write(&self, alloc: Global, out: &mut Text, asked: &str) -> Mem<()> {
        write_row(alloc, out, asked)
    }
}

fn main(rt: HostRuntime) -> ExitCode {
    answer_rows(rt.alloc(), rt.stdin(), rt.stdout(), &GraphRows)
}
