//! The graph of the names that stay, written down definition by definition, and which of its nodes are open.

ghost use Rattle.asn_link_closed.specs.Closed.{are_open, left_in};
ghost use Rattle.asn_names_graph.specs.Drawn.{AddsNode, Ascend, IsDrawn};
ghost use Rattle.std.specs.Prelude.{◌≡◌, IfOk, OnOk, length, map};

use crate::left::{is_open, names_left, plain_names};
use asn_memory::{Mem, Text};
use asn_names_graph::{Graph, GraphBuilder, add_mentions, finished};
use asn_tree::{ASN1Type, ToplevelDefinition};
use std::alloc::Global;

/// Begins the node of a definition, with an edge to each name that stays in what was made of it and stands among the names.
fn add_made(
    alloc: Global,
    builder: &mut GraphBuilder,
    names: &[&Text],
    made: &Option<ASN1Type>,
) -> Mem<()>
    requires { Ascend (map (λ n. n.now) names.now) }
    ensures { OnOk result (AddsNode (map (λ n. n.now) names.now) (left_in made.now) builder.old builder.new) }
{
    let staying = names_left(alloc, made)?;
    let plain = plain_names(alloc, staying.as_slice())?;
    add_mentions(builder, names, plain.as_slice())?;
    Ok(())
}

/// A node for each definition, in their order.
fn draw(alloc: Global, names: &[&Text], made: &[Option<ASN1Type>]) -> Mem<GraphBuilder>
    requires { Ascend (map (λ n. n.now) names.now) }
    ensures { IfOk result (λ g. IsDrawn (map (λ n. n.now) names.now) (map left_in made.now) g) }
{
    let mut builder = GraphBuilder::new(alloc)?;
    for ty in made {
        add_made(alloc, &mut builder, names, ty)?;
    }
    Ok(builder)
}

/// The graph of the names that stay in what was made: a node for each name, and an edge to each of them that stays there.
pub(crate) fn graph_of(alloc: Global, names: &[&Text], made: &[Option<ASN1Type>]) -> Mem<Graph>
    requires ascending { Ascend (map (λ n. n.now) names.now) }
    requires long { length names.now ≡ length made.now }
    ensures { IfOk result (λ g. IsDrawn (map (λ n. n.now) names.now) (map left_in made.now) g) }
{
    let builder = draw(alloc, names, made)?;
    Ok(finished(builder))
}

/// For each definition, whether it is open.
///
/// Err: want of memory.
pub(crate) fn open_nodes(
    alloc: Global,
    definitions: &[&ToplevelDefinition],
    made: &[Option<ASN1Type>],
) -> Mem<Vec<bool>>
    requires { length definitions.now ≡ length made.now }
    ensures { IfOk result (λ told. told.items ≡ are_open (map (λ d. d.now) definitions.now) made.now) }
{
    let mut open = Vec::new(alloc);
    for (node, definition) in definitions.iter().enumerate() {
        open.push(is_open(alloc, definition, &made[node])?)?;
    }
    Ok(open)
}
