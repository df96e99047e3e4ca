//! The graph of names, written down name by name.

ghost use Rattle.asn_names_graph.specs.Graphs.{HasEdge, IsNode};
ghost use Rattle.asn_names_graph.specs.Drawn.{AddsNode, Ascend};
ghost use Rattle.asn_names_graph.specs.inner.Edges.{AddsEdges};
ghost use Rattle.std.specs.Prelude.{◌≡◌, ◌∷◌, ℕ, [], OnOk, map};

use crate::builder::GraphBuilder;
use crate::graph::Graph;
use crate::places::place_of;
use asn_memory::{Mem, Text};

/// Adds an edge from the node that was begun last to the name, if it stands among the names.
fn add_reference(builder: &mut GraphBuilder, names: &[&Text], name: &Text) -> Mem<()>
    requires node { IsNode builder.old 0 }
    requires ascending { Ascend (map (λ n. n.now) names.now) }
    ensures { OnOk result (AddsEdges (map (λ n. n.now) names.now) (name.now ∷ []) builder.old builder.new) }
{
    match place_of(names, name) {
        Some(place) => {
            builder.add_edge(place)?;
            Ok(())
        }
        None => Ok(()),
    }
}

/// Adds an edge to each of the references that stands among the names.
fn add_references(builder: &mut GraphBuilder, names: &[&Text], references: &[&Text]) -> Mem<()>
    requires node { IsNode builder.old 0 }
    requires ascending { Ascend (map (λ n. n.now) names.now) }
    ensures { OnOk result (AddsEdges (map (λ n. n.now) names.now) (map (λ n. n.now) references.now) builder.old builder.new) }
{
    for reference in references {
        add_reference(builder, names, reference)?;
    }
    Ok(())
}

/// Begins the next name's node, with an edge to each name that it mentions and that stands among the names.
///
/// # Errors
///
/// Want of memory: then the node may stand with some of its edges, or not at all.
#[tactic(auto, using(crate::proofs::Added::node_added))]
pub fn add_mentions(builder: &mut GraphBuilder, names: &[&Text], mentioned: &[&Text]) -> Mem<()>
    requires { Ascend (map (λ n. n.now) names.now) }
    ensures { OnOk result (AddsNode (map (λ n. n.now) names.now) (map (λ n. n.now) mentioned.now) builder.old builder.new) }
{
    builder.add_node()?;
    add_references(builder, names, mentioned)?;
    Ok(())
}

/// The graph that was written down, all of whose edges lead to names.
pub fn finished(builder: GraphBuilder) -> Graph
    requires { (x y : ℕ) → HasEdge builder x y → IsNode builder y }
    ensures { result ≡ builder }
{
    match builder.finish() {
        Some(graph) => graph,
        None => unreachable!(),
    }
}
