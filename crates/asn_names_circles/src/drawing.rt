//! Graphs of names, written down definition by definition.

ghost use Rattle.asn_names_graph.specs.Drawn.{Ascend, IsDrawn};
ghost use Rattle.asn_names_references.specs.References.{references_of};
ghost use Rattle.std.specs.Prelude.{◌≡◌, IfOk, length, map};

use asn_memory::{List, Mem, Text};
use asn_names_graph::{Components, GraphBuilder, add_mentions, finished};
use asn_names_references::references;
use asn_tree::ToplevelDefinition;
use std::alloc::Global;

/// The names that each definition mentions.
pub(crate) fn mentions_of<'t>(
    alloc: Global,
    definitions: &[&'t ToplevelDefinition],
) -> Mem<List<List<&'t Text>>>
    ensures { IfOk result (λ lists. map (map (λ n. n.now)) lists ≡ map references_of (map (λ d. d.now) definitions.now)) }
{
    let mut lists = List::new(alloc);
    for definition in definitions {
        lists.add(references(alloc, definition)?)?;
    }
    Ok(lists)
}

/// A node for each list of names, with an edge to each name in it that stands among the names.
fn draw(alloc: Global, names: &[&Text], lists: &[List<&Text>]) -> Mem<GraphBuilder>
    requires { Ascend (map (λ n. n.now) names.now) }
    ensures { IfOk result (λ g. IsDrawn (map (λ n. n.now) names.now) (map (map (λ n. n.now)) lists.now) g) }
{
    let mut builder = GraphBuilder::new(alloc)?;
    for mentioned in lists {
        add_mentions(&mut builder, names, mentioned.as_slice())?;
    }
    Ok(builder)
}

/// The components of the graph of names in which each name has an edge to those names that are in the list at its place.
pub(crate) fn components_of(
    alloc: Global,
    names: &[&Text],
    lists: &[List<&Text>],
) -> Mem<Components>
    requires ascend { Ascend (map (λ n. n.now) names.now) }
    requires long { length lists.now ≡ length names.now }
    ensures { IfOk result (λ c. IsDrawn (map (λ n. n.now) names.now) (map (map (λ n. n.now)) lists.now) c.edges) }
{
    let builder = draw(alloc, names, lists)?;
    let components = Components::of(alloc, finished(builder))?;
    Ok(components)
}
