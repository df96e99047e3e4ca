//! Which definitions lead to no circle.

ghost use Rattle.asn_names_circles.specs.Circles.{EachTold, FreeAre, IsCircular, IsGentle, leading, opening, templates_among};
ghost use Rattle.asn_names_circles.specs.inner.Nodes.{AreCircular, IsAnyBack, IsBack, IsCircularAt};
ghost use Rattle.asn_names_graph.specs.Graphs.{IsNode};
ghost use Rattle.asn_names_index.specs.Definitions.{IsStanding};
ghost use Rattle.asn_names_graph.specs.Drawn.{Ascend, IsDrawn};
ghost use Rattle.asn_names_references.specs.References.{references_of};
ghost use Rattle.asn_tree.specs.Calls.{name_of};
ghost use Rattle.std.specs.Prelude.{◌≡◌, ◌↔◌, ◌+◌, IfOk, IsTrue, length, map};

use crate::asking::asking_nodes;
use crate::drawing::{components_of, mentions_of};
use crate::leading::{leading_of, opening};
use crate::templates::templates_of;
use asn_meaning_unchanged::is_unchanged;
use asn_memory::{List, Mem, Text};
use asn_names_graph::{Components, free_nodes, names_of, place_of};
use asn_names_index::Names;
use asn_tree::ToplevelDefinition;
use std::alloc::Global;

/// Whether the node of a name is of one component with this one.
fn is_back(components: &Components, names: &[&Text], node: usize, name: &Text) -> bool
    requires ascend { Ascend (map (λ n. n.now) names.now) }
    requires long { length names.now + 1 ≡ length components.now.edges.starts }
    requires node { IsNode components.now.edges node }
    ensures { IsTrue result ↔ IsBack components.now.edges (map (λ n. n.now) names.now) node name.now }
{
    match place_of(names, name) {
        Some(place) => {
            let here = components.component(node);
            let there = components.component(place);
            if here == there { true } else { false }
        }
        None => false,
    }
}

/// Whether that of one of these names is.
fn is_any_back(components: &Components, names: &[&Text], node: usize, several: &[&Text]) -> bool
    requires ascend { Ascend (map (λ n. n.now) names.now) }
    requires long { length names.now + 1 ≡ length components.now.edges.starts }
    requires node { IsNode components.now.edges node }
    ensures { IsTrue result ↔ IsAnyBack components.now.edges (map (λ n. n.now) names.now) node (map (λ n. n.now) several.now) }
{
    for name in several {
        if is_back(components, names, node, name) {
            return true;
        }
    }
    false
}

/// Whether a name by which one may come from a definition to any name is of one component with its node.
fn is_led_back(
    alloc: Global,
    components: &Components,
    names: &[&Text],
    node: usize,
    definition: &ToplevelDefinition,
    is_gentle: bool,
) -> Mem<bool>
    requires ascend { Ascend (map (λ n. n.now) names.now) }
    requires long { length names.now + 1 ≡ length components.now.edges.starts }
    requires node { IsNode components.now.edges node }
    ensures { IfOk result (λ told. IsTrue told ↔ IsAnyBack components.now.edges (map (λ n. n.now) names.now) node (opening is_gentle definition.now)) }
{
    let several = opening(alloc, definition, is_gentle)?;
    Ok(is_any_back(components, names, node, several.as_slice()))
}

/// Whether linking changes the definition of a node, which is on a cycle of the graph of what leads on, or is led back to.
fn is_circular(
    alloc: Global,
    on: &Components,
    components: &Components,
    names: &[&Text],
    node: usize,
    definition: &ToplevelDefinition,
    is_gentle: bool,
) -> Mem<bool>
    requires ascend { Ascend (map (λ n. n.now) names.now) }
    requires long { length names.now + 1 ≡ length components.now.edges.starts }
    requires node { IsNode components.now.edges node }
    requires on { IsNode on.now.edges node }
    ensures { IfOk result (λ told. IsTrue told ↔ IsCircularAt on.now.edges components.now.edges (map (λ n. n.now) names.now) node is_gentle definition.now) }
{
    if is_unchanged(definition) {
        Ok(false)
    } else if on.needs_itself(node) {
        Ok(true)
    } else {
        let told = is_led_back(alloc, components, names, node, definition, is_gentle)?;
        Ok(told)
    }
}

/// This of each node; it is told of each whether its definition is gentle.
fn circular_nodes(
    alloc: Global,
    on: &Components,
    components: &Components,
    names: &[&Text],
    definitions: &[&ToplevelDefinition],
    gentle: &[bool],
) -> Mem<List<bool>>
    requires ascend { Ascend (map (λ n. n.now) names.now) }
    requires named { length names.now ≡ length definitions.now }
    requires gentle { length gentle.now ≡ length definitions.now }
    requires long { length definitions.now + 1 ≡ length components.now.edges.starts }
    requires on { length definitions.now + 1 ≡ length on.now.edges.starts }
    ensures { IfOk result (λ marked. AreCircular on.now.edges components.now.edges (map (λ n. n.now) names.now) (map (λ d. d.now) definitions.now) gentle.now marked) }
{
    let mut marked = List::new(alloc);
    for (node, definition) in definitions.iter().enumerate() {
        let told = is_circular(alloc, on, components, names, node, definition, gentle[node])?;
        marked.add(told)?;
    }
    Ok(marked)
}

/// For each definition whether it is gentle; `templates` is the graph of the templates to which definitions refer.
fn gentle_nodes<'t>(
    alloc: Global,
    index: &Names<'t>,
    standing: &[&'t ToplevelDefinition],
    templates: &Components,
) -> Mem<List<bool>>
    requires standing { IsStanding index.now.definitions.now (map (λ d. d.now) standing.now) }
    requires drawn { IsDrawn (map name_of (map (λ d. d.now) standing.now)) (map (λ d. templates_among index.now.definitions.now (references_of d)) (map (λ d. d.now) standing.now)) templates.now.edges }
    ensures { IfOk result (λ gentle. EachTold (IsGentle index.now.definitions.now) (map name_of (map (λ d. d.now) standing.now)) gentle) }
{
    let asking = asking_nodes(alloc, index, standing)?;
    let gentle = free_nodes(alloc, templates, asking.as_slice())?;
    Ok(gentle)
}

/// For each definition whether it is circular; `components` is the graph of the names to which definitions refer, `templates` of the templates
/// among them, and `on` of those to which definitions lead on.
fn circular<'t>(
    alloc: Global,
    index: &Names<'t>,
    standing: &[&'t ToplevelDefinition],
    names: &[&Text],
    on: &Components,
    templates: &Components,
    components: &Components,
) -> Mem<List<bool>>
    requires standing { IsStanding index.now.definitions.now (map (λ d. d.now) standing.now) }
    requires named { map (λ n. n.now) names.now ≡ map name_of (map (λ d. d.now) standing.now) }
    requires on { IsDrawn (map name_of (map (λ d. d.now) standing.now)) (map (leading index.now.definitions.now) (map (λ d. d.now) standing.now)) on.now.edges }
    requires templates { IsDrawn (map name_of (map (λ d. d.now) standing.now)) (map (λ d. templates_among index.now.definitions.now (references_of d)) (map (λ d. d.now) standing.now)) templates.now.edges }
    requires drawn { IsDrawn (map name_of (map (λ d. d.now) standing.now)) (map references_of (map (λ d. d.now) standing.now)) components.now.edges }
    ensures { IfOk result (λ marked. EachTold (IsCircular index.now.definitions.now) (map name_of (map (λ d. d.now) standing.now)) marked) }
{
    let gentle = gentle_nodes(alloc, index, standing, templates)?;
    let marked = circular_nodes(alloc, on, components, names, standing, gentle.as_slice())?;
    Ok(marked)
}

/// For each of the definitions that stand, in their order, whether it leads to no circle: neither it nor any that it leads to is
/// circular. A name is circular where linking changes its definition, and it leads on to itself, or a name by which one may come to any name
/// is in a circle with it. It leads on by the name that its type is (X.680 clause 17), by those that are asked for in it
/// (`asn_names_references::asked`), and by the templates to which it refers (X.683 clause 9); a definition of no type by every name but items of
/// object sets, and but a class that is the type of a class's field. One may come to any name by a selection (X.680 clause 30), and, where the definition
/// refers to a template that asks for what a dummy stands for, at once or through templates, by what it follows
/// (`asn_names_references::followed`). `standing` is what `Names::standing` gives of `names`. The work is linear in the names that definitions mention,
/// but for a search by halves for each, for the dummies of a template, each of which is looked for among its names, and for names that
/// lead to each other, whose edges may be gone over more than twice.
///
/// # Errors
///
/// Want of memory.
pub fn free_of_circles<'t>(
    alloc: Global,
    names: &Names<'t>,
    standing: &[&'t ToplevelDefinition],
) -> Mem<List<bool>>
    requires { IsStanding names.now.definitions.now (map (λ d. d.now) standing.now) }
    ensures { IfOk result (λ free. FreeAre names.now.definitions.now (map (λ d. name_of d.now) standing.now) free) }
{
    let all = names_of(alloc, standing)?;
    let mentions = mentions_of(alloc, standing)?;
    let templates = templates_of(alloc, names, mentions.as_slice())?;
    let through_templates = components_of(alloc, all.as_slice(), templates.as_slice())?;
    let components = components_of(alloc, all.as_slice(), mentions.as_slice())?;
    let leading = leading_of(alloc, names, standing)?;
    let on = components_of(alloc, all.as_slice(), leading.as_slice())?;
    let circular = circular(
        alloc,
        names,
        standing,
        all.as_slice(),
        &on,
        &through_templates,
        &components,
    )?;
    let free = free_nodes(alloc, &components, circular.as_slice())?;
    Ok(free)
}
