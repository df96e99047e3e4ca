//! Templates: the definitions with dummies (X.683 8.2), and which names are theirs.

ghost use Rattle.asn_names_circles.specs.Circles.{is_template, parameters_of, templates_among};
ghost use Rattle.asn_names_index.specs.Definitions.{last_named};
ghost use Rattle.std.specs.Prelude.{◌≡◌, IfOk, map};

use asn_memory::{List, Mem, Text};
use asn_names_index::Names;
use asn_tree::{Parameterization, ToplevelDefinition};
use std::alloc::Global;

/// The dummies of a definition; None where it is no template.
pub(crate) fn parameters(definition: &ToplevelDefinition) -> &Option<Parameterization>
    ensures { result.now ≡ parameters_of definition.now }
{
    match definition {
        ToplevelDefinition::TypeDef(definition) => &definition.parameterization,
        ToplevelDefinition::Value(definition) => &definition.parameterization,
        ToplevelDefinition::Information(definition) => &definition.parameterization,
    }
}

/// Whether the name stands for a template.
fn is_template(names: &Names<'_>, name: &Text) -> bool
    ensures { result ≡ is_template (last_named names.now.definitions.now name.now) }
{
    match names.last_named(name.as_str()) {
        Some(definition) => parameters(definition).is_some(),
        None => false,
    }
}

/// Those of the names that stand for templates, in their order.
pub(crate) fn templates_among<'t>(
    alloc: Global,
    names: &Names<'_>,
    several: &[&'t Text],
) -> Mem<List<&'t Text>>
    ensures { IfOk result (λ found. map (λ n. n.now) found ≡ templates_among names.now.definitions.now (map (λ n. n.now) several.now)) }
{
    let mut found = List::new(alloc);
    for name in several {
        if is_template(names, name) {
            found.add(*name)?;
        }
    }
    Ok(found)
}

/// For each of these lists of names those that stand for templates.
pub(crate) fn templates_of<'t>(
    alloc: Global,
    names: &Names<'_>,
    mentions: &[List<&'t Text>],
) -> Mem<List<List<&'t Text>>>
    ensures { IfOk result (λ lists. map (map (λ n. n.now)) lists ≡ map (templates_among names.now.definitions.now) (map (map (λ n. n.now)) mentions.now)) }
{
    let mut lists = List::new(alloc);
    for several in mentions {
        lists.add(templates_among(alloc, names, several.as_slice())?)?;
    }
    Ok(lists)
}
