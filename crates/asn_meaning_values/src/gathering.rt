//! Trees with parts, put together of what the parts denote.

ghost use Rattle.asn_meaning_values.specs.Denotation.{shown_denotation};
ghost use Rattle.asn_meaning_values.specs.inner.Gathering.{elements_of, shown_elements, shown_parts, struct_of, with_element, with_part};
ghost use Rattle.asn_meaning.specs.Answers.{made_of, together};
ghost use Rattle.asn_meaning.specs.ValueTrees.{Alternative};
ghost use Rattle.asn_meaning_shapes.specs.Trees.{shown_field, shown_tree};
ghost use Rattle.std.specs.Prelude.{◌≡◌, ◌++◌, ◌∷◌, [], IfOk, map};

use crate::denotation::Denotation;
use crate::making::{alternative_tree, elements_tree, made_field, struct_tree};
use asn_meaning_shapes::{Field, Tree};
use asn_memory::{Box, List, Mem, Text};
use std::alloc::Global;

/// The fields with one more at the end.
///
/// Err: want of memory.
#[tactic(auto, using(crate::proofs::Joining::one_field_more))]
fn add_field(alloc: Global, fields: List<Field>, name: &Text, tree: Tree) -> Mem<List<Field>>
    ensures { IfOk result (λ more. map shown_field more ≡ map shown_field fields ++ (name.now, shown_tree tree) ∷ []) }
{
    let mut fields = fields;
    let name = Text::new(alloc, name.as_str())?;
    fields.add(made_field(name, tree))?;
    Ok(fields)
}

/// The elements with one more at the end.
///
/// Err: want of memory.
#[tactic(auto, using(crate::proofs::Joining::one_element_more))]
fn add_element(elements: List<Tree>, tree: Tree) -> Mem<List<Tree>>
    ensures { IfOk result (λ more. map shown_tree more ≡ map shown_tree elements ++ shown_tree tree ∷ []) }
{
    let mut elements = elements;
    elements.add(tree)?;
    Ok(elements)
}

/// The fields before with one more: none where one of the parts denotes none, else unknown where one is unknown.
///
/// Err: want of memory.
pub fn with_part(
    alloc: Global,
    fields: Denotation<List<Field>>,
    name: &Text,
    part: Denotation<Tree>,
) -> Mem<Denotation<List<Field>>>
    ensures { IfOk result (λ more. shown_parts more ≡ together (with_part name.now) (shown_parts fields) (shown_denotation part)) }
{
    match fields {
        Denotation::Denoted(fields) => match part {
            Denotation::Denoted(tree) => {
                let more = add_field(alloc, fields, name, tree)?;
                Ok(Denotation::Denoted(more))
            }
            Denotation::Nothing => Ok(Denotation::Nothing),
            Denotation::Unsure => Ok(Denotation::Unsure),
        },
        Denotation::Nothing => Ok(Denotation::Nothing),
        Denotation::Unsure => match part {
            Denotation::Denoted(_) => Ok(Denotation::Unsure),
            Denotation::Nothing => Ok(Denotation::Nothing),
            Denotation::Unsure => Ok(Denotation::Unsure),
        },
    }
}

/// The elements before with one more, as `with_part`.
///
/// Err: want of memory.
pub fn with_element(
    elements: Denotation<List<Tree>>,
    part: Denotation<Tree>,
) -> Mem<Denotation<List<Tree>>>
    ensures { IfOk result (λ more. shown_elements more ≡ together with_element (shown_elements elements) (shown_denotation part)) }
{
    match elements {
        Denotation::Denoted(elements) => match part {
            Denotation::Denoted(tree) => {
                let more = add_element(elements, tree)?;
                Ok(Denotation::Denoted(more))
            }
            Denotation::Nothing => Ok(Denotation::Nothing),
            Denotation::Unsure => Ok(Denotation::Unsure),
        },
        Denotation::Nothing => Ok(Denotation::Nothing),
        Denotation::Unsure => match part {
            Denotation::Denoted(_) => Ok(Denotation::Unsure),
            Denotation::Nothing => Ok(Denotation::Nothing),
            Denotation::Unsure => Ok(Denotation::Unsure),
        },
    }
}

/// The struct of these fields.
pub fn struct_of(fields: Denotation<List<Field>>) -> Denotation<Tree>
    ensures { shown_denotation result ≡ made_of struct_of (shown_parts fields) }
{
    match fields {
        Denotation::Denoted(fields) => Denotation::Denoted(struct_tree(fields)),
        Denotation::Nothing => Denotation::Nothing,
        Denotation::Unsure => Denotation::Unsure,
    }
}

/// The list of these elements.
pub fn elements_of(elements: Denotation<List<Tree>>) -> Denotation<Tree>
    ensures { shown_denotation result ≡ made_of elements_of (shown_elements elements) }
{
    match elements {
        Denotation::Denoted(elements) => Denotation::Denoted(elements_tree(elements)),
        Denotation::Nothing => Denotation::Nothing,
        Denotation::Unsure => Denotation::Unsure,
    }
}

/// The alternative of this name.
///
/// Err: want of memory.
pub fn alternative_of(alloc: Global, name: &Text, inner: Denotation<Tree>) -> Mem<Denotation<Tree>>
    ensures { IfOk result (λ made. shown_denotation made ≡ made_of (Alternative name.now) (shown_denotation inner)) }
{
    match inner {
        Denotation::Denoted(tree) => {
            let name = Text::new(alloc, name.as_str())?;
            let tree = Box::new(alloc, tree)?;
            Ok(Denotation::Denoted(alternative_tree(name, tree)))
        }
        Denotation::Nothing => Ok(Denotation::Nothing),
        Denotation::Unsure => Ok(Denotation::Unsure),
    }
}
