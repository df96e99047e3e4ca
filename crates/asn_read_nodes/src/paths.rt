//! The names that lead to a value.

ghost use Rattle.asn_read_nodes.specs.Parts.{name_of};
ghost use Rattle.asn_read_nodes.specs.Paths.{joined, parent_of, step_of, steps_in, with_step};
ghost use Rattle.asn_rules.specs.Children.{Is, StandsBy};
ghost use Rattle.asn_rules.specs.Whole.{whole_rules};
ghost use Rattle.asn_rules.specs.declared.names.TheConstants.{PATH_STEP, VALUE_PATH};
ghost use Rattle.std.specs.Prelude.{◌≡◌, All, IfOk, Some};

use crate::names::{children, read_name};
use asn_memory::{List, Mem, Text};
use asn_rules::{Node, names};
use std::alloc::Global;

/// The name in a step of a path.
#[tactic(auto, using(crate::proofs::Views::step_has_name, crate::proofs::Views::identifier_has_blanks))]
fn read_step(alloc: Global, text: &[u8], node: &Node) -> Mem<Text>
    requires { Is whole_rules text.now PATH_STEP node.now }
    ensures { IfOk result (λ name. step_of text.now node.now ≡ Some name) }
{
    read_name(alloc, text, node.the_child(names::IDENTIFIER))
}

/// The names in the steps among the nodes.
#[tactic(auto, using(crate::proofs::Views::as_rule, crate::proofs::Equations::takes_next, crate::proofs::Equations::passes_next))]
fn read_steps(alloc: Global, text: &[u8], nodes: &[Node]) -> Mem<List<Text>>
    requires { All (StandsBy whole_rules text.now) nodes.now }
    ensures { IfOk result (λ steps. steps_in text.now nodes.now ≡ Some steps) }
{
    let mut steps = List::new(alloc);
    for node in nodes {
        if node.rule == names::PATH_STEP {
            steps.add(read_step(alloc, text, node)?)?;
        }
    }
    Ok(steps)
}

/// The path with a further step.
fn with_step(alloc: Global, path: Option<Text>, step: &str) -> Mem<Text>
    ensures { IfOk result (λ longer. with_step path step.now ≡ Some longer) }
{
    match path {
        Some(path) => {
            let mut longer = path;
            longer.push_str(".&")?;
            longer.push_str(step)?;
            Ok(longer)
        }
        None => Text::new(alloc, step),
    }
}

/// The steps joined by `.&`; None where there are none.
///
/// Err: want of memory.
pub fn join_steps(alloc: Global, steps: &[Text]) -> Mem<Option<Text>>
    ensures { IfOk result (λ path. path ≡ joined steps.now) }
{
    let mut path = None;
    for step in steps {
        path = Some(with_step(alloc, path, step.as_str())?);
    }
    Ok(path)
}

/// What stands before the last dot of a path: the names of its steps joined by `.&`; None where it has no step.
pub fn read_parent(alloc: Global, text: &[u8], node: &Node) -> Mem<Option<Text>>
    requires { Is whole_rules text.now VALUE_PATH node.now }
    ensures { IfOk result (λ parent. parent_of text.now node.now ≡ Some parent) }
{
    let steps = read_steps(alloc, text, children(text, node))?;
    Ok(join_steps(alloc, steps.as_slice())?)
}
