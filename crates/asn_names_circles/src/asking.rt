//! Which templates ask for what a dummy stands for.

ghost use Rattle.asn_names_circles.specs.Circles.{is_asking, is_gone_to};
ghost use Rattle.std.specs.List.{list_any};
ghost use Rattle.std.specs.Prelude.{◌≡◌, IfOk, map};
ghost use Rattle.std.specs.Str.{bytes_eq};

use crate::leading::gone_to;
use crate::templates::parameters;
use asn_memory::{List, Mem, Text};
use asn_names_index::Names;
use asn_tree::{ParameterGovernor, ParameterizationArgument, ToplevelDefinition};
use std::alloc::Global;

/// Whether the name is among the names.
fn is_among(names: &[&Text], name: &Text) -> bool
    ensures { result ≡ list_any (bytes_eq name.now) (map (λ n. n.now) names.now) }
{
    for other in names {
        if name.as_str() == other.as_str() {
            return true;
        }
    }
    false
}

/// Whether a dummy that stands for a type or a class is among the names.
fn is_gone_to(names: &[&Text], dummy: &ParameterizationArgument) -> bool
    ensures { result ≡ is_gone_to (map (λ n. n.now) names.now) dummy.now }
{
    match &dummy.param_governor {
        ParameterGovernor::None => is_among(names, &dummy.dummy_reference),
        ParameterGovernor::TypeOrClass(_) => false,
        ParameterGovernor::Class(_) => false,
    }
}

/// Whether one of these dummies is.
fn is_any_gone_to(names: &[&Text], dummies: &[ParameterizationArgument]) -> bool
    ensures { result ≡ list_any (is_gone_to (map (λ n. n.now) names.now)) dummies.now }
{
    for dummy in dummies {
        if is_gone_to(names, dummy) {
            return true;
        }
    }
    false
}

/// Whether the definition is a template that asks for a dummy.
fn is_asking(alloc: Global, index: &Names<'_>, definition: &ToplevelDefinition) -> Mem<bool>
    ensures { IfOk result (λ asks. asks ≡ is_asking index.now.definitions.now definition.now) }
{
    match parameters(definition) {
        None => Ok(false),
        Some(parameters) => {
            let names = gone_to(alloc, index, definition)?;
            Ok(is_any_gone_to(names.as_slice(), parameters.parameters.as_slice()))
        }
    }
}

/// This of each definition.
pub(crate) fn asking_nodes(
    alloc: Global,
    index: &Names<'_>,
    definitions: &[&ToplevelDefinition],
) -> Mem<List<bool>>
    ensures { IfOk result (λ told. told ≡ map (is_asking index.now.definitions.now) (map (λ d. d.now) definitions.now)) }
{
    let mut told = List::new(alloc);
    for definition in definitions {
        told.add(is_asking(alloc, index, definition)?)?;
    }
    Ok(told)
}
