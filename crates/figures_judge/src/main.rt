//! The program `figures_judge`: it reads a text on standard input and asks about its first type and its first value.
//!
//! All definitions of the text's modules, in order, are the definitions in sight. Of the first type definition without parameters it
//! writes whether its type has a head; of the first value definition, what kind of answer its value has, and where it denotes a tree,
//! whether the first type accepts that. Each question has four steps for each definition and a thousand more. `bench/judged.py` runs
//! it on growing texts.
#![tactic(auto)]

use asn_judge::judge;
use asn_meaning_heads::{Place, Scope, TypeForm, ValueForm, head};
use asn_meaning_shapes::{Answer, Tree};
use asn_meaning_values::{Denotation, denotes};
use asn_memory::{List, Mem, Text};
use asn_modules::asn_spec;
use asn_names_index::Names;
use asn_tree::{ToplevelDefinition, ToplevelTypeDefinition, ToplevelValueDefinition};
use rows::{Answers, answer_text};
use rows_trees::{TellsDefinitions, tell_definitions};
use std::alloc::Global;
use std::process::ExitCode;

/// The most calls of rules that may lie within each other.
const DEPTH: usize = 512;

/// The first type definition without parameters.
fn first_type(definitions: &[ToplevelDefinition]) -> Option<&ToplevelTypeDefinition> {
    for definition in definitions {
        match definition {
            ToplevelDefinition::TypeDef(definition) => {
                if definition.parameterization.is_none() {
                    return Some(definition);
                }
            }
            ToplevelDefinition::Value(_) => {}
            ToplevelDefinition::Information(_) => {}
        }
    }
    None
}

/// The first value definition.
fn first_value(definitions: &[ToplevelDefinition]) -> Option<&ToplevelValueDefinition> {
    for definition in definitions {
        match definition {
            ToplevelDefinition::Value(definition) => return Some(definition),
            ToplevelDefinition::TypeDef(_) => {}
            ToplevelDefinition::Information(_) => {}
        }
    }
    None
}

/// What is said of a type's head.
fn said_of_head<'a>(
    alloc: Global,
    names: &Names<'a>,
    steps: usize,
    definition: &'a ToplevelTypeDefinition,
) -> &'static str {
    let place = Place {
        scope: Scope::Empty,
        ty: TypeForm::Written(&definition.ty),
    };
    match head(alloc, names, steps, &place) {
        Ok(Some(_)) => "has a head",
        Ok(None) => "has no head",
        Err(_) => "wants memory",
    }
}

/// What a type says of a tree.
fn said_of_tree<'a>(
    alloc: Global,
    names: &Names<'a>,
    steps: usize,
    definition: &'a ToplevelTypeDefinition,
    tree: &Tree,
) -> &'static str {
    match judge(alloc, names, steps, &definition.ty, tree) {
        Ok(Answer::Yes) => "accepted",
        Ok(Answer::No) => "rejected",
        Ok(Answer::Unknown) => "unknown",
        Err(_) => "wants memory",
    }
}

/// What a value denotes under its governor.
fn denoted<'a>(
    alloc: Global,
    names: &Names<'a>,
    steps: usize,
    definition: &'a ToplevelValueDefinition,
) -> Mem<Denotation<Tree>> {
    let place = Place {
        scope: Scope::Empty,
        ty: TypeForm::Written(&definition.associated_type),
    };
    let value = ValueForm::Written(&definition.value);
    denotes(alloc, names, steps, &Scope::Empty, value, &place)
}

/// What is said of a value, and of what it denotes under the type.
fn said_of_value<'a>(
    alloc: Global,
    names: &Names<'a>,
    steps: usize,
    definition: &'a ToplevelTypeDefinition,
    value: &'a ToplevelValueDefinition,
) -> &'static str {
    match denoted(alloc, names, steps, value) {
        Ok(Denotation::Denoted(tree)) => said_of_tree(alloc, names, steps, definition, &tree),
        Ok(Denotation::Nothing) => "denotes nothing",
        Ok(Denotation::Unsure) => "denotes what is not known",
        Err(_) => "wants memory",
    }
}

/// What is told of the first type and the first value.
#[derive(Clone, Copy)]
struct Figures;

impl TellsDefinitions for Figures {
    fn tell(
        &self,
        alloc: Global,
        out: &mut Text,
        definitions: &List<ToplevelDefinition>,
    ) -> Mem<()> {
        let names = Names::new(alloc, definitions)?;
        let steps = definitions.len().saturating_mul(4).saturating_add(1000);
        out.push_str("the first type ")?;
        match first_type(definitions.as_slice()) {
            None => out.push_str("is none")?,
            Some(definition) => {
                out.push_str(said_of_head(alloc, &names, steps, definition))?;
                match first_value(definitions.as_slice()) {
                    None => {}
                    Some(value) => {
                        out.push_str(", the first value ")?;
                        out.push_str(said_of_value(alloc, &names, steps, definition, value))?;
                    }
                }
            }
        }
        out.push_str("\n")
    }
}

impl Answers for Figures {
    fn write(&self, alloc: Global, out: &mut Text, asked: &str) -> Mem<()> {
        tell_definitions(alloc, out, asn_spec(alloc, asked, DEPTH), self)
    }
}

fn main(rt: HostRuntime) -> ExitCode {
    answer_text(rt.alloc(), rt.stdin(), rt.stdout(), &Figures)
}
