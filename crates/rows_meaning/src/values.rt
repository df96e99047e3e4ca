//! The lines of a text: which members its types have, what its values denote, and which of its types accept that.
//!
//! `Person has name, age?` tells the members, those that may be absent with a mark. `v = 5 = w: Digit yes, Upper fits, Flag no` tells that
//! the value `v` denotes 5, that the value `w` before it denotes the same tree, and of each type definition without parameters whether
//! it accepts the tree: `fits` where the tree has the type's shape, and a constraint or a character stands against it; `unknown` where
//! a name leads nowhere, or the question wants memory, as where its steps are used up. A value may denote nothing, or it may be unknown
//! what.

use crate::steps::{STEPS, says_steps, steps_of};
use crate::value_trees::{either, write_tree};
use asn_judge::{judge, same_tree};
use asn_meaning_heads::{Place, Scope, TypeForm, ValueForm, head};
use asn_meaning_shapes::{Answer, Member, Tree, fits, members_of};
use asn_meaning_values::{Denotation, denotes};
use asn_memory::{List, Mem, Text};
use asn_names_index::Names;
use asn_tree::{ASN1Type, ToplevelDefinition, ToplevelTypeDefinition, ToplevelValueDefinition};
use rows_trees::TellsDefinitions;
use std::alloc::Global;

// ---- which definitions are asked about

/// The type definition that it is, where it has no parameters.
fn type_in(definition: &ToplevelDefinition) -> Option<&ToplevelTypeDefinition> {
    match definition {
        ToplevelDefinition::TypeDef(definition) => match &definition.parameterization {
            Some(_) => None,
            None => Some(definition),
        },
        ToplevelDefinition::Value(_) => None,
        ToplevelDefinition::Information(_) => None,
    }
}

/// The value definition that it is, where it has no parameters and does not say how many steps there are.
fn value_in(definition: &ToplevelDefinition) -> Option<&ToplevelValueDefinition> {
    match definition {
        ToplevelDefinition::Value(definition) => {
            if definition.parameterization.is_some() || says_steps(definition) {
                None
            } else {
                Some(definition)
            }
        }
        ToplevelDefinition::TypeDef(_) => None,
        ToplevelDefinition::Information(_) => None,
    }
}

/// The type as it is read outside templates.
fn place_of<'a>(ty: &'a ASN1Type) -> Place<'a> {
    Place {
        scope: Scope::Empty,
        ty: TypeForm::Written(ty),
    }
}

// ---- members

fn write_names(out: &mut Text, members: &[Member<'_>]) -> Mem<()> {
    let mut first = true;
    for member in members {
        out.push_str(either(first, " has ", ", "))?;
        out.push_str(member.written.name.as_str())?;
        out.push_str(either(member.may_be_absent(), "?", ""))?;
        first = false;
    }
    Ok(())
}

/// The members of a type, where its head has some, and that is found.
fn members_in<'a>(
    alloc: Global,
    names: &Names<'a>,
    steps: usize,
    ty: &'a ASN1Type,
) -> Option<List<Member<'a>>> {
    match head(alloc, names, steps, &place_of(ty)) {
        Ok(Some(head)) => match members_of(alloc, names, steps, &head) {
            Ok(members) => members,
            Err(_) => None,
        },
        Ok(None) => None,
        Err(_) => None,
    }
}

/// Writes the line of a type's members, where it has some.
fn write_line_of_members<'a>(
    alloc: Global,
    out: &mut Text,
    names: &Names<'a>,
    steps: usize,
    definition: &'a ToplevelTypeDefinition,
) -> Mem<()> {
    match members_in(alloc, names, steps, &definition.ty) {
        None => Ok(()),
        Some(members) => {
            out.push_str(definition.name.as_str())?;
            write_names(out, members.as_slice())?;
            out.push_str("\n")
        }
    }
}

/// Writes the lines of members.
fn write_members<'a>(
    alloc: Global,
    out: &mut Text,
    definitions: &'a [ToplevelDefinition],
    names: &Names<'a>,
    steps: usize,
) -> Mem<()> {
    for definition in definitions {
        match type_in(definition) {
            None => {}
            Some(definition) => write_line_of_members(alloc, out, names, steps, definition)?,
        }
    }
    Ok(())
}

// ---- answers

/// What is said of a tree that a type does not accept.
fn rejected<'a>(
    alloc: Global,
    names: &Names<'a>,
    steps: usize,
    ty: &'a ASN1Type,
    tree: &Tree,
) -> &'static str {
    match fits(alloc, names, steps, &place_of(ty), tree) {
        Ok(Answer::Yes) => " fits",
        Ok(Answer::No) => " no",
        Ok(Answer::Unknown) => " no",
        Err(_) => " no",
    }
}

/// What a type says of a tree.
fn answered<'a>(
    alloc: Global,
    names: &Names<'a>,
    steps: usize,
    ty: &'a ASN1Type,
    tree: &Tree,
) -> &'static str {
    match judge(alloc, names, steps, ty, tree) {
        Ok(Answer::Yes) => " yes",
        Ok(Answer::No) => rejected(alloc, names, steps, ty, tree),
        Ok(Answer::Unknown) => " unknown",
        Err(_) => " unknown",
    }
}

/// Writes what each type says of a tree.
fn write_answers<'a>(
    alloc: Global,
    out: &mut Text,
    definitions: &'a [ToplevelDefinition],
    names: &Names<'a>,
    steps: usize,
    tree: &Tree,
) -> Mem<()> {
    let mut first = true;
    for definition in definitions {
        match type_in(definition) {
            None => {}
            Some(definition) => {
                out.push_str(either(first, ": ", ", "))?;
                out.push_str(definition.name.as_str())?;
                out.push_str(answered(alloc, names, steps, &definition.ty, tree))?;
                first = false;
            }
        }
    }
    Ok(())
}

// ---- values

/// What a value denotes under its governor; nothing is known of it where the question wants memory.
fn denoted<'a>(
    alloc: Global,
    names: &Names<'a>,
    definition: &'a ToplevelValueDefinition,
) -> Denotation<Tree> {
    let value = ValueForm::Written(&definition.value);
    let place = place_of(&definition.associated_type);
    match denotes(alloc, names, STEPS, &Scope::Empty, value, &place) {
        Ok(found) => found,
        Err(_) => Denotation::Unsure,
    }
}

/// Whether a value denotes the tree.
fn is_denoted<'a>(
    alloc: Global,
    names: &Names<'a>,
    definition: &'a ToplevelValueDefinition,
    tree: &Tree,
) -> bool {
    match denoted(alloc, names, definition) {
        Denotation::Denoted(other) => same_tree(&other, tree),
        Denotation::Nothing => false,
        Denotation::Unsure => false,
    }
}

/// Writes a value's name where it denotes the tree.
fn write_same<'a>(
    alloc: Global,
    out: &mut Text,
    names: &Names<'a>,
    definition: &'a ToplevelValueDefinition,
    tree: &Tree,
) -> Mem<()> {
    if is_denoted(alloc, names, definition, tree) {
        out.push_str(" = ")?;
        out.push_str(definition.name.as_str())?;
    }
    Ok(())
}

/// Writes the names of the values that denote the tree, of the first so many definitions.
fn write_all_same<'a>(
    alloc: Global,
    out: &mut Text,
    definitions: &'a [ToplevelDefinition],
    names: &Names<'a>,
    number: usize,
    tree: &Tree,
) -> Mem<()> {
    for definition in definitions.iter().take(number) {
        match value_in(definition) {
            None => {}
            Some(definition) => write_same(alloc, out, names, definition, tree)?,
        }
    }
    Ok(())
}

/// Writes what is said of a value that stands behind so many definitions.
fn write_denoted<'a>(
    alloc: Global,
    out: &mut Text,
    definitions: &'a [ToplevelDefinition],
    names: &Names<'a>,
    steps: usize,
    number: usize,
    denoted: &Denotation<Tree>,
) -> Mem<()> {
    match denoted {
        Denotation::Denoted(tree) => {
            out.push_str(" = ")?;
            write_tree(alloc, out, tree)?;
            write_all_same(alloc, out, definitions, names, number, tree)?;
            write_answers(alloc, out, definitions, names, steps, tree)
        }
        Denotation::Nothing => out.push_str(" is nothing"),
        Denotation::Unsure => out.push_str(" is unknown"),
    }
}

/// Writes the line of a value that stands behind so many definitions.
fn write_value<'a>(
    alloc: Global,
    out: &mut Text,
    definitions: &'a [ToplevelDefinition],
    names: &Names<'a>,
    steps: usize,
    number: usize,
    definition: &'a ToplevelValueDefinition,
) -> Mem<()> {
    out.push_str(definition.name.as_str())?;
    let denoted = denoted(alloc, names, definition);
    write_denoted(alloc, out, definitions, names, steps, number, &denoted)?;
    out.push_str("\n")
}

/// Writes the lines of values.
fn write_values<'a>(
    alloc: Global,
    out: &mut Text,
    definitions: &'a [ToplevelDefinition],
    names: &Names<'a>,
    steps: usize,
) -> Mem<()> {
    for (number, definition) in definitions.iter().enumerate() {
        match value_in(definition) {
            None => {}
            Some(definition) => write_value(
                alloc,
                out,
                definitions,
                names,
                steps,
                number,
                definition,
            )?,
        }
    }
    Ok(())
}

/// What is told of values.
#[derive(Clone, Copy)]
pub(crate) struct Values;

impl TellsDefinitions for Values {
    /// Writes the lines of members, and behind them those of values.
    fn tell(
        &self,
        alloc: Global,
        out: &mut Text,
        definitions: &List<ToplevelDefinition>,
    ) -> Mem<()> {
        let names = Names::new(alloc, definitions)?;
        let definitions = definitions.as_slice();
        let steps = steps_of(definitions);
        write_members(alloc, out, definitions, &names, steps)?;
        write_values(alloc, out, definitions, &names, steps)
    }
}
