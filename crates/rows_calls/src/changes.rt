//! What the calls that change trees make of definitions: their numbers, their tagging environments, and extension markers that are
//! set through the constraints which they lend.

use asn_calls::{ASN1TypeCalls, Constrainable, ToplevelDefinitionTagging};
use asn_check_listing::write_definition;
use asn_memory::{List, Mem, Text};
use asn_tree::{ASN1Type, Constraint, TaggingEnvironment, ToplevelDefinition};
use rows::push_decimal;
use std::alloc::Global;

/// Changes the definitions of a module, and writes what each is then.
pub(crate) fn write_changes(
    alloc: Global,
    out: &mut Text,
    home: usize,
    environment: TaggingEnvironment,
    definitions: &mut List<ToplevelDefinition>,
) -> Mem<()> {
    for place in 0..definitions.len() {
        if let Some(definition) = definitions.get_mut(place) {
            write_numbered(alloc, out, definition, home, place)?;
            definition.apply_tagging_environment(&environment);
            write_marked(alloc, out, definition)?;
        }
    }
    Ok(())
}

/// Numbers a definition, and writes its numbers before and after.
fn write_numbered(
    alloc: Global,
    out: &mut Text,
    definition: &mut ToplevelDefinition,
    home: usize,
    place: usize,
) -> Mem<()> {
    write_numbers(alloc, out, definition.get_index())?;
    out.push_str(" then ")?;
    definition.set_index(home, place);
    write_numbers(alloc, out, definition.get_index())?;
    out.push_str(" ")
}

fn write_numbers(alloc: Global, out: &mut Text, numbers: Option<(usize, usize)>) -> Mem<()> {
    match numbers {
        Some((home, place)) => {
            push_decimal(alloc, out, home)?;
            out.push_str(".")?;
            push_decimal(alloc, out, place)
        }
        None => out.push_str("no number"),
    }
}

/// Sets the marker of a type's first constraint and writes the definition, then takes it back and writes it again.
fn write_marked(alloc: Global, out: &mut Text, definition: &mut ToplevelDefinition) -> Mem<()> {
    set_marker_in(definition);
    write_definition(alloc, out, definition)?;
    if is_taken_back(definition) {
        out.push_str("    taken back ")?;
        write_definition(alloc, out, definition)?;
    }
    Ok(())
}

fn set_marker_in(definition: &mut ToplevelDefinition) {
    match definition {
        ToplevelDefinition::TypeDef(definition) => set_marker(&mut definition.ty),
        ToplevelDefinition::Value(_) | ToplevelDefinition::Information(_) => {}
    }
}

/// Marks the first constraint of the type.
fn set_marker(ty: &mut ASN1Type) {
    if let Some(constraints) = ty.constraints_mut() {
        mark(constraints, true);
    }
}

/// Sets the marker of the first constraint, or takes it back.
fn mark(constraints: &mut List<Constraint>, extensible: bool) {
    if let Some(constraint) = constraints.get_mut(0) {
        mark_constraint(constraint, extensible);
    }
}

fn mark_constraint(constraint: &mut Constraint, extensible: bool) {
    match constraint {
        Constraint::SubtypeConstraint(set) => set.extensible = extensible,
        _ => {}
    }
}

/// Takes the marker of a type's first constraint back by the trait of types with constraints. Whether the type has any.
fn is_taken_back(definition: &mut ToplevelDefinition) -> bool {
    match definition {
        ToplevelDefinition::TypeDef(definition) => take_back(&mut definition.ty),
        ToplevelDefinition::Value(_) | ToplevelDefinition::Information(_) => false,
    }
}

fn take_back(ty: &mut ASN1Type) -> bool {
    match ty {
        ASN1Type::Boolean(ty) => unmark(ty),
        ASN1Type::Integer(ty) => unmark(ty),
        ASN1Type::Real(ty) => unmark(ty),
        ASN1Type::Time(ty) => unmark(ty),
        ASN1Type::BitString(ty) => unmark(ty),
        ASN1Type::OctetString(ty) => unmark(ty),
        ASN1Type::CharacterString(ty) => unmark(ty),
        ASN1Type::Sequence(ty) => unmark(ty),
        ASN1Type::Set(ty) => unmark(ty),
        ASN1Type::SequenceOf(ty) => unmark(ty),
        ASN1Type::SetOf(ty) => unmark(ty),
        ASN1Type::Choice(ty) => unmark(ty),
        ASN1Type::Enumerated(ty) => unmark(ty),
        ASN1Type::ElsewhereDeclaredType(ty) => unmark(ty),
        ASN1Type::InformationObjectFieldReference(ty) => unmark(ty),
        _ => false,
    }
}

fn unmark<T: Constrainable>(ty: &mut T) -> bool {
    let is_constrained = !ty.constraints().is_empty();
    mark(ty.constraints_mut(), false);
    is_constrained
}
