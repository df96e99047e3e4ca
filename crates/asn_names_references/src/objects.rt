//! The names in objects and object sets (X.681 clauses 11 and 12).

ghost use Rattle.asn_names_references.specs.References.{joined, names_in_field, names_in_fields, names_in_item, names_in_objects};
ghost use Rattle.std.specs.Prelude.{◌≡◌, ◌++◌, OnOk, map};

use crate::names::add_item_name;
use crate::types::{add_reference, add_type};
use crate::values::add_value;
use crate::wanted::{Wanted, within};
use asn_memory::{List, Mem, Text};
use asn_tree::{
    InformationObjectField, InformationObjectFields, ObjectSetValue, SyntaxApplication,
};

/// Adds the names in what an object gives (X.681 11.4).
#[cycle(naming)]
pub(crate) fn add_fields<'t>(
    out: &mut List<&'t Text>,
    fields: &'t InformationObjectFields,
    wanted: Wanted,
) -> Mem<()>
    ensures { OnOk result (map (λ n. n.now) out.new ≡ map (λ n. n.now) out.old ++ names_in_fields fields.now wanted) }
{
    match fields {
        InformationObjectFields::DefaultSyntax(fields) => add_each_field(
            out,
            fields.as_slice(),
            wanted,
        ),
        InformationObjectFields::CustomSyntax(items) => add_items(out, items.as_slice(), wanted),
    }
}

/// Adds those of fields, in their order.
#[cycle(naming)]
fn add_each_field<'t>(
    out: &mut List<&'t Text>,
    fields: &'t [InformationObjectField],
    wanted: Wanted,
) -> Mem<()>
    ensures { OnOk result (map (λ n. n.now) out.new ≡ map (λ n. n.now) out.old ++ joined (map names_in_field fields.now) wanted) }
{
    for field in fields {
        add_field(out, field, wanted)?;
    }
    Ok(())
}

/// Adds those of a field of an object (X.681 11.5).
#[cycle(naming)]
fn add_field<'t>(
    out: &mut List<&'t Text>,
    field: &'t InformationObjectField,
    wanted: Wanted,
) -> Mem<()>
    ensures { OnOk result (map (λ n. n.now) out.new ≡ map (λ n. n.now) out.old ++ names_in_field field.now wanted) }
{
    match field {
        InformationObjectField::TypeField(field) => add_type(out, &field.ty, wanted),
        InformationObjectField::FixedValueField(field) => add_value(out, &field.value, wanted),
        InformationObjectField::ObjectSetField(field) => {
            add_objects(out, field.value.values.as_slice(), wanted)
        }
    }
}

/// Adds those of the items of a class's own syntax, in their order.
#[cycle(naming)]
fn add_items<'t>(
    out: &mut List<&'t Text>,
    items: &'t [SyntaxApplication],
    wanted: Wanted,
) -> Mem<()>
    ensures { OnOk result (map (λ n. n.now) out.new ≡ map (λ n. n.now) out.old ++ joined (map names_in_item items.now) wanted) }
{
    for item in items {
        add_item(out, item, wanted)?;
    }
    Ok(())
}

/// Adds those of an item of a class's own syntax (X.681 11.6).
#[cycle(naming)]
fn add_item<'t>(out: &mut List<&'t Text>, item: &'t SyntaxApplication, wanted: Wanted) -> Mem<()>
    ensures { OnOk result (map (λ n. n.now) out.new ≡ map (λ n. n.now) out.old ++ names_in_item item.now wanted) }
{
    match item {
        SyntaxApplication::ObjectSetDeclaration(set) => add_objects(
            out,
            set.values.as_slice(),
            wanted,
        ),
        SyntaxApplication::ValueReference(value) => add_value(out, value, wanted),
        SyntaxApplication::TypeReference(ty) => add_type(out, ty, wanted),
        SyntaxApplication::Comma => Ok(()),
        SyntaxApplication::Literal(_) => Ok(()),
        SyntaxApplication::LiteralOrTypeReference(name) => add_reference(
            out,
            &name.parent,
            &name.identifier,
            name.constraints.as_slice(),
            wanted,
        ),
    }
}

/// Adds those of the items of an object set, in their order (X.681 12.3).
#[cycle(naming)]
pub(crate) fn add_objects<'t>(
    out: &mut List<&'t Text>,
    items: &'t [ObjectSetValue],
    wanted: Wanted,
) -> Mem<()>
    ensures { OnOk result (map (λ n. n.now) out.new ≡ map (λ n. n.now) out.old ++ names_in_objects items.now wanted) }
{
    for item in items {
        match item {
            ObjectSetValue::Reference(name) => add_item_name(out, name, wanted)?,
            ObjectSetValue::Inline(fields) => add_fields(out, fields, within(wanted))?,
        }
    }
    Ok(())
}
