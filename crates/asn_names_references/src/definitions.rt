//! The names in definitions (X.680 clause 16, X.681 clauses 9 to 12), with the governors of dummies (X.683 8.3).

ghost use Rattle.asn_names_references.specs.References.{asked_of, class_field_names, class_names, definition_names, dummy_names, entered_of, followed_of, governor_names, information_names, joined, link_names, names_in, parameter_names, present, references_of, selected_of};
ghost use Rattle.std.specs.Option.{option_map};
ghost use Rattle.std.specs.Prelude.{◌≡◌, ◌++◌, IfOk, OnOk, map};

use crate::names::add_name;
use crate::objects::{add_fields, add_objects};
use crate::types::add_type;
use crate::values::{add_optional_value, add_value};
use crate::wanted::Wanted;
use asn_memory::{List, Mem, Text};
use asn_tree::{
    ASN1Information, ASN1Type, ClassLink, InformationObjectClass, InformationObjectClassField,
    ParameterGovernor, Parameterization, ParameterizationArgument, ToplevelDefinition,
};
use std::alloc::Global;

/// Adds the names in the governor of a dummy.
fn add_governor<'t>(
    out: &mut List<&'t Text>,
    governor: &'t ParameterGovernor,
    wanted: Wanted,
) -> Mem<()>
    ensures { OnOk result (map (λ n. n.now) out.new ≡ map (λ n. n.now) out.old ++ governor_names governor.now wanted) }
{
    match governor {
        ParameterGovernor::None => Ok(()),
        ParameterGovernor::TypeOrClass(ty) => add_type(out, ty, wanted),
        ParameterGovernor::Class(name) => add_name(out, name, wanted),
    }
}

/// Adds those of the governors of dummies, in their order.
fn add_dummies<'t>(
    out: &mut List<&'t Text>,
    dummies: &'t [ParameterizationArgument],
    wanted: Wanted,
) -> Mem<()>
    ensures { OnOk result (map (λ n. n.now) out.new ≡ map (λ n. n.now) out.old ++ joined (map dummy_names dummies.now) wanted) }
{
    for dummy in dummies {
        add_governor(out, &dummy.param_governor, wanted)?;
    }
    Ok(())
}

/// Adds those of the governors of a template's dummies.
fn add_parameters<'t>(
    out: &mut List<&'t Text>,
    parameters: &'t Option<Parameterization>,
    wanted: Wanted,
) -> Mem<()>
    ensures { OnOk result (map (λ n. n.now) out.new ≡ map (λ n. n.now) out.old ++ parameter_names parameters.now wanted) }
{
    match parameters {
        None => Ok(()),
        Some(parameters) => add_dummies(out, parameters.parameters.as_slice(), wanted),
    }
}

/// Adds those of a type, where there is one.
fn add_optional_type<'t>(
    out: &mut List<&'t Text>,
    ty: &'t Option<ASN1Type>,
    wanted: Wanted,
) -> Mem<()>
    ensures { OnOk result (map (λ n. n.now) out.new ≡ map (λ n. n.now) out.old ++ present (option_map names_in ty.now) wanted) }
{
    match ty {
        None => Ok(()),
        Some(ty) => add_type(out, ty, wanted),
    }
}

/// Adds those of a field of a class: of its type and of its default.
fn add_class_field<'t>(
    out: &mut List<&'t Text>,
    field: &'t InformationObjectClassField,
    wanted: Wanted,
) -> Mem<()>
    ensures { OnOk result (map (λ n. n.now) out.new ≡ map (λ n. n.now) out.old ++ class_field_names field.now wanted) }
{
    add_optional_type(out, &field.ty, wanted)?;
    add_optional_value(out, &field.default, wanted)
}

/// Adds those of fields of a class, in their order.
fn add_class_fields<'t>(
    out: &mut List<&'t Text>,
    fields: &'t [InformationObjectClassField],
    wanted: Wanted,
) -> Mem<()>
    ensures { OnOk result (map (λ n. n.now) out.new ≡ map (λ n. n.now) out.old ++ joined (map class_field_names fields.now) wanted) }
{
    for field in fields {
        add_class_field(out, field, wanted)?;
    }
    Ok(())
}

/// Adds those of a class; its syntax names no definition.
fn add_class<'t>(
    out: &mut List<&'t Text>,
    class: &'t InformationObjectClass,
    wanted: Wanted,
) -> Mem<()>
    ensures { OnOk result (map (λ n. n.now) out.new ≡ map (λ n. n.now) out.old ++ class_names class.now wanted) }
{
    add_class_fields(out, class.fields.as_slice(), wanted)
}

/// Adds those of the class of an object or an object set.
fn add_link<'t>(out: &mut List<&'t Text>, link: &'t Option<ClassLink>, wanted: Wanted) -> Mem<()>
    ensures { OnOk result (map (λ n. n.now) out.new ≡ map (λ n. n.now) out.old ++ link_names link.now wanted) }
{
    match link {
        None => Ok(()),
        Some(ClassLink::ByName(name)) => add_name(out, name, wanted),
        Some(ClassLink::ByReference(name, class)) => {
            add_name(out, name, wanted)?;
            add_class(out, class, wanted)
        }
    }
}

/// Adds those of a class, an object or an object set.
fn add_information<'t>(
    out: &mut List<&'t Text>,
    information: &'t ASN1Information,
    wanted: Wanted,
) -> Mem<()>
    ensures { OnOk result (map (λ n. n.now) out.new ≡ map (λ n. n.now) out.old ++ information_names information.now wanted) }
{
    match information {
        ASN1Information::ObjectClass(class) => add_class(out, class, wanted),
        ASN1Information::ObjectSet(set) => add_objects(out, set.values.as_slice(), wanted),
        ASN1Information::Object(object) => {
            add_name(out, &object.class_name, wanted)?;
            add_fields(out, &object.fields, wanted)
        }
    }
}

/// Adds those of a definition.
fn add_definition<'t>(
    out: &mut List<&'t Text>,
    definition: &'t ToplevelDefinition,
    wanted: Wanted,
) -> Mem<()>
    ensures { OnOk result (map (λ n. n.now) out.new ≡ map (λ n. n.now) out.old ++ definition_names definition.now wanted) }
{
    match definition {
        ToplevelDefinition::TypeDef(definition) => {
            add_parameters(out, &definition.parameterization, wanted)?;
            add_type(out, &definition.ty, wanted)
        }
        ToplevelDefinition::Value(definition) => {
            add_parameters(out, &definition.parameterization, wanted)?;
            add_type(out, &definition.associated_type, wanted)?;
            add_value(out, &definition.value, wanted)
        }
        ToplevelDefinition::Information(definition) => {
            add_parameters(out, &definition.parameterization, wanted)?;
            add_link(out, &definition.class, wanted)?;
            add_information(out, &definition.value, wanted)
        }
    }
}

/// The names in the definition that stand where a reference may stand (X.680 14.1, X.681 clauses 11 to 15, X.683 8.3), in order and as
/// often as they stand: those of types and of the objects before their fields, of the CHOICE of a selection, behind `COMPONENTS OF`, of
/// classes, of values and of both parts of a path, of arcs that have no number, of objects and object sets, also in constraints, tables,
/// contents, arguments, defaults and the governors of dummies. A dummy, an item of an enumeration, a named bit or a named number that is
/// written as such a name is among them; an arc with a number, as `x(3)`, is none (X.680 32.3); the definition's own name is so only where
/// it stands in the definition again.
///
/// # Errors
///
/// Want of memory alone.
#[tactic(auto, unfolding(crate::specs::References::references_of))]
pub fn references<'t>(alloc: Global, definition: &'t ToplevelDefinition) -> Mem<List<&'t Text>>
    ensures { IfOk result (λ names. map (λ n. n.now) names ≡ references_of definition.now) }
{
    let mut names = List::new(alloc);
    add_definition(&mut names, definition, Wanted::Every)?;
    Ok(names)
}

/// Those of these names that are not the names of items of object sets (X.681 12.3), in order and as often as they stand: what is gone to from
/// a definition of no type, where a set is asked for nothing but that it is one.
///
/// # Errors
///
/// Want of memory alone.
#[tactic(auto, unfolding(crate::specs::References::entered_of))]
pub fn entered<'t>(alloc: Global, definition: &'t ToplevelDefinition) -> Mem<List<&'t Text>>
    ensures { IfOk result (λ names. map (λ n. n.now) names ≡ entered_of definition.now) }
{
    let mut names = List::new(alloc);
    add_definition(&mut names, definition, Wanted::Entered)?;
    Ok(names)
}

/// Those of these names that stand in the type of a member with a default (X.680 25.1), in a table (X.682 clause 10), in a content
/// (X.682 clause 11), in a contained subtype (X.680 51.3) or in an argument list (X.683 clause 9), and those of selections (X.680 clause
/// 30) and behind COMPONENTS OF (X.680 25.5), in order and as often as they stand: what a definition follows.
///
/// # Errors
///
/// Want of memory alone.
#[tactic(auto, unfolding(crate::specs::References::followed_of))]
pub fn followed<'t>(alloc: Global, definition: &'t ToplevelDefinition) -> Mem<List<&'t Text>>
    ensures { IfOk result (λ names. map (λ n. n.now) names ≡ followed_of definition.now) }
{
    let mut names = List::new(alloc);
    add_definition(&mut names, definition, Wanted::Followed)?;
    Ok(names)
}

/// Those of these names that whoever makes an instance of the definition's type asks for, where each argument that is a type is merely put
/// in: as `followed` gives them, but in an argument that is a type only those that are asked for there; and the class of a field (X.681
/// clause 14), in order and as often as they stand.
///
/// # Errors
///
/// Want of memory alone.
#[tactic(auto, unfolding(crate::specs::References::asked_of))]
pub fn asked<'t>(alloc: Global, definition: &'t ToplevelDefinition) -> Mem<List<&'t Text>>
    ensures { IfOk result (λ names. map (λ n. n.now) names ≡ asked_of definition.now) }
{
    let mut names = List::new(alloc);
    add_definition(&mut names, definition, Wanted::Asked)?;
    Ok(names)
}

/// Those of these names that stand before `<` in a selection (X.680 clause 30), in order and as often as they stand.
///
/// # Errors
///
/// Want of memory alone.
#[tactic(auto, unfolding(crate::specs::References::selected_of))]
pub fn selected<'t>(alloc: Global, definition: &'t ToplevelDefinition) -> Mem<List<&'t Text>>
    ensures { IfOk result (λ names. map (λ n. n.now) names ≡ selected_of definition.now) }
{
    let mut names = List::new(alloc);
    add_definition(&mut names, definition, Wanted::Selected)?;
    Ok(names)
}
