//! A module's tagging environment, added to each tag of a definition where it lies.

ghost use Rattle.asn_tree.specs.Tagging.{retagged_argument, retagged_class, retagged_class_field, retagged_definition, retagged_information, retagged_link, retagged_parameters};
ghost use Rattle.std.specs.Option.{option_map};
ghost use Rattle.std.specs.Prelude.{◌≡◌, map};

use crate::trees::{retag, retag_fields, retag_set_values, retag_type, retag_value};
use asn_memory::List;
use asn_tree::{
    ASN1Information, ClassLink, InformationObjectClass, InformationObjectClassField,
    ParameterGovernor, Parameterization, ParameterizationArgument, TaggingEnvironment,
    ToplevelDefinition,
};

/// The tagging of definitions.
pub trait ToplevelDefinitionTagging {
    /// Adds a module's tagging environment to that of each tag in the definition, at every depth: a tag's own stands,
    /// unless it is automatic. All else stays as it is. It takes no memory.
    fn apply_tagging_environment(&mut self, environment: &TaggingEnvironment);
}

impl ToplevelDefinitionTagging for ToplevelDefinition {
    fn apply_tagging_environment(&mut self, environment: &TaggingEnvironment)
        ensures { self.new ≡ retagged_definition environment.now self.old }
    {
        retag_definition(self, *environment);
    }
}

// Adds the environment to that of each tag in the definition.
fn retag_definition(definition: &mut ToplevelDefinition, environment: TaggingEnvironment)
    ensures { definition.new ≡ retagged_definition environment definition.old }
{
    match definition {
        ToplevelDefinition::TypeDef(definition) => {
            retag(&mut definition.tag, environment);
            retag_type(&mut definition.ty, environment);
            retag_parameters(&mut definition.parameterization, environment);
        }
        ToplevelDefinition::Value(definition) => {
            retag_type(&mut definition.associated_type, environment);
            retag_parameters(&mut definition.parameterization, environment);
            retag_value(&mut definition.value, environment);
        }
        ToplevelDefinition::Information(definition) => {
            retag_parameters(&mut definition.parameterization, environment);
            retag_link(&mut definition.class, environment);
            retag_information(&mut definition.value, environment);
        }
    }
}

// The types that govern dummies.
fn retag_parameters(
    parameterization: &mut Option<Parameterization>,
    environment: TaggingEnvironment,
)
    ensures { parameterization.new ≡ option_map (retagged_parameters environment) parameterization.old }
{
    if let Some(parameterization) = parameterization {
        retag_arguments(&mut parameterization.parameters, environment);
    }
}

fn retag_arguments(arguments: &mut List<ParameterizationArgument>, environment: TaggingEnvironment)
    ensures { arguments.new ≡ map (retagged_argument environment) arguments.old }
{
    for i in 0..arguments.len() {
        if let Some(argument) = arguments.get_mut(i) {
            retag_argument(argument, environment);
        }
    }
}

fn retag_argument(argument: &mut ParameterizationArgument, environment: TaggingEnvironment)
    ensures { argument.new ≡ retagged_argument environment argument.old }
{
    match &mut argument.param_governor {
        ParameterGovernor::None => {}
        ParameterGovernor::TypeOrClass(ty) => retag_type(ty, environment),
        ParameterGovernor::Class(_) => {}
    }
}

fn retag_link(link: &mut Option<ClassLink>, environment: TaggingEnvironment)
    ensures { link.new ≡ option_map (retagged_link environment) link.old }
{
    match link {
        None => {}
        Some(ClassLink::ByName(_)) => {}
        Some(ClassLink::ByReference(_, class)) => retag_class(class, environment),
    }
}

fn retag_information(information: &mut ASN1Information, environment: TaggingEnvironment)
    ensures { information.new ≡ retagged_information environment information.old }
{
    match information {
        ASN1Information::ObjectClass(class) => retag_class(class, environment),
        ASN1Information::ObjectSet(set) => retag_set_values(&mut set.values, environment),
        ASN1Information::Object(object) => retag_fields(&mut object.fields, environment),
    }
}

fn retag_class(class: &mut InformationObjectClass, environment: TaggingEnvironment)
    ensures { class.new ≡ retagged_class environment class.old }
{
    retag_class_fields(&mut class.fields, environment);
}

fn retag_class_fields(
    fields: &mut List<InformationObjectClassField>,
    environment: TaggingEnvironment,
)
    ensures { fields.new ≡ map (retagged_class_field environment) fields.old }
{
    for i in 0..fields.len() {
        if let Some(field) = fields.get_mut(i) {
            retag_class_field(field, environment);
        }
    }
}

fn retag_class_field(field: &mut InformationObjectClassField, environment: TaggingEnvironment)
    ensures { field.new ≡ retagged_class_field environment field.old }
{
    if let Some(ty) = &mut field.ty {
        retag_type(ty, environment);
    }
    if let Some(value) = &mut field.default {
        retag_value(value, environment);
    }
}
