//! Calls on definitions.

ghost use Rattle.asn_calls.specs.Definitions.{class_named, class_of, enumeral, has_item, named_number, number_in, type_asked, is_asked};
ghost use Rattle.std.specs.List.{find};
ghost use Rattle.std.specs.Option.{option_copied, option_map};
ghost use Rattle.std.specs.Prelude.{◌≡◌};
ghost use Rattle.std.specs.Str.{bytes_eq};

use asn_memory::List;
use asn_tree::{
    ASN1Information, ASN1Type, ASN1Value, DistinguishedValue, Enumeral, InformationObjectClass,
    ToplevelDefinition, ToplevelInformationDefinition, ToplevelTypeDefinition,
};

/// Calls on `ToplevelDefinition`.
pub trait ToplevelDefinitionCalls {
    /// The class, where the definition defines one and has this name.
    fn is_class_with_name(&self, name: &str) -> Option<&InformationObjectClass>;

    /// Whether the definition defines an ENUMERATED that has an item of this name (X.680 20.1), and has the name of the
    /// type, where one is given.
    fn has_enum_value(&self, type_name: Option<&str>, identifier: &str) -> bool;

    /// The number of the first item of this name of the ENUMERATED (X.680 20.1), or of the first named number of this
    /// name of the INTEGER (X.680 19.1), that is defined here; None where there is none, or where a type's name is given
    /// and the definition has another. It takes no memory.
    fn get_distinguished_or_enum_value(
        &self,
        type_name: Option<&str>,
        identifier: &str,
    ) -> Option<ASN1Value>;
}

impl ToplevelDefinitionCalls for ToplevelDefinition {
    fn is_class_with_name(&self, name: &str) -> Option<&InformationObjectClass>
        ensures { option_copied result ≡ class_named name.now self.now }
    {
        if self.name().as_str() == name {
            class(self)
        } else {
            None
        }
    }

    fn has_enum_value(&self, type_name: Option<&str>, identifier: &str) -> bool
        ensures { result ≡ has_item (option_copied type_name.entry) identifier.now self.now }
    {
        match type_asked(self, type_name) {
            Some(ty) => enumeral(ty, identifier).is_some(),
            None => false,
        }
    }

    fn get_distinguished_or_enum_value(
        &self,
        type_name: Option<&str>,
        identifier: &str,
    ) -> Option<ASN1Value>
        ensures { result ≡ option_map (λ number. ASN1Value.Integer number) (named_number (option_copied type_name.entry) identifier.now self.now) }
    {
        let ty = type_asked(self, type_name)?;
        let number = number_in(ty, identifier)?;
        Some(ASN1Value::Integer(number))
    }
}

/// Calls on `ToplevelTypeDefinition`.
pub trait ToplevelTypeDefinitionCalls {
    /// The type that is defined.
    fn pdu(&self) -> &ASN1Type;
}

impl ToplevelTypeDefinitionCalls for ToplevelTypeDefinition {
    fn pdu(&self) -> &ASN1Type
        ensures { result.now ≡ self.now.ty }
    {
        &self.ty
    }
}

/// Calls on `ToplevelInformationDefinition`.
pub trait ToplevelInformationDefinitionCalls {
    /// The class, the object or the object set that is defined.
    fn pdu(&self) -> &ASN1Information;
}

impl ToplevelInformationDefinitionCalls for ToplevelInformationDefinition {
    fn pdu(&self) -> &ASN1Information
        ensures { result.now ≡ self.now.value }
    {
        &self.value
    }
}

fn class(definition: &ToplevelDefinition) -> Option<&InformationObjectClass>
    ensures { option_copied result ≡ class_of definition.now }
{
    match definition {
        ToplevelDefinition::Information(definition) => match &definition.value {
            ASN1Information::ObjectClass(class) => Some(class),
            ASN1Information::ObjectSet(_) | ASN1Information::Object(_) => None,
        },
        ToplevelDefinition::TypeDef(_) | ToplevelDefinition::Value(_) => None,
    }
}

// The type that is defined, where the definition is a type's and has the name that is asked for.
fn type_asked<'t>(
    definition: &'t ToplevelDefinition,
    type_name: Option<&str>,
) -> Option<&'t ASN1Type>
    ensures { option_copied result ≡ type_asked (option_copied type_name.entry) definition.now }
{
    match definition {
        ToplevelDefinition::TypeDef(definition) => {
            if is_asked(type_name, definition.name.as_str()) {
                Some(&definition.ty)
            } else {
                None
            }
        }
        ToplevelDefinition::Value(_) | ToplevelDefinition::Information(_) => None,
    }
}

fn is_asked(asked: Option<&str>, name: &str) -> bool
    ensures { result ≡ is_asked (option_copied asked.entry) name.now }
{
    match asked {
        Some(asked) => name == asked,
        None => true,
    }
}

// The first item of this name.
fn enumeral<'t>(ty: &'t ASN1Type, identifier: &str) -> Option<&'t Enumeral>
    ensures { option_copied result ≡ enumeral identifier.now ty.now }
{
    match ty {
        ASN1Type::Enumerated(ty) => item(ty.members.as_slice(), identifier),
        _ => None,
    }
}

fn item<'t>(items: &'t [Enumeral], name: &str) -> Option<&'t Enumeral>
    ensures { option_copied result ≡ find (λ item. bytes_eq item.name name.now) items.now }
{
    items.iter().find(|item| item.name.as_str() == name)
}

// The number of the first item, or of the first named number, of this name.
fn number_in(ty: &ASN1Type, identifier: &str) -> Option<i128>
    ensures { result ≡ number_in identifier.now ty.now }
{
    match ty {
        ASN1Type::Integer(ty) => match &ty.distinguished_values {
            Some(values) => distinguished(values, identifier),
            None => None,
        },
        _ => enumeral(ty, identifier).map(|item| item.index),
    }
}

fn distinguished(values: &List<DistinguishedValue>, name: &str) -> Option<i128>
    ensures { result ≡ option_map (λ named. named.value) (find (λ named. bytes_eq named.name name.now) values.now) }
{
    values
        .as_slice()
        .iter()
        .find(|named| named.name.as_str() == name)
        .map(|named| named.value)
}
