//! What a name stands for: a type, a value, a class, an object, as the definition that it sees is one.

ghost use Rattle.asn_names_index.specs.Classes.{shown_class};
ghost use Rattle.asn_names_index.specs.Definitions.{seen};
ghost use Rattle.asn_meaning.specs.Answers.{once};
ghost use Rattle.asn_meaning.specs.Definitions.{class_in, class_named, information_in, is_class, object_in, object_named, type_named, unless_template, value_named};
ghost use Rattle.std.specs.Option.{option_copied, option_map};
ghost use Rattle.std.specs.Prelude.{◌≡◌, codes, None};
ghost use Rattle.std.specs.Str.{bytes_eq};

use crate::classes::Class;
use crate::names::Names;
use asn_tree::{
    ASN1Information, InformationObject, InformationObjectClass, ToplevelDefinition,
    ToplevelInformationDefinition, ToplevelTypeDefinition, ToplevelValueDefinition,
};

/// Whether the name is that of the built-in class.
pub fn is_built_in(name: &str) -> bool
    ensures { result ≡ bytes_eq name.now (codes "TYPE-IDENTIFIER") }
{
    name == "TYPE-IDENTIFIER"
}

/// The class that a definition which is no template defines.
fn class_of_definition<'a>(
    definition: &'a ToplevelInformationDefinition,
) -> Option<&'a InformationObjectClass>
    ensures { option_copied result ≡ once None (class_in definition.now.value) (unless_template definition.now.parameterization) }
{
    match (&definition.value, &definition.parameterization) {
        (ASN1Information::ObjectClass(class), None) => Some(class),
        (ASN1Information::ObjectClass(_), Some(_)) => None,
        (ASN1Information::ObjectSet(_), _) => None,
        (ASN1Information::Object(_), _) => None,
    }
}

/// The object that a definition which is no template defines.
fn object_of_definition<'a>(
    definition: &'a ToplevelInformationDefinition,
) -> Option<&'a InformationObject>
    ensures { option_copied result ≡ once None (object_in definition.now.value) (unless_template definition.now.parameterization) }
{
    match (&definition.value, &definition.parameterization) {
        (ASN1Information::Object(object), None) => Some(object),
        (ASN1Information::Object(_), Some(_)) => None,
        (ASN1Information::ObjectSet(_), _) => None,
        (ASN1Information::ObjectClass(_), _) => None,
    }
}

impl<'t> Names<'t> {
    /// The definition that a name sees: the last of that name. TYPE-IDENTIFIER is the built-in class, and sees none of
    /// these (X.681 A.2).
    pub fn see(&self, name: &str) -> Option<&'t ToplevelDefinition>
        ensures { option_copied result ≡ seen self.now.definitions.now name.now }
    {
        if is_built_in(name) {
            None
        } else {
            self.last_named(name)
        }
    }

    /// The type definition that a name stands for, a template too (X.680 14.1).
    #[tactic(auto, using(crate::proofs::Seen::type_seen))]
    pub fn type_named(&self, name: &str) -> Option<&'t ToplevelTypeDefinition>
        ensures { option_copied result ≡ type_named self.now.definitions.now name.now }
    {
        match self.see(name) {
            Some(ToplevelDefinition::TypeDef(definition)) => Some(definition),
            Some(ToplevelDefinition::Value(_)) => None,
            Some(ToplevelDefinition::Information(_)) => None,
            None => None,
        }
    }

    /// The value definition that a name stands for; a template stands for no value.
    #[tactic(auto, using(crate::proofs::Seen::value_seen))]
    pub fn value_named(&self, name: &str) -> Option<&'t ToplevelValueDefinition>
        ensures { option_copied result ≡ value_named self.now.definitions.now name.now }
    {
        match self.see(name) {
            Some(ToplevelDefinition::TypeDef(_)) => None,
            Some(ToplevelDefinition::Value(definition)) => match &definition.parameterization {
                None => Some(definition),
                Some(_) => None,
            },
            Some(ToplevelDefinition::Information(_)) => None,
            None => None,
        }
    }

    /// The definition of a class, an object or a set that a name sees, a template too.
    pub fn information_named(&self, name: &str) -> Option<&'t ToplevelInformationDefinition>
        ensures { option_copied result ≡ once None (seen self.now.definitions.now name.now) information_in }
    {
        match self.see(name) {
            Some(ToplevelDefinition::TypeDef(_)) => None,
            Some(ToplevelDefinition::Value(_)) => None,
            Some(ToplevelDefinition::Information(definition)) => Some(definition),
            None => None,
        }
    }

    /// Whether a name stands for a class, a template too.
    #[tactic(auto, using(crate::proofs::Seen::class_is_built_in, crate::proofs::Seen::is_class_seen))]
    pub fn is_class(&self, name: &str) -> bool
        ensures { result ≡ is_class self.now.definitions.now name.now }
    {
        if is_built_in(name) {
            return true;
        }
        match self.information_named(name) {
            None => false,
            Some(definition) => match &definition.value {
                ASN1Information::ObjectClass(_) => true,
                ASN1Information::ObjectSet(_) => false,
                ASN1Information::Object(_) => false,
            },
        }
    }

    /// The class that a name stands for; a template stands for none.
    #[tactic(auto, using(crate::proofs::Seen::class_built_in, crate::proofs::Seen::class_seen))]
    pub fn class_named(&self, name: &str) -> Option<Class<'t>>
        ensures { option_map shown_class result ≡ class_named self.now.definitions.now name.now }
    {
        if is_built_in(name) {
            return Some(Class::TypeIdentifier);
        }
        match self.information_named(name) {
            None => None,
            Some(definition) => match class_of_definition(definition) {
                None => None,
                Some(class) => Some(Class::Written(class)),
            },
        }
    }

    /// The object that a name stands for; a template stands for none.
    #[tactic(auto, using(crate::proofs::Seen::object_seen))]
    pub fn object_named(&self, name: &str) -> Option<&'t InformationObject>
        ensures { option_copied result ≡ object_named self.now.definitions.now name.now }
    {
        match self.information_named(name) {
            None => None,
            Some(definition) => object_of_definition(definition),
        }
    }
}
