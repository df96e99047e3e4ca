//! Arguments and governors that are objects or classes.

ghost use Rattle.asn_meaning_dummies.specs.inner.Information.{free_name, free_name_at};
ghost use Rattle.asn_meaning_heads.specs.Kinds.{shown_kind};
ghost use Rattle.asn_meaning_heads.specs.Places.{shown_place};
ghost use Rattle.asn_meaning_heads.specs.Scopes.{shown, shown_argument};
ghost use Rattle.asn_meaning_heads.specs.Written.{shown_written};
ghost use Rattle.asn_needs.specs.Dummies.{governs_objects, is_class_at, is_class_name, is_information, is_object, is_object_or_class, name_of_value, names_object, names_type_object};
ghost use Rattle.std.specs.Option.{option_copied};
ghost use Rattle.std.specs.Prelude.{◌≡◌, Some};

use crate::names::name_of_value;
use asn_meaning_heads::{
    Argument, Kind, Place, Scope, Written, as_written, kind_of, kind_of_tree, plain_name_in,
};
use asn_memory::Text;
use asn_names_index::Names;
use asn_tree::{ASN1Information, Parameter, ParameterGovernor};

/// Whether the name stands for an object, a template too.
#[tactic(auto, using(crate::proofs::Informing::object_is_seen))]
fn is_object(names: &Names<'_>, name: &str) -> bool
    ensures { result ≡ is_object names.now.definitions.now name.now }
{
    match names.information_named(name) {
        None => false,
        Some(definition) => match &definition.value {
            ASN1Information::ObjectClass(_) => false,
            ASN1Information::ObjectSet(_) => false,
            ASN1Information::Object(_) => true,
        },
    }
}

/// Whether the name stands for an object or a class, a template too.
#[tactic(auto, using(crate::proofs::Informing::either_class, crate::proofs::Informing::either_object))]
pub fn is_object_or_class(names: &Names<'_>, name: &str) -> bool
    ensures { result ≡ is_object_or_class names.now.definitions.now name.now }
{
    if names.is_class(name) {
        true
    } else {
        is_object(names, name)
    }
}

/// The name, where the scope does not bind it.
fn unless_bound<'a>(scope: &Scope<'_>, name: &'a Text) -> Option<&'a Text>
    ensures { option_copied result ≡ free_name (shown scope.now) (Some name.now) }
{
    if scope.has_dummy(name.as_str()) {
        None
    } else {
        Some(name)
    }
}

/// The name that a type of this kind is, with nothing before it, where the scope does not bind it.
fn free_name<'a>(scope: &Scope<'_>, kind: Kind<'a>) -> Option<&'a Text>
    ensures { option_copied result ≡ free_name_at (shown scope.now) (shown_kind kind.entry) }
{
    match plain_name_in(kind) {
        None => None,
        Some(name) => unless_bound(scope, name),
    }
}

/// Whether a type of this kind is the name of a class; a dummy is no class.
#[tactic(auto, using(crate::proofs::Informing::class_not, crate::proofs::Informing::class_name))]
pub fn is_class_at(names: &Names<'_>, scope: &Scope<'_>, kind: Kind<'_>) -> bool
    ensures { result ≡ is_class_at names.now.definitions.now (shown scope.now) (shown_kind kind.entry) }
{
    match free_name(scope, kind) {
        None => false,
        Some(name) => names.is_class(name.as_str()),
    }
}

/// Whether a type is the name of a class.
pub fn is_class_name(names: &Names<'_>, place: &Place<'_>) -> bool
    ensures { result ≡ is_class_name names.now.definitions.now (shown_place place.now) }
{
    is_class_at(names, &place.scope, kind_of(place.ty))
}

/// Whether a type of this kind is the name of an object or a class.
#[tactic(auto, using(crate::proofs::Informing::type_not, crate::proofs::Informing::type_name))]
fn names_type_object(names: &Names<'_>, scope: &Scope<'_>, kind: Kind<'_>) -> bool
    ensures { result ≡ names_type_object names.now.definitions.now (shown scope.now) (shown_kind kind.entry) }
{
    match free_name(scope, kind) {
        None => false,
        Some(name) => is_object_or_class(names, name.as_str()),
    }
}

/// Whether a value is the name of an object.
fn names_object(names: &Names<'_>, scope: &Scope<'_>, written: Written<'_>) -> bool
    ensures { result ≡ names_object names.now.definitions.now (shown scope.now) (name_of_value (shown_written written.entry)) }
{
    match name_of_value(written) {
        None => false,
        Some(name) => {
            if scope.has_dummy(name.as_str()) {
                false
            } else {
                is_object(names, name.as_str())
            }
        }
    }
}

/// Whether an argument is or names an object or a class.
pub fn is_information(names: &Names<'_>, argument: Argument<'_, '_>) -> bool
    ensures { result ≡ is_information names.now.definitions.now (shown_argument argument.entry) }
{
    match argument.tree {
        Parameter::ValueParameter(value) => {
            names_object(names, argument.scope, as_written(value))
        }
        Parameter::TypeParameter(ty) => {
            names_type_object(names, argument.scope, kind_of_tree(ty))
        }
        Parameter::InformationObjectParameter(_) => true,
        Parameter::ObjectSetParameter(_) => false,
    }
}

/// Whether a dummy's governor is the name of a class.
pub fn governs_objects(names: &Names<'_>, scope: &Scope<'_>, governor: &ParameterGovernor) -> bool
    ensures { result ≡ governs_objects names.now.definitions.now (shown scope.now) governor.now }
{
    match governor {
        ParameterGovernor::None => false,
        ParameterGovernor::TypeOrClass(ty) => is_class_at(names, scope, kind_of_tree(ty)),
        ParameterGovernor::Class(_) => false,
    }
}
