//! Values that are read elsewhere: a dummy's argument, a definition's value, and what an object gives for a field.

ghost use Rattle.asn_meaning_heads.specs.Kinds.{shown_type};
ghost use Rattle.asn_meaning_heads.specs.Objects.{shown_given};
ghost use Rattle.asn_meaning_heads.specs.Places.{shown_place};
ghost use Rattle.asn_meaning_heads.specs.Scopes.{shown, shown_argument, shown_bound};
ghost use Rattle.asn_meaning_heads.specs.Values.{shown_value};
ghost use Rattle.asn_meaning_values.specs.inner.Reading.{given_value, read_outside, shown_path, shown_read};
ghost use Rattle.asn_meaning.specs.Denotes.{argument_at, argument_of, defined_read, path_value, value_of_field};
ghost use Rattle.asn_tree.specs.declared.constraints.Parameter.{out-Parameter};
ghost use Rattle.asn_tree.specs.declared.objects.InformationObjectField.{out-InformationObjectField};
ghost use Rattle.std.specs.Option.{option_map};
ghost use Rattle.std.specs.Prelude.{◌≡◌, IfOk};

use asn_meaning_heads::{
    Argument, Bound, FieldType, GivenField, Gives, Place, Scope, TypeForm, ValueForm, object_field,
    object_field_type,
};
use asn_memory::Mem;
use asn_names_index::Names;
use asn_tree::{ASN1Type, Parameter, ParameterGovernor, ToplevelValueDefinition};
use std::alloc::Global;

/// A value, the scope that it is read in, and its type.
#[derive(Drop)]
pub struct Read<'a> {
    pub scope: Scope<'a>,
    pub value: ValueForm<'a>,
    pub place: Place<'a>,
}

/// What an object gives for a field, and what the field's type is.
#[derive(Clone, Copy)]
pub struct PathValue<'a> {
    pub value: ValueForm<'a>,
    pub ty: FieldType<'a>,
}

/// A value under a type, both read outside templates.
pub fn read_outside<'a>(value: ValueForm<'a>, ty: TypeForm<'a>) -> Read<'a>
    ensures { shown_read result ≡ read_outside (shown_value value.entry) (shown_type ty.entry) }
{
    Read {
        scope: Scope::Empty,
        value,
        place: Place {
            scope: Scope::Empty,
            ty,
        },
    }
}

/// A value under a type, each read in its scope.
///
/// Err: want of memory.
pub fn read_at<'a>(
    alloc: Global,
    scope: &Scope<'a>,
    value: ValueForm<'a>,
    place: &Place<'a>,
) -> Mem<Read<'a>>
    ensures { IfOk result (λ read. shown_read read ≡ record { scope = shown scope.now; value = shown_value value.entry; place = shown_place place.now }) }
{
    let scope = scope.copy(alloc)?;
    let place = place.copy(alloc)?;
    Ok(Read {
        scope,
        value,
        place,
    })
}

/// A value that is an argument, read in the argument's scope under the governor, which is read in `scope` (X.683 8.3). None
/// where the argument is no value.
///
/// Err: want of memory.
fn argument_at<'s, 'a>(
    alloc: Global,
    scope: &Scope<'a>,
    governor: &'a ASN1Type,
    argument: Argument<'s, 'a>,
) -> Mem<Option<Read<'a>>>
    ensures { IfOk result (λ read. option_map shown_read read ≡ argument_at (shown scope.now) governor.now (shown_argument argument.entry).scope (out-Parameter (shown_argument argument.entry).tree)) }
{
    match argument.tree {
        Parameter::ValueParameter(value) => {
            let outer = scope.copy(alloc)?;
            let inner = argument.scope.copy(alloc)?;
            Ok(Some(Read {
                scope: inner,
                value: ValueForm::Written(value),
                place: Place {
                    scope: outer,
                    ty: TypeForm::Written(governor),
                },
            }))
        }
        Parameter::TypeParameter(_) => Ok(None),
        Parameter::InformationObjectParameter(_) => Ok(None),
        Parameter::ObjectSetParameter(_) => Ok(None),
    }
}

/// A dummy's argument, read in the argument's scope under the governor, which is read in the template's (X.683 8.3). None
/// where the dummy has no argument, or stands for no value.
///
/// Err: want of memory.
pub fn argument_of<'s, 'a>(
    alloc: Global,
    scope: &Scope<'a>,
    bound: Bound<'s, 'a>,
) -> Mem<Option<Read<'a>>>
    ensures { IfOk result (λ read. option_map shown_read read ≡ argument_of (shown scope.now) (shown_bound bound.entry)) }
{
    match (bound.governor, bound.argument) {
        (ParameterGovernor::TypeOrClass(governor), Some(argument)) => {
            let read = argument_at(alloc, scope, governor, argument)?;
            Ok(read)
        }
        (ParameterGovernor::TypeOrClass(_), None) => Ok(None),
        (ParameterGovernor::None, _) => Ok(None),
        (ParameterGovernor::Class(_), _) => Ok(None),
    }
}

/// A definition's value under its own type.
pub fn defined_read<'a>(definition: &'a ToplevelValueDefinition) -> Read<'a>
    ensures { shown_read result ≡ defined_read definition.now }
{
    let value = ValueForm::Written(&definition.value);
    read_outside(value, TypeForm::Written(&definition.associated_type))
}

/// The value that is given, where a value is.
fn value_of_field<'a>(given: GivenField<'a>) -> Option<ValueForm<'a>>
    ensures { option_map shown_value result ≡ value_of_field (out-InformationObjectField (shown_given given.entry)) }
{
    match given.gives {
        Gives::Type(_) => None,
        Gives::Value(value) => Some(value),
        Gives::Set(_) => None,
    }
}

/// The value that an object gives for a field.
///
/// Err: want of memory.
#[tactic(auto, using(crate::proofs::Paths::given_none, crate::proofs::Paths::given_some))]
fn given_value<'a>(
    alloc: Global,
    names: &Names<'a>,
    scope: &Scope<'a>,
    object: &str,
    name: &str,
) -> Mem<Option<ValueForm<'a>>>
    ensures { IfOk result (λ value. option_map shown_value value ≡ given_value names.now.definitions.now (shown scope.now) object.now name.now) }
{
    match object_field(alloc, names, scope, object, name)? {
        None => Ok(None),
        Some(given) => Ok(value_of_field(given)),
    }
}

/// The value that an object gives for a field, and what the field's type is (X.681 15.1). None where the object is missing,
/// gives no value for the field, or its class has no such field.
///
/// Err: want of memory.
#[tactic(auto, using(crate::proofs::Paths::path_valueless, crate::proofs::Paths::path_objectless, crate::proofs::Paths::path_typeless, crate::proofs::Paths::path_typed))]
pub fn path_value<'a>(
    alloc: Global,
    names: &Names<'a>,
    scope: &Scope<'a>,
    object: &str,
    name: &str,
) -> Mem<Option<PathValue<'a>>>
    ensures { IfOk result (λ path. option_map shown_path path ≡ path_value names.now.definitions.now (shown scope.now) object.now name.now) }
{
    match given_value(alloc, names, scope, object, name)? {
        None => Ok(None),
        Some(value) => match names.object_named(object) {
            None => Ok(None),
            Some(object) => match object_field_type(alloc, names, object, name)? {
                None => Ok(None),
                Some(ty) => Ok(Some(PathValue { value, ty })),
            },
        },
    }
}
