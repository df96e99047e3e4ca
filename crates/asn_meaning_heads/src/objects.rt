//! What objects give for the fields of their class (X.681 11).

ghost use Rattle.asn_meaning_heads.specs.Classes.{shown_field_type};
ghost use Rattle.asn_meaning_heads.specs.Objects.{shown_given};
ghost use Rattle.asn_meaning_heads.specs.Places.{shown_target};
ghost use Rattle.asn_meaning_heads.specs.Scopes.{shown};
ghost use Rattle.asn_meaning.specs.Names.{field_target, marked, object_field, object_field_type, type_of_field};
ghost use Rattle.asn_meaning.specs.Objects.{given};
ghost use Rattle.asn_tree_notation.specs.Syntax.{given_name};
ghost use Rattle.asn_tree.specs.declared.objects.InformationObjectField.{out-InformationObjectField};
ghost use Rattle.std.specs.List.{find};
ghost use Rattle.std.specs.Option.{option_copied, option_map};
ghost use Rattle.std.specs.Prelude.{◌≡◌, IfOk};
ghost use Rattle.std.specs.Str.{bytes_eq};

use crate::classes::{FieldType, type_in_class};
use crate::following::applied;
use crate::kinds::TypeForm;
use crate::places::Target;
use crate::scopes::Scope;
use crate::values::ValueForm;
use asn_memory::{Mem, Text};
use asn_names_index::Names;
use asn_tree::{InformationObject, InformationObjectField, InformationObjectFields, ObjectSet};
use std::alloc::Global;

/// What an object gives for a field.
#[derive(Clone, Copy)]
pub enum Gives<'a> {
    Type(TypeForm<'a>),
    Value(ValueForm<'a>),
    Set(&'a ObjectSet),
}

/// A field that an object gives, by its name with its `&`.
#[derive(Clone, Copy)]
pub struct GivenField<'a> {
    pub name: &'a str,
    pub gives: Gives<'a>,
}

/// A field of a tree.
pub fn as_given<'a>(field: &'a InformationObjectField) -> GivenField<'a>
    ensures { shown_given result ≡ field.now }
{
    match field {
        InformationObjectField::TypeField(field) => GivenField {
            name: field.identifier.as_str(),
            gives: Gives::Type(TypeForm::Written(&field.ty)),
        },
        InformationObjectField::FixedValueField(field) => GivenField {
            name: field.identifier.as_str(),
            gives: Gives::Value(ValueForm::Written(&field.value)),
        },
        InformationObjectField::ObjectSetField(field) => GivenField {
            name: field.identifier.as_str(),
            gives: Gives::Set(&field.value),
        },
    }
}

/// The name of a field of a tree with its `&`.
fn name_of_given(field: &InformationObjectField) -> &Text
    ensures { result.now ≡ given_name field.now }
{
    match field {
        InformationObjectField::TypeField(field) => &field.identifier,
        InformationObjectField::FixedValueField(field) => &field.identifier,
        InformationObjectField::ObjectSetField(field) => &field.identifier,
    }
}

/// The first field of the name.
#[tactic(auto, using(crate::proofs::Giving::given_first))]
fn find_given<'a>(
    fields: &'a [InformationObjectField],
    name: &str,
) -> Option<&'a InformationObjectField>
    ensures { option_copied result ≡ find (λ f. bytes_eq (given_name f) name.now) fields.now }
{
    for field in fields {
        if name_of_given(field).as_str() == name {
            return Some(field);
        }
    }
    None
}

/// The field that an object gives by this name with its `&` (X.681 11.4): one that stands by its name, or one that the
/// items of the class's own syntax give (X.681 11.6). None: it gives no such field, its class is missing, or its items do
/// not follow the class's syntax.
#[tactic(auto, using(crate::proofs::Giving::given_default, crate::proofs::Giving::given_classless, crate::proofs::Giving::given_applied))]
pub fn given<'a>(
    names: &Names<'a>,
    object: &'a InformationObject,
    name: &str,
) -> Option<GivenField<'a>>
    ensures { option_map shown_given result ≡ given names.now.definitions.now object.now name.now }
{
    match &object.fields {
        InformationObjectFields::DefaultSyntax(fields) => {
            match find_given(fields.as_slice(), name) {
                None => None,
                Some(field) => Some(as_given(field)),
            }
        }
        InformationObjectFields::CustomSyntax(items) => {
            match names.class_named(object.class_name.as_str()) {
                None => None,
                Some(class) => applied(class, items.as_slice(), name),
            }
        }
    }
}

/// The field's name with its `&`.
///
/// Err: want of memory.
pub fn marked(alloc: Global, name: &str) -> Mem<Text>
    ensures { IfOk result (λ text. text ≡ marked name.now) }
{
    let mut text = Text::new(alloc, "&")?;
    text.push_str(name)?;
    Ok(text)
}

/// The field that an object gives, by the field's name without its `&`; a dummy is no object.
///
/// Err: want of memory.
#[tactic(auto, using(crate::proofs::Giving::field_of_dummy, crate::proofs::Giving::field_of_none, crate::proofs::Giving::field_of_object))]
pub fn object_field<'a>(
    alloc: Global,
    names: &Names<'a>,
    scope: &Scope<'a>,
    name: &str,
    field: &str,
) -> Mem<Option<GivenField<'a>>>
    ensures { IfOk result (λ given. option_map shown_given given ≡ object_field names.now.definitions.now (shown scope.now) name.now field.now) }
{
    if scope.bound_to(name).is_some() {
        return Ok(None);
    }
    match names.object_named(name) {
        None => Ok(None),
        Some(object) => {
            let marked = marked(alloc, field)?;
            Ok(given(names, object, marked.as_str()))
        }
    }
}

/// What the type of the field of an object is, by the field's name without its `&` (X.681 14.2). None where the object's class is
/// missing or has no such field, and where the field's type is a class's name.
///
/// Err: want of memory.
#[tactic(auto, using(crate::proofs::Giving::type_of_classless, crate::proofs::Giving::type_of_classed))]
pub fn object_field_type<'a>(
    alloc: Global,
    names: &Names<'a>,
    object: &InformationObject,
    field: &str,
) -> Mem<Option<FieldType<'a>>>
    ensures { IfOk result (λ ty. option_map shown_field_type ty ≡ object_field_type names.now.definitions.now object.now field.now) }
{
    match names.class_named(object.class_name.as_str()) {
        None => Ok(None),
        Some(class) => {
            let marked = marked(alloc, field)?;
            Ok(type_in_class(names, class, marked.as_str()))
        }
    }
}

/// The type that is given, where a type is.
fn type_of_field<'a>(given: GivenField<'a>) -> Option<Target<'a>>
    ensures { option_map shown_target result ≡ type_of_field (out-InformationObjectField (shown_given given.entry)) }
{
    match given.gives {
        Gives::Type(ty) => {
            let target = Target::outside(ty);
            Some(target)
        }
        Gives::Value(_) => None,
        Gives::Set(_) => None,
    }
}

/// `o.&T`: the type that the object gives (X.681 15.1).
///
/// Err: want of memory.
#[tactic(auto, using(crate::proofs::Giving::target_of_none, crate::proofs::Giving::target_of_some))]
pub fn field_target<'a>(
    alloc: Global,
    names: &Names<'a>,
    scope: &Scope<'a>,
    name: &str,
    field: &str,
) -> Mem<Option<Target<'a>>>
    ensures { IfOk result (λ target. option_map shown_target target ≡ field_target names.now.definitions.now (shown scope.now) name.now field.now) }
{
    match object_field(alloc, names, scope, name, field)? {
        None => Ok(None),
        Some(given) => Ok(type_of_field(given)),
    }
}
