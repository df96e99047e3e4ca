//! What objects give for fields (X.681 11).

ghost use Rattle.asn_meaning_heads.specs.Classes.{field_ty};
ghost use Rattle.asn_meaning_heads.specs.Kinds.{shown_type};
ghost use Rattle.asn_meaning_heads.specs.Objects.{shown_given};
ghost use Rattle.asn_meaning_heads.specs.Values.{shown_value};
ghost use Rattle.asn_names_index.specs.Classes.{shown_class};
ghost use Rattle.asn_meaning.specs.Accepts.{place};
ghost use Rattle.asn_meaning.specs.Answers.{once};
ghost use Rattle.asn_meaning.specs.Objects.{field_of};
ghost use Rattle.asn_meaning.specs.Scopes.{Empty};
ghost use Rattle.asn_meaning.specs.Written.{as_written};
ghost use Rattle.asn_needs.specs.Dummies.{name_of_value};
ghost use Rattle.asn_needs.specs.PartsOfObjects.{given_parts, setting_parts, type_in_class, unclassed_name};
ghost use Rattle.asn_needs.specs.Sites.{beside, AsSuch, AValue};
ghost use Rattle.asn_places_types.specs.Forms.{shown_governor, shown_of_class};
ghost use Rattle.asn_places_types.specs.Sites.{shown_around, shown_sites};
ghost use Rattle.asn_tree.specs.declared.objects.InformationObjectField.{out-InformationObjectField};
ghost use Rattle.std.specs.Option.{option_map};
ghost use Rattle.std.specs.Prelude.{◌≡◌, ◌++◌, ◌∷◌, [], is_some, IfOk, None, Some};

use asn_meaning_dummies::name_of_value;
use asn_meaning_heads::{
    GivenField, Gives, Place, Scope, TypeForm, ValueForm, as_given, field_type, value_written,
};
use asn_memory::{Box, List, Mem};
use asn_names_index::Class;
use asn_places_types::{Around, Form, SetForm, Site, TypePlace, ValuePlace, with_site};
use asn_tree::InformationObjectField;
use std::alloc::Global;
use std::rc::Rc;

/// The type in the empty scope, as one that governs.
///
/// Err: want of memory.
#[tactic(auto, using(asn_meaning_heads::proofs::Scoping::shown_empty))]
fn governor_outside<'a>(alloc: Global, ty: TypeForm<'a>) -> Mem<Option<Box<Place<'a>>>>
    ensures { IfOk result (λ p. shown_governor p ≡ Some (place Empty (shown_type ty.entry))) }
{
    let place = Place {
        scope: Scope::Empty,
        ty,
    };
    let place = Box::new(alloc, place)?;
    Ok(Some(place))
}

/// The type of the class's field of this name, where there is one.
#[tactic(auto, using(crate::proofs::Setting::no_field, crate::proofs::Setting::some_field))]
fn type_of_field<'a>(class: Class<'a>, name: &str) -> Option<TypeForm<'a>>
    ensures { option_map shown_type result ≡ once None (field_of (shown_class class.entry) name.now) field_ty }
{
    match field_type(class, name) {
        None => None,
        Some(ty) => ty,
    }
}

/// The type of the field of this name in a class that may not be asked, where there is one.
pub fn type_if_classed<'a>(class: Option<Class<'a>>, name: &str) -> Option<TypeForm<'a>>
    ensures { option_map shown_type result ≡ once None (shown_of_class class.entry) (λ c. once None (field_of c name.now) field_ty) }
{
    match class {
        None => None,
        Some(class) => type_of_field(class, name),
    }
}

/// The type of the class's field of this name, as one that governs, where there is one.
///
/// Err: want of memory.
#[tactic(auto, using(crate::proofs::Setting::untyped, crate::proofs::Setting::typed))]
fn type_in_class<'a>(
    alloc: Global,
    class: Option<Class<'a>>,
    name: &str,
) -> Mem<Option<Box<Place<'a>>>>
    ensures { IfOk result (λ p. shown_governor p ≡ type_in_class (shown_of_class class.entry) name.now) }
{
    match type_if_classed(class, name) {
        None => Ok(None),
        Some(ty) => {
            let governor = governor_outside(alloc, ty)?;
            Ok(governor)
        }
    }
}

/// Whether a value is a plain name.
fn is_name(value: ValueForm<'_>) -> bool
    ensures { result ≡ is_some (name_of_value (as_written (shown_value value.entry))) }
{
    name_of_value(value_written(value)).is_some()
}

/// Whether a field is given a plain name where the class is not asked: it may be that of a value or of an object (X.681 11.4).
fn is_unclassed_name(class: Option<Class<'_>>, field: GivenField<'_>) -> bool
    ensures { result ≡ is_some (unclassed_name (shown_of_class class.entry) (out-InformationObjectField (shown_given field.entry))) }
{
    match class {
        Some(_) => false,
        None => match field.gives {
            Gives::Type(_) => false,
            Gives::Value(value) => is_name(value),
            Gives::Set(_) => false,
        },
    }
}

/// The sites with a value for the class's field of this name.
///
/// Err: want of memory.
fn with_setting_value<'a>(
    alloc: Global,
    sites: List<Site<'a>>,
    around: &Rc<Around<'a>>,
    class: Option<Class<'a>>,
    name: &str,
    value: ValueForm<'a>,
) -> Mem<List<Site<'a>>>
    ensures { IfOk result (λ more. shown_sites more ≡ shown_sites sites.entry ++ beside (shown_around around.now.value) (AValue AsSuch (shown_value value.entry) (type_in_class (shown_of_class class.entry) name.now)) ∷ []) }
{
    let governor = type_in_class(alloc, class, name)?;
    let form = Form::AValue(ValuePlace::AsSuch, value, governor);
    let sites = with_site(sites, around, form)?;
    Ok(sites)
}

/// The sites with what is given for a field.
///
/// Err: want of memory.
fn with_setting<'a>(
    alloc: Global,
    sites: List<Site<'a>>,
    around: &Rc<Around<'a>>,
    class: Option<Class<'a>>,
    field: GivenField<'a>,
) -> Mem<List<Site<'a>>>
    ensures { IfOk result (λ more. shown_sites more ≡ shown_sites sites.entry ++ setting_parts (shown_around around.now.value) (shown_of_class class.entry) (out-InformationObjectField (shown_given field.entry))) }
{
    match field.gives {
        Gives::Type(ty) => {
            let form = Form::AType(TypePlace::InPlace, ty, None);
            let sites = with_site(sites, around, form)?;
            Ok(sites)
        }
        Gives::Value(value) => {
            let sites = with_setting_value(alloc, sites, around, class, field.name, value)?;
            Ok(sites)
        }
        Gives::Set(set) => {
            let form = Form::AnObjectSet(None, SetForm::Written(set));
            let sites = with_site(sites, around, form)?;
            Ok(sites)
        }
    }
}

/// The sites with what stands in a field that an object gives. None: the object's class is not asked, and nothing stands in a plain
/// name.
///
/// Err: want of memory.
#[tactic(auto, using(asn_places_types::proofs::Adding::nothing_more))]
pub fn with_given<'a>(
    alloc: Global,
    sites: List<Site<'a>>,
    around: &Rc<Around<'a>>,
    class: Option<Class<'a>>,
    field: GivenField<'a>,
) -> Mem<List<Site<'a>>>
    ensures { IfOk result (λ more. shown_sites more ≡ shown_sites sites.entry ++ given_parts (shown_around around.now.value) (shown_of_class class.entry) (out-InformationObjectField (shown_given field.entry))) }
{
    if is_unclassed_name(class, field) {
        Ok(sites)
    } else {
        let sites = with_setting(alloc, sites, around, class, field)?;
        Ok(sites)
    }
}

/// The sites with what stands in a field of an object whose class is not asked.
///
/// Err: want of memory.
pub fn with_loose_field<'a>(
    alloc: Global,
    sites: List<Site<'a>>,
    around: &Rc<Around<'a>>,
    field: &'a InformationObjectField,
) -> Mem<List<Site<'a>>>
    ensures { IfOk result (λ more. shown_sites more ≡ shown_sites sites.entry ++ given_parts (shown_around around.now.value) None (out-InformationObjectField field.now)) }
{
    let field = as_given(field);
    let sites = with_given(alloc, sites, around, None, field)?;
    Ok(sites)
}
