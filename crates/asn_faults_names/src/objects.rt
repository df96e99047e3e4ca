//! Fields that objects and classes lack (X.681 14, 15).

ghost use Rattle.asn_meaning_dummies.specs.Places.{shown_wanted};
ghost use Rattle.asn_meaning_heads.specs.Objects.{shown_given};
ghost use Rattle.asn_meaning_heads.specs.Scopes.{shown};
ghost use Rattle.asn_faults_names.specs.inner.Wanting.{wanted_field};
ghost use Rattle.asn_meaning.specs.Answers.{once};
ghost use Rattle.asn_meaning.specs.Definitions.{class_named, object_named};
ghost use Rattle.asn_meaning.specs.Names.{class_field_type, marked};
ghost use Rattle.asn_meaning.specs.Objects.{given};
ghost use Rattle.asn_needs.specs.Dummies.{is_dummy};
ghost use Rattle.asn_needs.specs.Missing.{class_lacks, fields_known, field_lacking, is_class_field, object_lacks, path_lacks, wrong_dummy};
ghost use Rattle.asn_needs.specs.Sites.{seen};
ghost use Rattle.asn_places_types.specs.Forms.{shown_of_class};
ghost use Rattle.asn_tree.specs.declared.objects.InformationObjectField.{out-InformationObjectField};
ghost use Rattle.std.specs.Prelude.{◌≡◌, ◌+◌, ◌&&◌, ℕ, false, is_none, is_some, not, IfOk};

use asn_meaning_dummies::{Wanted, is_class_at, misplaced};
use asn_meaning_fields::given_fields;
use asn_meaning_heads::{
    GivenField, Gives, Scope, class_field_type, field_type, given, kind_of, marked,
};
use asn_memory::Mem;
use asn_names_index::{Class, Names};
use asn_places_objects::type_if_classed;
use asn_tree::{InformationObject, InformationObjectFieldReference};
use std::alloc::Global;

/// What a place wants of an object's field.
#[derive(Clone, Copy)]
pub(crate) enum WantedField {
    Type,
    Value,
}

/// Whether the name is a dummy whose argument is of another kind than its place needs: under its arguments a dummy counts as its
/// argument.
///
/// Err: want of memory, only where the argument is handed on more often than there are steps.
pub(crate) fn wrong_dummy(
    names: &Names<'_>,
    steps: usize,
    scope: &Scope<'_>,
    wanted: Wanted,
    name: &str,
) -> Mem<bool>
    ensures { IfOk result (λ b. (m : ℕ) → b ≡ wrong_dummy (seen names.now.definitions.now (steps + m)) (shown scope.now) (shown_wanted wanted) name.now) }
{
    match scope.bound_to(name) {
        None => Ok(false),
        Some(bound) => {
            let wrong = misplaced(names, steps, scope, bound, wanted)?;
            Ok(wrong)
        }
    }
}

/// Whether the object's class has a field of that name whose type is the name of a class.
#[tactic(auto, using(crate::proofs::Fielding::untyped_field, crate::proofs::Fielding::typed_field, asn_meaning_heads::proofs::Scoping::shown_empty))]
fn is_class_field(names: &Names<'_>, object: &InformationObject, name: &str) -> bool
    ensures { result ≡ is_class_field names.now.definitions.now object.now name.now }
{
    match type_if_classed(names.class_named(object.class_name.as_str()), name) {
        None => false,
        Some(ty) => is_class_at(names, &Scope::Empty, kind_of(ty)),
    }
}

/// Whether it is known which fields an object gives: they stand by their names, or its items follow its class's syntax.
///
/// Err: want of memory.
#[tactic(auto, using(crate::proofs::Fielding::fields_unknown, crate::proofs::Fielding::fields_found))]
fn fields_known<'a>(alloc: Global, names: &Names<'a>, object: &'a InformationObject) -> Mem<bool>
    ensures { IfOk result (λ b. b ≡ fields_known names.now.definitions.now object.now) }
{
    let class = names.class_named(object.class_name.as_str());
    match given_fields(alloc, class, &object.fields)? {
        None => Ok(false),
        Some(_) => Ok(true),
    }
}

/// Whether a field is given what is wanted.
fn is_wanted(wanted: WantedField, field: GivenField<'_>) -> bool
    ensures { result ≡ wanted_field wanted (out-InformationObjectField (shown_given field.entry)) }
{
    match field.gives {
        Gives::Type(_) => match wanted {
            WantedField::Type => true,
            WantedField::Value => false,
        },
        Gives::Value(_) => match wanted {
            WantedField::Type => false,
            WantedField::Value => true,
        },
        Gives::Set(_) => match wanted {
            WantedField::Type => false,
            WantedField::Value => false,
        },
    }
}

/// Whether an object gives what is wanted for the field of that name.
#[tactic(auto, using(crate::proofs::Fielding::nothing_given, crate::proofs::Fielding::something_given))]
fn gives_wanted<'a>(
    names: &Names<'a>,
    object: &'a InformationObject,
    wanted: WantedField,
    name: &str,
) -> bool
    ensures { result ≡ once false (given names.now.definitions.now object.now name.now) (λ f. wanted_field wanted (out-InformationObjectField f)) }
{
    match given(names, object, name) {
        None => false,
        Some(field) => is_wanted(wanted, field),
    }
}

/// Whether an object lacks the field of that name: the field's type is the name of a class, or it is known what the object gives, and
/// that is nothing that is wanted.
///
/// Err: want of memory.
#[tactic(auto, using(crate::proofs::Fielding::lacks_by_class, crate::proofs::Fielding::lacks_given, crate::proofs::Fielding::lacks_unknown))]
fn object_lacks<'a>(
    alloc: Global,
    names: &Names<'a>,
    object: &'a InformationObject,
    wanted: WantedField,
    name: &str,
) -> Mem<bool>
    ensures { IfOk result (λ b. b ≡ object_lacks names.now.definitions.now (wanted_field wanted) object.now name.now) }
{
    if is_class_field(names, object, name) {
        return Ok(true);
    }
    if fields_known(alloc, names, object)? {
        Ok(!gives_wanted(names, object, wanted, name))
    } else {
        Ok(false)
    }
}

/// Whether the object of this name, which is no dummy, lacks the field.
///
/// Err: want of memory.
#[tactic(auto, using(crate::proofs::Fielding::object_dummy, crate::proofs::Fielding::object_missing, crate::proofs::Fielding::object_there))]
fn named_object_lacks<'a>(
    alloc: Global,
    names: &Names<'a>,
    scope: &Scope<'a>,
    wanted: WantedField,
    object: &str,
    field: &str,
) -> Mem<bool>
    ensures { IfOk result (λ b. b ≡ (not (is_dummy (shown scope.now) object.now) && once false (object_named names.now.definitions.now object.now) (λ o. object_lacks names.now.definitions.now (wanted_field wanted) o (marked field.now)))) }
{
    if scope.has_dummy(object) {
        return Ok(false);
    }
    match names.object_named(object) {
        None => Ok(false),
        Some(found) => {
            let name = marked(alloc, field)?;
            let lacks = object_lacks(alloc, names, found, wanted, name.as_str())?;
            Ok(lacks)
        }
    }
}

/// `o.&f`: whether the object lacks the field, or the name is a dummy that can be no object (X.681 15.1).
///
/// Err: want of memory, also where the steps are used up.
pub(crate) fn path_lacks<'a>(
    alloc: Global,
    names: &Names<'a>,
    steps: usize,
    scope: &Scope<'a>,
    wanted: WantedField,
    object: &str,
    field: &str,
) -> Mem<bool>
    ensures { IfOk result (λ b. (m : ℕ) → b ≡ path_lacks (seen names.now.definitions.now (steps + m)) (shown scope.now) (wanted_field wanted) object.now field.now) }
{
    if wrong_dummy(names, steps, scope, Wanted::Nothing, object)? {
        Ok(true)
    } else {
        let lacks = named_object_lacks(alloc, names, scope, wanted, object, field)?;
        Ok(lacks)
    }
}

/// Whether the class of this name, which is no dummy, lacks the field that the path leads to.
#[tactic(auto, using(crate::proofs::Fielding::class_dummy, crate::proofs::Fielding::class_missing, crate::proofs::Fielding::class_untyped, crate::proofs::Fielding::class_typed))]
fn named_class_lacks<'a>(
    names: &Names<'a>,
    scope: &Scope<'a>,
    reference: &InformationObjectFieldReference,
) -> bool
    ensures { result ≡ (not (is_dummy (shown scope.now) reference.now.class) && (is_some (class_named names.now.definitions.now reference.now.class) && is_none (class_field_type names.now.definitions.now (shown scope.now) reference.now))) }
{
    if scope.has_dummy(reference.class.as_str()) {
        return false;
    }
    match names.class_named(reference.class.as_str()) {
        None => false,
        Some(_) => match class_field_type(names, scope, reference) {
            None => true,
            Some(_) => false,
        },
    }
}

/// `C.&f`: whether the class lacks the field, or the name is a dummy that can be no class (X.681 14.1).
///
/// Err: want of memory, only where an argument is handed on more often than there are steps.
pub(crate) fn class_lacks<'a>(
    names: &Names<'a>,
    steps: usize,
    scope: &Scope<'a>,
    reference: &InformationObjectFieldReference,
) -> Mem<bool>
    ensures { IfOk result (λ b. (m : ℕ) → b ≡ class_lacks (seen names.now.definitions.now (steps + m)) (shown scope.now) reference.now) }
{
    if wrong_dummy(
        names,
        steps,
        scope,
        Wanted::Nothing,
        reference.class.as_str(),
    )? {
        Ok(true)
    } else {
        Ok(named_class_lacks(names, scope, reference))
    }
}

/// Whether an object's class lacks the field that the object gives. None: the class is not asked (X.681 11.4).
#[tactic(auto, using(crate::proofs::Fielding::given_lacking, crate::proofs::Fielding::given_had))]
pub(crate) fn class_lacks_given(class: Option<Class<'_>>, field: GivenField<'_>) -> bool
    ensures { result ≡ field_lacking (shown_of_class class.entry) (shown_given field.entry) }
{
    match class {
        None => false,
        Some(class) => match field_type(class, field.name) {
            None => true,
            Some(_) => false,
        },
    }
}
