//! Places at which a name lacks what it is to have.

ghost use Rattle.asn_meaning_heads.specs.Scopes.{shown};
ghost use Rattle.asn_meaning_heads.specs.Values.{shown_value};
ghost use Rattle.asn_meaning.specs.Written.{as_written};
ghost use Rattle.asn_needs.specs.Missing.{components_lack, form_lacks, name_missing, value_lacks};
ghost use Rattle.asn_needs.specs.Occurrences.{governed_by_class, is_path, lacks_definition, names_at};
ghost use Rattle.asn_needs.specs.Sites.{seen};
ghost use Rattle.asn_places_names.specs.Occurrences.{shown_occurrences};
ghost use Rattle.asn_places_types.specs.Forms.{shown_form, shown_governor};
ghost use Rattle.asn_places_types.specs.Sites.{shown_around, shown_site};
ghost use Rattle.std.specs.List.{list_any};
ghost use Rattle.std.specs.Prelude.{◌≡◌, ◌+◌, ◌&&◌, ℕ, not, IfOk};

use crate::arguments::is_unknown_argument;
use crate::heads::{components_lack, listed_lacks};
use crate::objects::{class_lacks_given, wrong_dummy};
use crate::types::{type_lacks, value_lacks};
use asn_meaning_dummies::Wanted;
use asn_meaning_heads::{Place, Scope, ValueForm, kind_of, value_written};
use asn_memory::{Box, Mem, Text};
use asn_names_index::Names;
use asn_places_names::{Occurrence, is_governed_by_class, is_path, lacks_definition, names_at};
use asn_places_types::{Around, Form, Site, scope_in, unboxed};
use std::alloc::Global;
use std::rc::Rc;

/// Whether the name behind COMPONENTS OF lacks a SEQUENCE or SET; several names are not linked.
///
/// Err: want of memory, also where the steps are used up.
fn name_lacks<'a>(
    alloc: Global,
    names: &Names<'a>,
    steps: usize,
    scope: &Scope<'a>,
    name: &'a Text,
) -> Mem<bool>
    ensures { IfOk result (λ b. (m : ℕ) → b ≡ (not (is_path name.now) && components_lack (seen names.now.definitions.now (steps + m)) (shown scope.now) name.now)) }
{
    if is_path(name.as_str()) {
        Ok(false)
    } else {
        let lacks = components_lack(alloc, names, steps, scope, name)?;
        Ok(lacks)
    }
}

/// Whether a value lacks something under the type that governs it; under a class it is an object's name.
///
/// Err: want of memory, also where the steps are used up.
fn governed_lacks<'a>(
    alloc: Global,
    names: &Names<'a>,
    steps: usize,
    scope: &Scope<'a>,
    value: ValueForm<'a>,
    governor: &Option<Box<Place<'a>>>,
) -> Mem<bool>
    ensures { IfOk result (λ b. (m : ℕ) → b ≡ (not (governed_by_class (seen names.now.definitions.now (steps + m)) (shown_governor governor.now)) && value_lacks (seen names.now.definitions.now (steps + m)) (shown scope.now) (as_written (shown_value value.entry)))) }
{
    if is_governed_by_class(names, unboxed(governor)) {
        Ok(false)
    } else {
        let lacks = value_lacks(alloc, names, steps, scope, value_written(value))?;
        Ok(lacks)
    }
}

/// Whether a name lacks something by what stands in this form in these surroundings.
///
/// Err: want of memory, also where the steps are used up.
fn is_lacking_form<'a>(
    alloc: Global,
    names: &Names<'a>,
    steps: usize,
    around: &Rc<Around<'a>>,
    form: &Form<'a>,
) -> Mem<bool>
    ensures { IfOk result (λ b. (m : ℕ) → b ≡ form_lacks (seen names.now.definitions.now (steps + m)) (shown_around around.now.value) (shown_form form.now)) }
{
    let scope = scope_in(around);
    match form {
        Form::AType(_, ty, _) => Ok(type_lacks(alloc, names, steps, scope, kind_of(*ty))?),
        Form::ComponentsOf(name) => Ok(name_lacks(alloc, names, steps, scope, name)?),
        Form::AValue(_, v, p) => Ok(governed_lacks(alloc, names, steps, scope, *v, p)?),
        Form::AConstraint(_) => Ok(false),
        Form::ASet(_, _) => Ok(false),
        Form::AnElement(_, _) => Ok(false),
        Form::AListed(listed, p) => {
            let name = listed.identifier.as_str();
            Ok(listed_lacks(alloc, names, steps, unboxed(p), name)?)
        }
        Form::LooseList => Ok(false),
        Form::AnArgument(argument, dummy, inner) => {
            let inner = inner.get();
            Ok(is_unknown_argument(alloc, names, steps, around, argument, dummy, inner)?)
        }
        Form::NoArgument => Ok(false),
        Form::LooseArgument(_) => Ok(false),
        Form::ADummy(_) => Ok(false),
        Form::ClassName(name) => {
            Ok(wrong_dummy(names, steps, scope, Wanted::Nothing, name.as_str())?)
        }
        Form::ClassField(_, _) => Ok(false),
        Form::AnObject(_, _) => Ok(false),
        Form::AGivenField(class, field) => Ok(class_lacks_given(*class, *field)),
        Form::LooseField(_) => Ok(false),
        Form::AnObjectSet(_, _) => Ok(false),
        Form::SetName(name) => Ok(wrong_dummy(names, steps, scope, Wanted::Set, name.as_str())?),
    }
}

/// Whether one of these names has no definition of the kind that its place needs.
fn lack_definitions(names: &Names<'_>, occurrences: &[Occurrence<'_>]) -> bool
    ensures { result ≡ list_any (lacks_definition names.now.definitions.now) (shown_occurrences occurrences.now) }
{
    for occurrence in occurrences {
        if lacks_definition(names, occurrence) {
            return true;
        }
    }
    false
}

/// Whether a name at the place has no definition of the kind that the place needs.
///
/// Err: want of memory, also where the steps are used up.
#[tactic(auto, using(crate::proofs::Placing::definitions_lacked))]
fn lacks_definitions<'a>(
    alloc: Global,
    names: &Names<'a>,
    steps: usize,
    site: &Site<'a>,
) -> Mem<bool>
    ensures { IfOk result (λ b. (m : ℕ) → b ≡ list_any (lacks_definition names.now.definitions.now) (names_at (seen names.now.definitions.now (steps + m)) (shown_site site.now) (shown_site site.now).form)) }
{
    let found = names_at(alloc, names, steps, site)?;
    Ok(lack_definitions(names, found.as_slice()))
}

/// Whether a name at the place, dummies and arcs aside, has no definition of the kind that the place needs, or that definition lacks
/// the named field, member or alternative (X.680 14.1, 25.5, 30.1, 51.8; X.681 11.4, 14.1, 15.1).
///
/// Err: want of memory, also where the steps are used up.
pub fn is_lacking_place<'a>(
    alloc: Global,
    names: &Names<'a>,
    steps: usize,
    site: &Site<'a>,
) -> Mem<bool>
    ensures { IfOk result (λ b. (m : ℕ) → b ≡ name_missing (seen names.now.definitions.now (steps + m)) (shown_site site.now)) }
{
    if is_lacking_form(alloc, names, steps, &site.around, &site.form)? {
        Ok(true)
    } else {
        let lacks = lacks_definitions(alloc, names, steps, site)?;
        Ok(lacks)
    }
}
