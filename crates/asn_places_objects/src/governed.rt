//! An argument that is no object and no class, under its governor (X.683 8.3).

ghost use Rattle.asn_meaning_dummies.specs.Sets.{shown_set as shown_argument_set};
ghost use Rattle.asn_meaning_heads.specs.Places.{shown_place};
ghost use Rattle.asn_meaning_heads.specs.Scopes.{shown};
ghost use Rattle.asn_meaning.specs.Answers.{once};
ghost use Rattle.asn_needs.specs.Dummies.{class_in_scope, set_argument};
ghost use Rattle.asn_needs.specs.PartsOfTypes.{governed_sites, is_written, type_argument_sites, value_argument_sites};
ghost use Rattle.asn_needs.specs.Sites.{beside, seen, AnObjectSet};
ghost use Rattle.asn_places_types.specs.Forms.{shown_set};
ghost use Rattle.asn_places_types.specs.Sites.{shown_around, shown_sites};
ghost use Rattle.asn_tree.specs.declared.constraints.Parameter.{out-Parameter};
ghost use Rattle.asn_tree.specs.declared.definitions.ParameterGovernor.TheVariants as governor;
ghost use Rattle.std.specs.Prelude.{◌≡◌, ◌++◌, ◌∷◌, [], ℕ, IfOk, if◌then◌else◌};

use crate::aside::governing;
use asn_meaning_dummies::{
    SetForm as ArgumentSet, argument_name, class_in_scope, is_class_at, set_argument,
};
use asn_meaning_heads::{Place, Scope, ValueForm, kind_of_tree};
use asn_memory::{Box, List, Mem, Text};
use asn_names_index::Names;
use asn_places_types::{
    Around, Form, SetForm, Site, TypePlace, ValuePlace, scope_in, with_bare_type, with_site,
};
use asn_tree::{ASN1Type, Parameter, ParameterGovernor};
use std::alloc::Global;
use std::rc::Rc;

/// Whether the argument is written here, and is no dummy that is handed on.
fn is_written(scope: &Scope<'_>, argument: &Parameter) -> bool
    ensures { result ≡ is_written (shown scope.now) argument.now }
{
    match argument_name(argument) {
        None => true,
        Some(name) => {
            if scope.has_dummy(name.as_str()) {
                false
            } else {
                true
            }
        }
    }
}

/// The sites with an argument that is a type.
///
/// Err: want of memory.
#[tactic(auto, using(asn_places_types::proofs::Adding::nothing_more))]
fn with_type_argument<'a>(
    sites: List<Site<'a>>,
    around: &Rc<Around<'a>>,
    argument: &'a Parameter,
) -> Mem<List<Site<'a>>>
    ensures { IfOk result (λ more. shown_sites more ≡ shown_sites sites.entry ++ type_argument_sites (shown_around around.now.value) (out-Parameter argument.now)) }
{
    match argument {
        Parameter::ValueParameter(_) => Ok(sites),
        Parameter::TypeParameter(ty) => {
            let sites = with_bare_type(sites, around, TypePlace::InPlace, ty)?;
            Ok(sites)
        }
        Parameter::InformationObjectParameter(_) => Ok(sites),
        Parameter::ObjectSetParameter(_) => Ok(sites),
    }
}

/// The sites with an argument that is a value, under this type.
///
/// Err: want of memory.
#[tactic(auto, using(asn_places_types::proofs::Adding::nothing_more))]
fn with_value_argument<'a>(
    alloc: Global,
    sites: List<Site<'a>>,
    around: &Rc<Around<'a>>,
    place: Place<'a>,
    argument: &'a Parameter,
) -> Mem<List<Site<'a>>>
    ensures { IfOk result (λ more. shown_sites more ≡ shown_sites sites.entry ++ value_argument_sites (shown_around around.now.value) (shown_place place.entry) (out-Parameter argument.now)) }
{
    match argument {
        Parameter::ValueParameter(value) => {
            let place = Box::new(alloc, place)?;
            let form = Form::AValue(ValuePlace::AsSuch, ValueForm::Written(value), Some(place));
            let sites = with_site(sites, around, form)?;
            Ok(sites)
        }
        Parameter::TypeParameter(_) => Ok(sites),
        Parameter::InformationObjectParameter(_) => Ok(sites),
        Parameter::ObjectSetParameter(_) => Ok(sites),
    }
}

/// The set that stands at a place.
fn placed_set<'a>(set: ArgumentSet<'a>) -> SetForm<'a>
    ensures { shown_set result ≡ shown_argument_set set.entry }
{
    match set {
        ArgumentSet::Written(set) => SetForm::Written(set),
        ArgumentSet::Named(name) => SetForm::Named(name),
        ArgumentSet::Nothing => SetForm::Nothing,
    }
}

/// The sites with an argument where no governor stands.
///
/// Err: want of memory.
#[tactic(auto, using(asn_places_types::proofs::Adding::nothing_more))]
fn with_ungoverned<'a>(
    sites: List<Site<'a>>,
    around: &Rc<Around<'a>>,
    argument: &'a Parameter,
) -> Mem<List<Site<'a>>>
    ensures { IfOk result (λ more. shown_sites more ≡ shown_sites sites.entry ++ (if is_written (shown_around around.now.value).scope argument.now then type_argument_sites (shown_around around.now.value) (out-Parameter argument.now) else [])) }
{
    if is_written(scope_in(around), argument) {
        let sites = with_type_argument(sites, around, argument)?;
        Ok(sites)
    } else {
        Ok(sites)
    }
}

/// The sites with an argument under the type that governs it; where that is a class's name, nothing stands in the argument.
///
/// Err: want of memory.
#[tactic(auto, using(asn_places_types::proofs::Adding::nothing_more))]
fn with_typed<'a>(
    alloc: Global,
    names: &Names<'a>,
    sites: List<Site<'a>>,
    around: &Rc<Around<'a>>,
    argument: &'a Parameter,
    inner: &Scope<'a>,
    ty: &'a ASN1Type,
) -> Mem<List<Site<'a>>>
    ensures { IfOk result (λ more. (n : ℕ) → shown_sites more ≡ shown_sites sites.entry ++ governed_sites (seen names.now.definitions.now n) (shown_around around.now.value) argument.now (shown inner.now) (governor.TypeOrClass ty.now)) }
{
    if is_class_at(names, inner, kind_of_tree(ty)) {
        Ok(sites)
    } else {
        let place = governing(alloc, inner, ty)?;
        let sites = with_value_argument(alloc, sites, around, place, argument)?;
        Ok(sites)
    }
}

/// The sites with an argument that is an object set, under this class.
///
/// Err: want of memory.
#[tactic(auto, using(asn_places_types::proofs::Adding::nothing_more))]
fn with_set_argument<'a>(
    names: &Names<'a>,
    sites: List<Site<'a>>,
    around: &Rc<Around<'a>>,
    argument: &'a Parameter,
    inner: &Scope<'a>,
    class: &Text,
) -> Mem<List<Site<'a>>>
    ensures { IfOk result (λ more. shown_sites more ≡ shown_sites sites.entry ++ once [] (set_argument (out-Parameter argument.now)) (λ set. beside (shown_around around.now.value) (AnObjectSet (class_in_scope names.now.definitions.now (shown inner.now) class.now) set) ∷ [])) }
{
    match set_argument(argument) {
        None => Ok(sites),
        Some(set) => {
            let class = class_in_scope(names, inner, class.as_str());
            let form = Form::AnObjectSet(class, placed_set(set));
            let sites = with_site(sites, around, form)?;
            Ok(sites)
        }
    }
}

/// The sites with an argument under the class that governs it.
///
/// Err: want of memory.
#[tactic(auto, using(asn_places_types::proofs::Adding::nothing_more))]
fn with_classed<'a>(
    names: &Names<'a>,
    sites: List<Site<'a>>,
    around: &Rc<Around<'a>>,
    argument: &'a Parameter,
    inner: &Scope<'a>,
    class: &Text,
) -> Mem<List<Site<'a>>>
    ensures { IfOk result (λ more. (n : ℕ) → shown_sites more ≡ shown_sites sites.entry ++ governed_sites (seen names.now.definitions.now n) (shown_around around.now.value) argument.now (shown inner.now) (governor.Class class.now)) }
{
    if is_written(scope_in(around), argument) {
        let sites = with_set_argument(names, sites, around, argument, inner, class)?;
        Ok(sites)
    } else {
        Ok(sites)
    }
}

/// The sites with an argument under its governor: a type where no governor stands, a value under its governor, an object set under its
/// class. The governor is read in the template's scope.
///
/// Err: want of memory.
pub fn with_governed<'a>(
    alloc: Global,
    names: &Names<'a>,
    sites: List<Site<'a>>,
    around: &Rc<Around<'a>>,
    argument: &'a Parameter,
    inner: &Scope<'a>,
    governor: &'a ParameterGovernor,
) -> Mem<List<Site<'a>>>
    ensures { IfOk result (λ more. (n : ℕ) → shown_sites more ≡ shown_sites sites.entry ++ governed_sites (seen names.now.definitions.now n) (shown_around around.now.value) argument.now (shown inner.now) governor.now) }
{
    match governor {
        ParameterGovernor::None => {
            let sites = with_ungoverned(sites, around, argument)?;
            Ok(sites)
        }
        ParameterGovernor::TypeOrClass(ty) => {
            let sites = with_typed(alloc, names, sites, around, argument, inner, ty)?;
            Ok(sites)
        }
        ParameterGovernor::Class(class) => {
            let sites = with_classed(names, sites, around, argument, inner, class)?;
            Ok(sites)
        }
    }
}
