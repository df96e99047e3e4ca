//! What stands in a set of values of a type (X.680 50).

ghost use Rattle.asn_meaning_heads.specs.Places.{shown_place};
ghost use Rattle.asn_needs.specs.PartsOfConstraints.{set_parts};
ghost use Rattle.asn_needs.specs.Sites.{beside, ASet, AnElement};
ghost use Rattle.asn_places_types.specs.Forms.{shown_asked, shown_form};
ghost use Rattle.asn_places_types.specs.Sites.{shown_around, shown_sites};
ghost use Rattle.asn_tree.specs.declared.constraints.ElementOrSetOperation.{out-ElementOrSetOperation};
ghost use Rattle.asn_tree.specs.declared.constraints.SetOperation.{out-SetOperation};
ghost use Rattle.std.specs.Option.{option_map};
ghost use Rattle.std.specs.Prelude.{◌≡◌, ◌++◌, ◌∷◌, [], IfOk};

use asn_meaning_heads::Place;
use asn_memory::{Box, List, Mem};
use asn_places_types::{Around, Asked, Form, OnElement, OnSet, Site, governor_copied, with_site};
use asn_tree::{ElementOrSetOperation, SetOperation, SubtypeElement};
use std::alloc::Global;
use std::rc::Rc;

/// A set of values of a type.
///
/// Err: want of memory.
fn on_set<'a>(
    alloc: Global,
    asked: Asked,
    place: Option<&Place<'a>>,
    set: &'a ElementOrSetOperation,
) -> Mem<Form<'a>>
    ensures { IfOk result (λ form. shown_form form ≡ ASet (shown_asked asked) set.now (option_map (λ p. shown_place p.now) place.entry)) }
{
    let place = governor_copied(alloc, place)?;
    let on = Box::new(alloc, OnSet { set, place })?;
    Ok(Form::ASet(asked, on))
}

/// An element of a set of values of a type.
///
/// Err: want of memory.
fn on_element<'a>(
    alloc: Global,
    asked: Asked,
    place: Option<&Place<'a>>,
    element: &'a SubtypeElement,
) -> Mem<Form<'a>>
    ensures { IfOk result (λ form. shown_form form ≡ AnElement (shown_asked asked) element.now (option_map (λ p. shown_place p.now) place.entry)) }
{
    let place = governor_copied(alloc, place)?;
    let on = Box::new(alloc, OnElement { element, place })?;
    Ok(Form::AnElement(asked, on))
}

/// The sites with a set of values of a type.
///
/// Err: want of memory.
pub fn with_set_on<'a>(
    alloc: Global,
    sites: List<Site<'a>>,
    around: &Rc<Around<'a>>,
    asked: Asked,
    place: Option<&Place<'a>>,
    set: &'a ElementOrSetOperation,
) -> Mem<List<Site<'a>>>
    ensures { IfOk result (λ more. shown_sites more ≡ shown_sites sites.entry ++ beside (shown_around around.now.value) (ASet (shown_asked asked) set.now (option_map (λ p. shown_place p.now) place.entry)) ∷ []) }
{
    let form = on_set(alloc, asked, place, set)?;
    let sites = with_site(sites, around, form)?;
    Ok(sites)
}

/// The sites with an element of a set of values of a type.
///
/// Err: want of memory.
fn with_element_on<'a>(
    alloc: Global,
    sites: List<Site<'a>>,
    around: &Rc<Around<'a>>,
    asked: Asked,
    place: Option<&Place<'a>>,
    element: &'a SubtypeElement,
) -> Mem<List<Site<'a>>>
    ensures { IfOk result (λ more. shown_sites more ≡ shown_sites sites.entry ++ beside (shown_around around.now.value) (AnElement (shown_asked asked) element.now (option_map (λ p. shown_place p.now) place.entry)) ∷ []) }
{
    let form = on_element(alloc, asked, place, element)?;
    let sites = with_site(sites, around, form)?;
    Ok(sites)
}

/// The sites with an element, and with the set behind its operator.
///
/// Err: want of memory.
#[tactic(auto, using(asn_places_types::proofs::Adding::then_cons))]
fn with_operation<'a>(
    alloc: Global,
    sites: List<Site<'a>>,
    around: &Rc<Around<'a>>,
    asked: Asked,
    place: Option<&Place<'a>>,
    operation: &'a SetOperation,
) -> Mem<List<Site<'a>>>
    ensures { IfOk result (λ more. shown_sites more ≡ shown_sites sites.entry ++ beside (shown_around around.now.value) (AnElement (shown_asked asked) (out-SetOperation operation.now).base (option_map (λ p. shown_place p.now) place.entry)) ∷ beside (shown_around around.now.value) (ASet (shown_asked asked) (out-SetOperation operation.now).operant (option_map (λ p. shown_place p.now) place.entry)) ∷ []) }
{
    let sites = with_element_on(alloc, sites, around, asked, place, &operation.base)?;
    let sites = with_set_on(alloc, sites, around, asked, place, operation.operant.get())?;
    Ok(sites)
}

/// The sites with what stands in a set of values of a type, where the type is known.
///
/// Err: want of memory.
pub fn with_set<'a>(
    alloc: Global,
    sites: List<Site<'a>>,
    around: &Rc<Around<'a>>,
    asked: Asked,
    place: Option<&Place<'a>>,
    set: &'a ElementOrSetOperation,
) -> Mem<List<Site<'a>>>
    ensures { IfOk result (λ more. shown_sites more ≡ shown_sites sites.entry ++ set_parts (shown_around around.now.value) (shown_asked asked) (option_map (λ p. shown_place p.now) place.entry) (out-ElementOrSetOperation set.now)) }
{
    match set {
        ElementOrSetOperation::Element(element) => {
            let sites = with_element_on(alloc, sites, around, asked, place, element)?;
            Ok(sites)
        }
        ElementOrSetOperation::SetOperation(operation) => {
            let sites = with_operation(alloc, sites, around, asked, place, operation)?;
            Ok(sites)
        }
    }
}
