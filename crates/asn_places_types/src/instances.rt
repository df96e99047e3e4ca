//! Templates with the arguments of their lists (X.683 9), and what stands in them.

ghost use Rattle.asn_meaning_heads.specs.Kinds.{shown_kind};
ghost use Rattle.asn_meaning_heads.specs.Scopes.{shown};
ghost use Rattle.asn_meaning.specs.Names.{lists_in};
ghost use Rattle.asn_needs.specs.PartsOfTypes.{argument_sites, at_head, entered_sites, inner_scope, instance_at, instance_by, instance_named, instance_sites, template_sites};
ghost use Rattle.asn_needs.specs.Sites.{beside, ADummy};
ghost use Rattle.asn_places_types.specs.Forms.{shown_at};
ghost use Rattle.asn_places_types.specs.inner.Lists.{argument_site, shown_first, split};
ghost use Rattle.asn_places_types.specs.Instances.{shown_instance};
ghost use Rattle.asn_places_types.specs.Sites.{shown_around, shown_sites};
ghost use Rattle.std.specs.List.{list_any};
ghost use Rattle.std.specs.Option.{option_map};
ghost use Rattle.std.specs.Prelude.{◌≡◌, ◌++◌, ◌∷◌, [], IfOk, Some, drop, map};
ghost use Rattle.std.specs.Str.{bytes_eq};

use crate::forms::{Form, TypePlace};
use crate::loose::{list_in, with_loose_arguments, with_loose_lists};
use crate::scopes::filled;
use crate::sites::{Site, with_site};
use crate::surroundings::{Around, nested, scope_in};
use asn_meaning_heads::{Kind, Reference, Scope, TypeForm};
use asn_memory::{Box, List, Mem, Text};
use asn_names_index::Names;
use asn_tree::{
    Constraint, DeclarationElsewhere, Parameter, ParameterizationArgument, ToplevelTypeDefinition,
};
use std::alloc::Global;
use std::rc::Rc;

/// The first argument list among constraints, and the constraints behind it.
#[derive(Clone, Copy)]
pub struct FirstList<'a> {
    pub arguments: &'a [Parameter],
    pub behind: &'a [Constraint],
}

/// A template with the arguments of its list, and the constraints behind the list.
#[derive(Clone, Copy)]
pub struct Instance<'a> {
    pub template: &'a ToplevelTypeDefinition,
    pub dummies: &'a [ParameterizationArgument],
    pub arguments: &'a [Parameter],
    pub behind: &'a [Constraint],
}

/// The constraints from this number on.
fn behind<'a>(constraints: &'a [Constraint], number: usize) -> &'a [Constraint]
    ensures { result.now ≡ drop number constraints.now }
{
    match constraints.get(number..) {
        None => &[],
        Some(behind) => behind,
    }
}

/// The first argument list, where there is one.
#[tactic(auto, using(crate::proofs::Loosening::split_passed, crate::proofs::Loosening::split_found, crate::proofs::Loosening::split_done))]
fn first_list<'a>(constraints: &'a [Constraint]) -> Option<FirstList<'a>>
    ensures { option_map shown_first result ≡ split (lists_in constraints.now) }
{
    for i in 0..constraints.len() {
        if let Some(arguments) = list_in(&constraints[i]) {
            let behind = behind(constraints, i + 1);
            return Some(FirstList { arguments, behind });
        }
    }
    None
}

/// The template with the first list of these constraints.
#[tactic(auto, using(crate::proofs::Entering::instance_none, crate::proofs::Entering::instance_plain, crate::proofs::Entering::instance_some))]
fn instance_by<'a>(
    template: &'a ToplevelTypeDefinition,
    constraints: &'a [Constraint],
) -> Option<Instance<'a>>
    ensures { option_map shown_instance result ≡ instance_by template.now (lists_in constraints.now) }
{
    match (first_list(constraints), &template.parameterization) {
        (None, _) => None,
        (Some(_), None) => None,
        (Some(list), Some(parameters)) => Some(Instance {
            template,
            dummies: parameters.parameters.as_slice(),
            arguments: list.arguments,
            behind: list.behind,
        }),
    }
}

/// The template that a reference instantiates (X.683 9.1).
fn instance_named<'a>(
    names: &Names<'a>,
    scope: &Scope<'_>,
    reference: &'a DeclarationElsewhere,
) -> Option<Instance<'a>>
    ensures { option_map shown_instance result ≡ instance_named names.now.definitions.now (shown scope.now) reference.now }
{
    if reference.parent.is_some() || scope.has_dummy(reference.identifier.as_str()) {
        return None;
    }
    match names.type_named(reference.identifier.as_str()) {
        None => None,
        Some(template) => instance_by(template, reference.constraints.as_slice()),
    }
}

/// The template that a type of the kind instantiates (X.683 9.1).
pub fn instance_at<'a>(names: &Names<'a>, scope: &Scope<'_>, kind: Kind<'a>) -> Option<Instance<'a>>
    ensures { option_map shown_instance result ≡ instance_at names.now.definitions.now (shown scope.now) (shown_kind kind.entry) }
{
    match kind {
        Kind::Reference(Reference::Written(reference)) => instance_named(names, scope, reference),
        Kind::Reference(Reference::Named(_)) => None,
        Kind::Null => None,
        Kind::Boolean => None,
        Kind::Integer(_) => None,
        Kind::Real => None,
        Kind::BitString(_) => None,
        Kind::OctetString => None,
        Kind::CharacterString(_) => None,
        Kind::Time => None,
        Kind::Enumerated(_) => None,
        Kind::ObjectIdentifier => None,
        Kind::Opaque => None,
        Kind::Struct(_) => None,
        Kind::List(_) => None,
        Kind::Choice(_) => None,
        Kind::Field(_) => None,
        Kind::Selection(_) => None,
    }
}

/// A copy of the scope, on the heap.
///
/// Err: want of memory.
fn boxed<'a>(alloc: Global, scope: &Scope<'a>) -> Mem<Box<Scope<'a>>>
    ensures { IfOk result (λ copy. shown copy ≡ shown scope.now) }
{
    let copy = scope.copy(alloc)?;
    let copy = Box::new(alloc, copy)?;
    Ok(copy)
}

/// The sites with a dummy, and the argument of its number, where there is one.
///
/// Err: want of memory.
#[tactic(auto, using(crate::proofs::Filling::argument_bound, crate::proofs::Filling::argument_open))]
fn with_argument_of<'a>(
    alloc: Global,
    sites: List<Site<'a>>,
    around: &Rc<Around<'a>>,
    inner: &Scope<'a>,
    dummy: &'a ParameterizationArgument,
    arguments: &'a [Parameter],
    number: usize,
) -> Mem<List<Site<'a>>>
    ensures { IfOk result (λ more. shown_sites more ≡ shown_sites sites.entry ++ argument_site (shown_around around.now.value) (shown inner.now) dummy.now (drop number arguments.now) ∷ []) }
{
    if number < arguments.len() {
        let inner = boxed(alloc, inner)?;
        let form = Form::AnArgument(&arguments[number], dummy, inner);
        let sites = with_site(sites, around, form)?;
        Ok(sites)
    } else {
        let sites = with_site(sites, around, Form::NoArgument)?;
        Ok(sites)
    }
}

/// The sites with the arguments of a template's list, each with its dummy.
///
/// Err: want of memory.
#[tactic(auto, using(crate::proofs::Filling::arguments_next, crate::proofs::Filling::arguments_done))]
pub fn with_arguments<'a>(
    alloc: Global,
    sites: List<Site<'a>>,
    around: &Rc<Around<'a>>,
    inner: &Scope<'a>,
    dummies: &'a [ParameterizationArgument],
    arguments: &'a [Parameter],
) -> Mem<List<Site<'a>>>
    ensures { IfOk result (λ more. shown_sites more ≡ shown_sites sites.entry ++ argument_sites (shown_around around.now.value) (shown inner.now) dummies.now arguments.now) }
{
    let mut sites = sites;
    for i in 0..dummies.len() {
        sites = with_argument_of(alloc, sites, around, inner, &dummies[i], arguments, i)?;
    }
    let sites = with_loose_arguments(sites, around, beyond(arguments, dummies.len()))?;
    Ok(sites)
}

/// The arguments from this number on.
fn beyond<'a>(arguments: &'a [Parameter], number: usize) -> &'a [Parameter]
    ensures { result.now ≡ drop number arguments.now }
{
    match arguments.get(number..) {
        None => &[],
        Some(beyond) => beyond,
    }
}

/// Where the type of a template stands.
fn at_head(at: TypePlace) -> TypePlace
    ensures { shown_at result ≡ at_head (shown_at at) }
{
    match at {
        TypePlace::AtHead => TypePlace::AtHead,
        TypePlace::AtHeadOfField => TypePlace::AtHead,
        TypePlace::OfField => TypePlace::InPlace,
        TypePlace::InPlace => TypePlace::InPlace,
    }
}

/// The sites with the dummies of a template.
///
/// Err: want of memory.
pub fn with_dummies<'a>(
    sites: List<Site<'a>>,
    around: &Rc<Around<'a>>,
    dummies: &'a [ParameterizationArgument],
) -> Mem<List<Site<'a>>>
    ensures { IfOk result (λ more. shown_sites more ≡ shown_sites sites.entry ++ map (λ dummy. beside (shown_around around.now.value) (ADummy dummy)) dummies.now) }
{
    let mut sites = sites;
    for dummy in dummies {
        sites = with_site(sites, around, Form::ADummy(dummy))?;
    }
    Ok(sites)
}

/// The sites with a template's type and dummies.
///
/// Err: want of memory.
#[tactic(auto, using(crate::proofs::Adding::then_cons))]
fn with_template<'a>(
    sites: List<Site<'a>>,
    inner: &Rc<Around<'a>>,
    at: TypePlace,
    instance: Instance<'a>,
) -> Mem<List<Site<'a>>>
    ensures { IfOk result (λ more. shown_sites more ≡ shown_sites sites.entry ++ template_sites (shown_around inner.now.value) (shown_at at) (shown_instance instance.entry)) }
{
    let form = Form::AType(at_head(at), TypeForm::Written(&instance.template.ty), None);
    let sites = with_site(sites, inner, form)?;
    let sites = with_dummies(sites, inner, instance.dummies)?;
    Ok(sites)
}

/// Whether a name is among these.
fn is_among(names: &[&Text], name: &str) -> bool
    ensures { result ≡ list_any (bytes_eq name.now) (map (λ n. n.now) names.now) }
{
    for other in names {
        if name == other.as_str() {
            return true;
        }
    }
    false
}

/// The sites with what stands in the template that is instantiated, unless it is entered within itself or stands in a
/// content or table constraint.
///
/// Err: want of memory.
#[tactic(auto, using(crate::proofs::Entering::entered_opaque, crate::proofs::Entering::entered_again, crate::proofs::Entering::entered_inside))]
fn with_entered<'a>(
    alloc: Global,
    sites: List<Site<'a>>,
    around: &Rc<Around<'a>>,
    inner: &Scope<'a>,
    at: TypePlace,
    instance: Instance<'a>,
) -> Mem<List<Site<'a>>>
    requires { shown inner.now ≡ inner_scope (shown_around around.now.value) (shown_instance instance) }
    ensures { IfOk result (λ more. shown_sites more ≡ shown_sites sites.entry ++ entered_sites (shown_around around.now.value) (shown_at at) (shown_instance instance.entry)) }
{
    let here = around.as_ref();
    if here.is_opaque || is_among(here.nest.as_slice(), instance.template.name.as_str()) {
        return Ok(sites);
    }
    let inside = nested(alloc, around, inner, &instance.template.name)?;
    let sites = with_template(sites, &inside, at, instance)?;
    Ok(sites)
}

/// The sites with a template's arguments, what stands in it, and further lists.
///
/// Err: want of memory.
#[tactic(auto, using(crate::proofs::Entering::instance_done))]
fn with_instance<'a>(
    alloc: Global,
    sites: List<Site<'a>>,
    around: &Rc<Around<'a>>,
    at: TypePlace,
    instance: Instance<'a>,
) -> Mem<List<Site<'a>>>
    ensures { IfOk result (λ more. shown_sites more ≡ shown_sites sites.entry ++ instance_sites (shown_around around.now.value) (shown_at at) (lists_in instance.entry.behind.now) (Some (shown_instance instance.entry))) }
{
    let inner = filled(
        alloc,
        scope_in(around),
        instance.dummies,
        instance.arguments,
    )?;
    let sites = with_arguments(
        alloc,
        sites,
        around,
        &inner,
        instance.dummies,
        instance.arguments,
    )?;
    let sites = with_entered(alloc, sites, around, &inner, at, instance)?;
    let sites = with_loose_lists(sites, around, instance.behind)?;
    Ok(sites)
}

/// The sites with the template that a type instantiates, or with the lists that stand on none.
///
/// Err: want of memory.
pub fn with_lists<'a>(
    alloc: Global,
    sites: List<Site<'a>>,
    around: &Rc<Around<'a>>,
    at: TypePlace,
    constraints: &'a [Constraint],
    instance: Option<Instance<'a>>,
) -> Mem<List<Site<'a>>>
    ensures { IfOk result (λ more. shown_sites more ≡ shown_sites sites.entry ++ instance_sites (shown_around around.now.value) (shown_at at) (lists_in constraints.now) (option_map shown_instance instance.entry)) }
{
    match instance {
        None => {
            let sites = with_loose_lists(sites, around, constraints)?;
            Ok(sites)
        }
        Some(instance) => {
            let sites = with_instance(alloc, sites, around, at, instance)?;
            Ok(sites)
        }
    }
}
