//! What stands in what stands at a place, one level down.

ghost use Rattle.asn_meaning_heads.specs.Kinds.{shown_type};
ghost use Rattle.asn_meaning_heads.specs.Scopes.{shown};
ghost use Rattle.asn_meaning_heads.specs.Values.{shown_value};
ghost use Rattle.asn_needs.specs.PartsOfConstraints.{constraint_parts, element_parts, listed_parts, set_parts};
ghost use Rattle.asn_needs.specs.PartsOfTypes.{argument_parts, type_sites};
ghost use Rattle.asn_needs.specs.PartsOfValues.{value_sites};
ghost use Rattle.asn_needs.specs.Sites.{seen};
ghost use Rattle.asn_needs.specs.Stands.{parts, parts_at};
ghost use Rattle.asn_meaning.specs.Placed.{listed};
ghost use Rattle.asn_places_types.specs.Forms.{shown_asked, shown_at, shown_form, shown_governor};
ghost use Rattle.asn_places_types.specs.Sites.{shown_around, shown_site, shown_sites};
ghost use Rattle.asn_tree.specs.declared.constraints.Constraint.{out-Constraint};
ghost use Rattle.asn_tree.specs.declared.constraints.ElementOrSetOperation.{out-ElementOrSetOperation};
ghost use Rattle.asn_tree.specs.declared.constraints.SubtypeElement.{out-SubtypeElement};
ghost use Rattle.std.specs.Option.{option_copied};
ghost use Rattle.std.specs.Prelude.{◌≡◌, ◌+◌, ℕ, IfOk};

use asn_meaning_heads::{Place, Scope, TypeForm, ValueForm};
use asn_memory::{Box, List, Mem};
use asn_names_index::Names;
use asn_places_constraints::{with_constraint, with_element, with_listed, with_set};
use asn_places_objects::{
    with_argument_parts, with_class_field, with_given, with_loose_field, with_loose_parts,
    with_object, with_set_items,
};
use asn_places_types::{
    Around, Asked, Form, OnConstraint, OnElement, OnSet, Site, TypePlace, constraints_behind, lent,
    unboxed, with_governor, with_type,
};
use asn_places_values::with_value;
use asn_tree::{ConstrainedComponent, Constraint, Parameter, ParameterizationArgument};
use std::alloc::Global;
use std::rc::Rc;

/// What stands in a value, under the type that governs it.
///
/// Err: want of memory, also where the steps are used up.
fn in_value<'a>(
    alloc: Global,
    names: &Names<'a>,
    steps: usize,
    around: &Rc<Around<'a>>,
    value: ValueForm<'a>,
    governor: &Option<Box<Place<'a>>>,
) -> Mem<List<Site<'a>>>
    ensures { IfOk result (λ ps. (m : ℕ) → shown_sites ps ≡ value_sites (seen names.now.definitions.now (steps + m)) (shown_around around.now.value) (shown_governor governor.now) (shown_value value.entry)) }
{
    let none = List::new(alloc);
    let place = unboxed(governor);
    let sites = with_value(alloc, names, steps, none, around, place, value)?;
    Ok(sites)
}

/// What stands in a constraint.
///
/// Err: want of memory.
fn in_constraint<'a>(
    alloc: Global,
    around: &Rc<Around<'a>>,
    on: &OnConstraint<'a>,
) -> Mem<List<Site<'a>>>
    ensures { IfOk result (λ ps. shown_sites ps ≡ constraint_parts (shown_around around.now.value) (shown_governor on.now.place) (out-Constraint on.now.constraint.now)) }
{
    let none = List::new(alloc);
    let sites = with_constraint(alloc, none, around, lent(&on.place), on.constraint)?;
    Ok(sites)
}

/// What stands in a set of elements.
///
/// Err: want of memory.
fn in_set<'a>(
    alloc: Global,
    around: &Rc<Around<'a>>,
    asked: Asked,
    on: &OnSet<'a>,
) -> Mem<List<Site<'a>>>
    ensures { IfOk result (λ ps. shown_sites ps ≡ set_parts (shown_around around.now.value) (shown_asked asked) (shown_governor on.now.place) (out-ElementOrSetOperation on.now.set.now)) }
{
    let none = List::new(alloc);
    let sites = with_set(alloc, none, around, asked, lent(&on.place), on.set)?;
    Ok(sites)
}

/// What stands in an element.
///
/// Err: want of memory, also where the steps are used up.
fn in_element<'a>(
    alloc: Global,
    names: &Names<'a>,
    steps: usize,
    around: &Rc<Around<'a>>,
    asked: Asked,
    on: &OnElement<'a>,
) -> Mem<List<Site<'a>>>
    ensures { IfOk result (λ ps. (m : ℕ) → shown_sites ps ≡ element_parts (seen names.now.definitions.now (steps + m)) (shown_around around.now.value) (shown_asked asked) (shown_governor on.now.place) (out-SubtypeElement on.now.element.now)) }
{
    let none = List::new(alloc);
    let place = lent(&on.place);
    let sites = with_element(alloc, names, steps, none, around, asked, place, on.element)?;
    Ok(sites)
}

/// What stands in a listed component, on the type of the component.
///
/// Err: want of memory, also where the steps are used up.
fn in_listed<'a>(
    alloc: Global,
    names: &Names<'a>,
    steps: usize,
    around: &Rc<Around<'a>>,
    component: &'a ConstrainedComponent,
    governor: &Option<Box<Place<'a>>>,
) -> Mem<List<Site<'a>>>
    ensures { IfOk result (λ ps. (m : ℕ) → shown_sites ps ≡ listed_parts (seen names.now.definitions.now (steps + m)) (shown_around around.now.value) (shown_governor governor.now) component.now) }
{
    let none = List::new(alloc);
    let place = unboxed(governor);
    let sites = with_listed(alloc, names, steps, none, around, place, component)?;
    Ok(sites)
}

/// What stands in an argument for a dummy of a template, whose scope is `inner`.
///
/// Err: want of memory, also where the steps are used up.
fn in_argument<'a>(
    alloc: Global,
    names: &Names<'a>,
    steps: usize,
    around: &Rc<Around<'a>>,
    argument: &'a Parameter,
    dummy: &'a ParameterizationArgument,
    inner: &Scope<'a>,
) -> Mem<List<Site<'a>>>
    ensures { IfOk result (λ ps. (m : ℕ) → shown_sites ps ≡ argument_parts (seen names.now.definitions.now (steps + m)) (shown_around around.now.value) argument.now dummy.now (shown inner.now)) }
{
    let none = List::new(alloc);
    let sites = with_argument_parts(alloc, names, steps, none, around, argument, dummy, inner)?;
    Ok(sites)
}

/// What stands in a type, behind which these constraints stand.
///
/// Err: want of memory.
fn in_type<'a>(
    alloc: Global,
    names: &Names<'a>,
    around: &Rc<Around<'a>>,
    at: TypePlace,
    ty: TypeForm<'a>,
    behind: Option<&'a List<Constraint>>,
) -> Mem<List<Site<'a>>>
    ensures { IfOk result (λ ps. (n : ℕ) → shown_sites ps ≡ type_sites (seen names.now.definitions.now n) (shown_around around.now.value) (shown_at at) (shown_type ty.entry) (listed (option_copied behind.entry))) }
{
    let none = List::new(alloc);
    let behind = constraints_behind(behind);
    let sites = with_type(alloc, names, none, around, at, ty, behind)?;
    Ok(sites)
}

/// What stands in this form in these surroundings.
///
/// Err: want of memory, also where the steps are used up.
fn parts_in<'a>(
    alloc: Global,
    names: &Names<'a>,
    steps: usize,
    around: &Rc<Around<'a>>,
    form: &Form<'a>,
) -> Mem<List<Site<'a>>>
    ensures { IfOk result (λ ps. (m : ℕ) → shown_sites ps ≡ parts_at (seen names.now.definitions.now (steps + m)) (shown_around around.now.value) (shown_form form.now)) }
{
    match form {
        Form::AType(at, ty, behind) => Ok(in_type(alloc, names, around, *at, *ty, *behind)?),
        Form::ComponentsOf(_) => Ok(List::new(alloc)),
        Form::AValue(_, v, p) => Ok(in_value(alloc, names, steps, around, *v, p)?),
        Form::AConstraint(on) => Ok(in_constraint(alloc, around, on.get())?),
        Form::ASet(asked, on) => Ok(in_set(alloc, around, *asked, on.get())?),
        Form::AnElement(of, on) => Ok(in_element(alloc, names, steps, around, *of, on.get())?),
        Form::AListed(c, p) => Ok(in_listed(alloc, names, steps, around, c, p)?),
        Form::LooseList => Ok(List::new(alloc)),
        Form::AnArgument(argument, dummy, inner) => {
            let inner = inner.get();
            Ok(in_argument(alloc, names, steps, around, argument, dummy, inner)?)
        }
        Form::NoArgument => Ok(List::new(alloc)),
        Form::LooseArgument(argument) => {
            let sites = List::new(alloc);
            Ok(with_loose_parts(sites, around, argument)?)
        },
        Form::ADummy(dummy) => {
            let sites = List::new(alloc);
            Ok(with_governor(sites, around, &dummy.param_governor)?)
        },
        Form::ClassName(_) => Ok(List::new(alloc)),
        Form::ClassField(at, f) => {
            let sites = List::new(alloc);
            Ok(with_class_field(alloc, sites, around, *at, *f)?)
        },
        Form::AnObject(c, fields) => {
            let sites = List::new(alloc);
            Ok(with_object(alloc, names, sites, around, *c, fields)?)
        },
        Form::AGivenField(c, field) => {
            let sites = List::new(alloc);
            Ok(with_given(alloc, sites, around, *c, *field)?)
        },
        Form::LooseField(field) => {
            let sites = List::new(alloc);
            Ok(with_loose_field(alloc, sites, around, field)?)
        },
        Form::AnObjectSet(c, set) => {
            let sites = List::new(alloc);
            Ok(with_set_items(sites, around, *c, *set)?)
        },
        Form::SetName(_) => Ok(List::new(alloc)),
    }
}

/// What stands in what stands at a place, one level down.
///
/// Err: want of memory, also where the steps are used up.
pub fn parts<'a>(
    alloc: Global,
    names: &Names<'a>,
    steps: usize,
    site: &Site<'a>,
) -> Mem<List<Site<'a>>>
    ensures { IfOk result (λ ps. (m : ℕ) → shown_sites ps ≡ parts (seen names.now.definitions.now (steps + m)) (shown_site site.now)) }
{
    let sites = parts_in(alloc, names, steps, &site.around, &site.form)?;
    Ok(sites)
}
