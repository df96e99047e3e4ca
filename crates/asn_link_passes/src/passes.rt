//! The passes that look for one form each, also in contents, in tables and in arguments (asn_link_forms). Outside templates linking leaves
//! contents and tables as they are: a type in which the form stands in these alone is linked too, and the form stays there.

ghost use Rattle.asn_link_forms.specs.declared.forms.Form.TheVariants.{ClassField, ComponentsOf, ConstraintReference, Selection};
ghost use Rattle.asn_link_passes.specs.Promises.{IsPass};
ghost use Rattle.std.specs.Prelude.{IfOk};

use crate::linking::{Limits, link_type};
use asn_link_forms::{Form, stands_in};
use asn_memory::Mem;
use asn_names_index::Names;
use asn_tree::ASN1Type;
use std::alloc::Global;

/// What a pass makes of a type.
#[derive(Drop)]
pub enum Pass {
    /// Nothing of the kind stands in the type: it stays.
    Stays,
    /// What takes the type's place.
    Linked(ASN1Type),
    /// There is no instance within these steps and levels.
    Lost,
}

/// What linking makes of a type in which the form stands.
///
/// Err: as for `link_type`.
fn link_form<'a>(
    alloc: Global,
    names: &Names<'a>,
    limits: Limits,
    form: Form,
    ty: &'a ASN1Type,
) -> Mem<Pass>
    ensures { IfOk result (IsPass form names.now.definitions.now limits.steps limits.levels ty.now) }
{
    if !stands_in(form, ty) {
        return Ok(Pass::Stays);
    }
    match link_type(alloc, names, limits, ty)? {
        Some(linked) => Ok(Pass::Linked(linked)),
        None => Ok(Pass::Lost),
    }
}

/// Puts the type of its alternative in for each selection type outside contents and tables (X.680 30.2), where one stands in the type, there
/// or in these.
///
/// All other forms that `link_type` replaces go with it: the type that is given is in plain form, and accepts and rejects the same trees.
///
/// # Errors
///
/// As for `link_type`.
pub fn link_choice_selection_type<'a>(
    alloc: Global,
    names: &Names<'a>,
    limits: Limits,
    ty: &'a ASN1Type,
) -> Mem<Pass>
    ensures { IfOk result (IsPass Selection names.now.definitions.now limits.steps limits.levels ty.now) }
{
    let made = link_form(alloc, names, limits, Form::Selection, ty)?;
    Ok(made)
}

/// Puts the members of its type in for each COMPONENTS OF outside contents and tables (X.680 25.5), where one stands in the type, there or
/// in these.
///
/// All other forms that `link_type` replaces go with it: the type that is given is in plain form, and accepts and rejects the same trees.
///
/// # Errors
///
/// As for `link_type`.
pub fn link_components_of_notation<'a>(
    alloc: Global,
    names: &Names<'a>,
    limits: Limits,
    ty: &'a ASN1Type,
) -> Mem<Pass>
    ensures { IfOk result (IsPass ComponentsOf names.now.definitions.now limits.steps limits.levels ty.now) }
{
    let made = link_form(alloc, names, limits, Form::ComponentsOf, ty)?;
    Ok(made)
}

/// Puts the type that the class fixes in for each of its fields outside contents and tables (X.681 14), where one whose last step is a value
/// field stands in the type, there or in these.
///
/// All other forms that `link_type` replaces go with it: the type that is given is in plain form, and accepts and rejects the same trees.
///
/// # Errors
///
/// As for `link_type`.
pub fn resolve_class_reference<'a>(
    alloc: Global,
    names: &Names<'a>,
    limits: Limits,
    ty: &'a ASN1Type,
) -> Mem<Pass>
    ensures { IfOk result (IsPass ClassField names.now.definitions.now limits.steps limits.levels ty.now) }
{
    let made = link_form(alloc, names, limits, Form::ClassField, ty)?;
    Ok(made)
}

/// Puts in what the references in constraints stand for, where one stands in the type outside contents and tables: the instance of a
/// template for its arguments (X.683 8, 9), a literal for the name of a value (X.680 51.2, 51.4), and its type for a plain name as the head
/// of a contained subtype (X.680 51.3). An item of an ENUMERATED keeps its name, and so does a default outside templates.
///
/// All other forms that `link_type` replaces go with it: the type that is given is in plain form, and accepts and rejects the same trees.
///
/// # Errors
///
/// As for `link_type`.
pub fn link_constraint_reference<'a>(
    alloc: Global,
    names: &Names<'a>,
    limits: Limits,
    ty: &'a ASN1Type,
) -> Mem<Pass>
    ensures { IfOk result (IsPass ConstraintReference names.now.definitions.now limits.steps limits.levels ty.now) }
{
    let made = link_form(alloc, names, limits, Form::ConstraintReference, ty)?;
    Ok(made)
}
