//! The forms, and the question of each.

ghost use Rattle.asn_link_forms.specs.Forms.{is_class_field, is_components_of, is_contained, is_reference, is_selection, is_sought_inside, stands_in};
ghost use Rattle.asn_link_forms.specs.declared.forms.Form.TheVariants.{ClassField, ComponentsOf, ConstraintReference, Selection};
ghost use Rattle.std.specs.Prelude.{◌≡◌};

use crate::types::in_type;
use asn_tree::ASN1Type;

/// A form that linking replaces.
#[derive(Clone, Copy, Debug, PartialEq, Eq)]
pub enum Form {
    /// A selection type, `x < C` (X.680 30.1).
    Selection,
    /// `COMPONENTS OF` (X.680 25.5).
    ComponentsOf,
    /// A class's field whose last step is a value field: a field of fixed type (X.681 14.1).
    ClassField,
    /// An argument list (X.683 9.1), a constraint's value or a default that is itself a name (X.680 14.1), or a plain name as the head of
    /// a contained subtype (X.680 51.3).
    ConstraintReference,
}

/// Where a type stands.
#[derive(Clone, Copy)]
pub(crate) enum Position {
    /// Anywhere but in a constraint.
    Alone,
    /// In a constraint, as a contained subtype.
    Contained,
}

/// Whether the form is a selection.
pub(crate) fn is_selection(form: Form) -> bool
    ensures { result ≡ is_selection form }
{
    matches!(form, Form::Selection)
}

/// Whether the form is COMPONENTS OF.
pub(crate) fn is_components_of(form: Form) -> bool
    ensures { result ≡ is_components_of form }
{
    matches!(form, Form::ComponentsOf)
}

/// Whether the form is a class's field.
pub(crate) fn is_class_field(form: Form) -> bool
    ensures { result ≡ is_class_field form }
{
    matches!(form, Form::ClassField)
}

/// Whether the form is a reference.
pub(crate) fn is_reference(form: Form) -> bool
    ensures { result ≡ is_reference form }
{
    matches!(form, Form::ConstraintReference)
}

/// Whether the form is looked for in contents and tables too.
pub(crate) fn is_sought_inside(form: Form) -> bool
    ensures { result ≡ is_sought_inside form }
{
    matches!(
        form,
        Form::Selection | Form::ComponentsOf | Form::ClassField
    )
}

/// Whether a type is a contained subtype.
pub(crate) fn is_contained(position: Position) -> bool
    ensures { result ≡ is_contained position }
{
    matches!(position, Position::Contained)
}

/// Whether the form stands in a type, at any depth: in its parts and its constraints, in the types that are arguments (X.683 clause 9),
/// in contents (X.682 clause 11), and in tables (X.682 clause 10) where an object is written out. A reference in contents and tables does
/// not count. What values hold is not looked into.
#[tactic(auto, unfolding(crate::specs::Forms::stands_in))]
pub fn stands_in(form: Form, ty: &ASN1Type) -> bool
    ensures { result ≡ stands_in form ty.now }
{
    in_type(form, ty, Position::Alone)
}

/// Whether a selection type stands in a type, at any depth (X.680 30.1): also in contents, in tables, and in types that are arguments.
pub fn has_choice_selection_type(ty: &ASN1Type) -> bool
    ensures { result ≡ stands_in Selection ty.now }
{
    stands_in(Form::Selection, ty)
}

/// Whether COMPONENTS OF stands in a type, at any depth (X.680 25.5): also in contents, in tables, and in types that are arguments.
pub fn contains_components_of_notation(ty: &ASN1Type) -> bool
    ensures { result ≡ stands_in ComponentsOf ty.now }
{
    stands_in(Form::ComponentsOf, ty)
}

/// Whether a class's field whose last step is a value field stands in a type, at any depth: one of fixed type, as `K.&id`, whose name
/// begins with a small letter (X.681 14.1, 7.5). Contents, tables and types that are arguments are looked into too.
pub fn references_class_by_name(ty: &ASN1Type) -> bool
    ensures { result ≡ stands_in ClassField ty.now }
{
    stands_in(Form::ClassField, ty)
}

/// Whether a reference stands in the constraints or the defaults in a type, at any depth: an argument list (X.683 9.1); a single value, an
/// end of a range or a default that is itself a name (X.680 14.1), so `DEFAULT b` and not `DEFAULT {a b}`; or a plain name as the head of
/// a contained subtype (X.680 51.3). Contents and tables are not looked into.
///
/// An item of an ENUMERATED is written as the name of a value is, so it counts too.
pub fn contains_constraint_reference(ty: &ASN1Type) -> bool
    ensures { result ≡ stands_in ConstraintReference ty.now }
{
    stands_in(Form::ConstraintReference, ty)
}
