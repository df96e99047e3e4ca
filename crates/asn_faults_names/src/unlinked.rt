//! Places whose form is not linked.

ghost use Rattle.asn_meaning_heads.specs.Objects.{shown_given};
ghost use Rattle.asn_meaning_heads.specs.Values.{shown_value};
ghost use Rattle.asn_meaning_heads.specs.Written.{shown_written};
ghost use Rattle.asn_meaning.specs.Answers.{once};
ghost use Rattle.asn_meaning.specs.Written.{as_written};
ghost use Rattle.asn_needs.specs.Missing.{is_long_path, is_set_field, unsupported, unsupported_form};
ghost use Rattle.asn_needs.specs.Dummies.{is_class_name};
ghost use Rattle.asn_needs.specs.Sites.{seen};
ghost use Rattle.asn_places_types.specs.Forms.{shown_form, shown_governor};
ghost use Rattle.asn_places_types.specs.Sites.{shown_around, shown_site};
ghost use Rattle.asn_tree.specs.declared.objects.InformationObjectField.{out-InformationObjectField};
ghost use Rattle.std.specs.Prelude.{◌≡◌, ◌+◌, ◌&&◌, ℕ, false, not, IfOk};

use crate::arguments::is_unlinked_argument;
use asn_meaning_heads::{GivenField, Gives, Place, ValueForm, Written, value_written};
use asn_memory::{Box, Mem};
use asn_names_index::Names;
use asn_places_names::{is_governed_by_class, is_path};
use asn_places_types::{Around, Form, Site, unboxed};
use std::alloc::Global;
use std::rc::Rc;

/// Whether a value is a path of more than two names.
fn is_long_path(written: Written<'_>) -> bool
    ensures { result ≡ is_long_path (shown_written written.entry) }
{
    match written {
        Written::Name {
            parent,
            identifier: _,
        } => match parent {
            None => false,
            Some(object) => is_path(object.as_str()),
        },
        Written::All => false,
        Written::Null => false,
        Written::Truth(_) => false,
        Written::Number(_) => false,
        Written::Real(_) => false,
        Written::Text(_) => false,
        Written::Bits(_) => false,
        Written::BitNames(_) => false,
        Written::Octets(_) => false,
        Written::Arcs(_) => false,
        Written::Item(_) => false,
        Written::Braces(_) => false,
        Written::Fields(_) => false,
        Written::Elements(_) => false,
        Written::Alternative { .. } => false,
        Written::Nested(_) => false,
    }
}

/// Whether a value under no class is a path of more than two names.
fn is_governed_path(
    names: &Names<'_>,
    value: ValueForm<'_>,
    governor: &Option<Box<Place<'_>>>,
) -> bool
    ensures { result ≡ (not (once false (shown_governor governor.now) (is_class_name names.now.definitions.now)) && is_long_path (as_written (shown_value value.entry))) }
{
    !is_governed_by_class(names, unboxed(governor)) && is_long_path(value_written(value))
}

/// Whether an object set is given for a field.
fn is_set_field(field: GivenField<'_>) -> bool
    ensures { result ≡ is_set_field (out-InformationObjectField (shown_given field.entry)) }
{
    match field.gives {
        Gives::Type(_) => false,
        Gives::Value(_) => false,
        Gives::Set(_) => true,
    }
}

/// Whether what stands in this form in these surroundings is not linked.
///
/// Err: want of memory, also where the steps are used up.
fn is_unlinked_form<'a>(
    alloc: Global,
    names: &Names<'a>,
    steps: usize,
    around: &Rc<Around<'a>>,
    form: &Form<'a>,
) -> Mem<bool>
    ensures { IfOk result (λ b. (m : ℕ) → b ≡ unsupported_form (seen names.now.definitions.now (steps + m)) (shown_around around.now.value) (shown_form form.now)) }
{
    match form {
        Form::AType(_, _, _) => Ok(false),
        Form::ComponentsOf(name) => Ok(is_path(name.as_str())),
        Form::AValue(_, value, governor) => Ok(is_governed_path(names, *value, governor)),
        Form::AConstraint(_) => Ok(false),
        Form::ASet(_, _) => Ok(false),
        Form::AnElement(_, _) => Ok(false),
        Form::AListed(_, _) => Ok(false),
        Form::LooseList => Ok(false),
        Form::AnArgument(argument, dummy, inner) => {
            let inner = inner.get();
            Ok(is_unlinked_argument(alloc, names, steps, around, argument, dummy, inner)?)
        }
        Form::NoArgument => Ok(false),
        Form::LooseArgument(_) => Ok(false),
        Form::ADummy(_) => Ok(false),
        Form::ClassName(_) => Ok(false),
        Form::ClassField(_, _) => Ok(false),
        Form::AnObject(_, _) => Ok(false),
        Form::AGivenField(_, field) => Ok(is_set_field(*field)),
        Form::LooseField(_) => Ok(false),
        Form::AnObjectSet(_, _) => Ok(false),
        Form::SetName(_) => Ok(false),
    }
}

/// Whether the form at the place is not linked: a path of a value of more than two names, COMPONENTS OF a class's field, an object or a
/// class as an argument, an object set as the field of an object.
///
/// Err: want of memory, also where the steps are used up.
#[tactic(auto, using(crate::proofs::Placing::unlinked_there))]
pub fn is_unlinked_place<'a>(
    alloc: Global,
    names: &Names<'a>,
    steps: usize,
    site: &Site<'a>,
) -> Mem<bool>
    ensures { IfOk result (λ b. (m : ℕ) → b ≡ unsupported (seen names.now.definitions.now (steps + m)) (shown_site site.now)) }
{
    let unlinked = is_unlinked_form(alloc, names, steps, &site.around, &site.form)?;
    Ok(unlinked)
}
