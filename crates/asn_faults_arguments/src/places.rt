//! Arguments that are wrong at a place.

ghost use Rattle.asn_needs.specs.Arguments.{argument_wrong, form_wrong};
ghost use Rattle.asn_needs.specs.Occurrences.{lacks_list, names_at};
ghost use Rattle.asn_needs.specs.Sites.{seen};
ghost use Rattle.asn_places_names.specs.Occurrences.{shown_occurrences};
ghost use Rattle.asn_places_types.specs.Forms.{shown_form};
ghost use Rattle.asn_places_types.specs.Sites.{shown_around, shown_site};
ghost use Rattle.std.specs.List.{list_any};
ghost use Rattle.std.specs.Prelude.{◌≡◌, ◌+◌, ℕ, IfOk};

use crate::governors::is_wrong_governor;
use crate::wrong::is_wrong_argument;
use asn_memory::Mem;
use asn_names_index::Names;
use asn_places_names::{Occurrence, lacks_list, names_at};
use asn_places_types::{Around, Form, Site};
use std::alloc::Global;
use std::rc::Rc;

/// Whether an argument is wrong by what stands in this form in these surroundings.
///
/// Err: want of memory, also where the steps are used up.
fn is_wrong_form<'a>(
    alloc: Global,
    names: &Names<'a>,
    steps: usize,
    around: &Rc<Around<'a>>,
    form: &Form<'a>,
) -> Mem<bool>
    ensures { IfOk result (λ b. (m : ℕ) → b ≡ form_wrong (seen names.now.definitions.now (steps + m)) (shown_around around.now.value) (shown_form form.now)) }
{
    match form {
        Form::AType(_, _, _) => Ok(false),
        Form::ComponentsOf(_) => Ok(false),
        Form::AValue(_, _, _) => Ok(false),
        Form::AConstraint(_) => Ok(false),
        Form::ASet(_, _) => Ok(false),
        Form::AnElement(_, _) => Ok(false),
        Form::AListed(_, _) => Ok(false),
        Form::LooseList => Ok(true),
        Form::AnArgument(argument, dummy, inner) => {
            let inner = inner.get();
            let wrong = is_wrong_argument(alloc, names, steps, around, argument, dummy, inner)?;
            Ok(wrong)
        }
        Form::NoArgument => Ok(true),
        Form::LooseArgument(_) => Ok(false),
        Form::ADummy(dummy) => {
            let wrong = is_wrong_governor(names, steps, around, dummy)?;
            Ok(wrong)
        }
        Form::ClassName(_) => Ok(false),
        Form::ClassField(_, _) => Ok(false),
        Form::AnObject(_, _) => Ok(false),
        Form::AGivenField(_, _) => Ok(false),
        Form::LooseField(_) => Ok(false),
        Form::AnObjectSet(_, _) => Ok(false),
        Form::SetName(_) => Ok(false),
    }
}

/// Whether one of these is a template's name without a list.
fn lack_lists(names: &Names<'_>, occurrences: &[Occurrence<'_>]) -> bool
    ensures { result ≡ list_any (lacks_list names.now.definitions.now) (shown_occurrences occurrences.now) }
{
    for occurrence in occurrences {
        if lacks_list(names, occurrence) {
            return true;
        }
    }
    false
}

/// Whether a template's name stands at the place without a list.
///
/// Err: want of memory, also where the steps are used up.
#[tactic(auto, using(crate::proofs::Lacking::lists_lacked))]
fn lacks_lists<'a>(alloc: Global, names: &Names<'a>, steps: usize, site: &Site<'a>) -> Mem<bool>
    ensures { IfOk result (λ b. (m : ℕ) → b ≡ list_any (lacks_list names.now.definitions.now) (names_at (seen names.now.definitions.now (steps + m)) (shown_site site.now) (shown_site site.now).form)) }
{
    let found = names_at(alloc, names, steps, site)?;
    Ok(lack_lists(names, found.as_slice()))
}

/// Whether an argument is wrong at the place: it is missing, or of another kind than its governor; a governor names a type where a set
/// is meant, or a dummy with a small letter has none; a template's name stands without a list, or a list on no template, or a second
/// one (X.683 8, 9).
///
/// Err: want of memory, also where the steps are used up.
pub fn is_wrong_place<'a>(
    alloc: Global,
    names: &Names<'a>,
    steps: usize,
    site: &Site<'a>,
) -> Mem<bool>
    ensures { IfOk result (λ b. (m : ℕ) → b ≡ argument_wrong (seen names.now.definitions.now (steps + m)) (shown_site site.now)) }
{
    if is_wrong_form(alloc, names, steps, &site.around, &site.form)? {
        Ok(true)
    } else {
        let lacks = lacks_lists(alloc, names, steps, site)?;
        Ok(lacks)
    }
}
