//! Plain names that stand where nothing is asked of their kind: what fields are given where the class is not asked, and
//! arguments for which no dummy stands.

ghost use Rattle.asn_meaning_heads.specs.Objects.{shown_given};
ghost use Rattle.asn_meaning_heads.specs.Scopes.{shown};
ghost use Rattle.asn_needs.specs.Dummies.{argument_name};
ghost use Rattle.asn_needs.specs.Occurrences.{occurring_plainly, NeedsAny, NeedsValueOrObject};
ghost use Rattle.asn_needs.specs.PartsOfObjects.{unclassed_name};
ghost use Rattle.asn_places_names.specs.Occurrences.{shown_occurrences};
ghost use Rattle.asn_places_types.specs.Forms.{shown_of_class};
ghost use Rattle.asn_tree.specs.declared.constraints.Parameter.{out-Parameter};
ghost use Rattle.asn_tree.specs.declared.objects.InformationObjectField.{out-InformationObjectField};
ghost use Rattle.std.specs.Option.{option_copied};
ghost use Rattle.std.specs.Prelude.{◌≡◌, IfOk, None};

use crate::needs::Need;
use crate::occurrences::{Occurrence, occurring_plainly};
use asn_meaning_dummies::{argument_name, name_of_value};
use asn_meaning_heads::{GivenField, Gives, Scope, value_written};
use asn_memory::{List, Mem, Text};
use asn_names_index::Class;
use asn_tree::Parameter;
use std::alloc::Global;

/// The plain name that a field is given where the class is not asked (X.681 11.4).
fn unclassed_name<'a>(class: Option<Class<'_>>, field: GivenField<'a>) -> Option<&'a Text>
    ensures { option_copied result ≡ unclassed_name (shown_of_class class.entry) (out-InformationObjectField (shown_given field.entry)) }
{
    match class {
        Some(_) => None,
        None => match field.gives {
            Gives::Type(_) => None,
            Gives::Value(value) => name_of_value(value_written(value)),
            Gives::Set(_) => None,
        },
    }
}

/// The plain name that a field is given where the class is not asked: of a value or of an object (X.681 11.4).
///
/// Err: want of memory.
pub(crate) fn given_names<'a>(
    alloc: Global,
    scope: &Scope<'a>,
    class: Option<Class<'a>>,
    field: GivenField<'a>,
) -> Mem<List<Occurrence<'a>>>
    ensures { IfOk result (λ found. shown_occurrences found ≡ occurring_plainly (shown scope.now) None NeedsValueOrObject (unclassed_name (shown_of_class class.entry) (out-InformationObjectField (shown_given field.entry)))) }
{
    let name = unclassed_name(class, field);
    let found = occurring_plainly(alloc, scope, None, Need::NeedsValueOrObject, name)?;
    Ok(found)
}

/// The plain name that an argument is for which no dummy stands.
///
/// Err: want of memory.
pub(crate) fn argument_names<'a>(
    alloc: Global,
    scope: &Scope<'a>,
    argument: &'a Parameter,
) -> Mem<List<Occurrence<'a>>>
    ensures { IfOk result (λ found. shown_occurrences found ≡ occurring_plainly (shown scope.now) None NeedsAny (argument_name (out-Parameter argument.now))) }
{
    let name = argument_name(argument);
    let found = occurring_plainly(alloc, scope, None, Need::NeedsAny, name)?;
    Ok(found)
}
