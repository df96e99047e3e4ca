//! Templates with their arguments (X.683 9).

ghost use Rattle.asn_meaning_heads.specs.Places.{shown_target};
ghost use Rattle.asn_meaning_heads.specs.Scopes.{shown};
ghost use Rattle.asn_meaning.specs.Names.{instance, lists_in};
ghost use Rattle.asn_meaning.specs.Scopes.{entered};
ghost use Rattle.std.specs.Option.{option_map};
ghost use Rattle.std.specs.Prelude.{◌≡◌, IfOk};

use crate::kinds::TypeForm;
use crate::lists::{ArgumentLists, argument_lists};
use crate::places::Target;
use crate::scopes::Scope;
use asn_memory::Mem;
use asn_tree::{Constraint, Parameter, ParameterizationArgument, ToplevelTypeDefinition};
use std::alloc::Global;
use std::rc::Rc;

/// The scope that an argument list on a template gives, where the list is written in `scope`: it binds the dummies of
/// this template alone (X.683 9.7). None where an argument is missing; further arguments are ignored.
///
/// Err: want of memory.
#[tactic(auto, using(crate::proofs::Scoping::entered_short, crate::proofs::Scoping::entered_full))]
pub fn entered<'a>(
    alloc: Global,
    scope: &Scope<'a>,
    dummies: &'a [ParameterizationArgument],
    arguments: &'a [Parameter],
) -> Mem<Option<Scope<'a>>>
    ensures { IfOk result (λ inner. option_map shown inner ≡ entered (shown scope.now) dummies.now arguments.now) }
{
    if arguments.len() < dummies.len() {
        return Ok(None);
    }
    let scope = Rc::new(alloc, scope.copy(alloc)?)?;
    Ok(Some(Scope::Entered {
        dummies,
        arguments,
        scope,
    }))
}

/// What a type definition stands for under the argument lists behind its name, which are read in `scope`: a template
/// takes one list, any other definition none (X.683 9.1).
///
/// Err: want of memory.
#[tactic(auto, using(crate::proofs::Listing::instance_alone, crate::proofs::Listing::instance_with_list, crate::proofs::Listing::instance_with_lists, crate::proofs::Listing::instance_entered))]
pub fn instance<'a>(
    alloc: Global,
    scope: &Scope<'a>,
    definition: &'a ToplevelTypeDefinition,
    constraints: &'a [Constraint],
) -> Mem<Option<Target<'a>>>
    ensures { IfOk result (λ target. option_map shown_target target ≡ instance (shown scope.now) definition.now definition.now.parameterization (lists_in constraints.now)) }
{
    match (&definition.parameterization, argument_lists(constraints)) {
        (None, ArgumentLists::Nothing) => {
            let target = Target::outside(TypeForm::Written(&definition.ty));
            Ok(Some(target))
        }
        (Some(template), ArgumentLists::One(arguments)) => {
            let dummies = template.parameters.as_slice();
            match entered(alloc, scope, dummies, arguments.as_slice())? {
                None => Ok(None),
                Some(scope) => {
                    let target = Target::bare(scope, TypeForm::Written(&definition.ty));
                    Ok(Some(target))
                }
            }
        }
        (None, ArgumentLists::One(_)) => Ok(None),
        (None, ArgumentLists::Several) => Ok(None),
        (Some(_), ArgumentLists::Nothing) => Ok(None),
        (Some(_), ArgumentLists::Several) => Ok(None),
    }
}
