//! Argument lists that stand on no template, or are a second one (X.683 9.1).

ghost use Rattle.asn_meaning.specs.Names.{list_at, lists_in};
ghost use Rattle.asn_needs.specs.PartsOfTypes.{loose_list, loose_lists};
ghost use Rattle.asn_needs.specs.Sites.{beside, LooseArgument};
ghost use Rattle.asn_places_types.specs.Instances.{list_in};
ghost use Rattle.asn_places_types.specs.Sites.{shown_around, shown_sites};
ghost use Rattle.asn_tree.specs.declared.constraints.Constraint.{out-Constraint};
ghost use Rattle.std.specs.Option.{option_copied};
ghost use Rattle.std.specs.Prelude.{◌≡◌, ◌++◌, [], IfOk, map};

use crate::forms::Form;
use crate::sites::{Site, with_site};
use crate::surroundings::Around;
use asn_memory::{List, Mem};
use asn_tree::{Constraint, Parameter};
use std::rc::Rc;

/// The sites with arguments that no dummy takes.
///
/// Err: want of memory.
pub fn with_loose_arguments<'a>(
    sites: List<Site<'a>>,
    around: &Rc<Around<'a>>,
    arguments: &'a [Parameter],
) -> Mem<List<Site<'a>>>
    ensures { IfOk result (λ more. shown_sites more ≡ shown_sites sites.entry ++ map (λ a. beside (shown_around around.now.value) (LooseArgument a)) arguments.now) }
{
    let mut sites = sites;
    for argument in arguments {
        sites = with_site(sites, around, Form::LooseArgument(argument))?;
    }
    Ok(sites)
}

/// The sites with a list, and its arguments.
///
/// Err: want of memory.
#[tactic(auto, using(crate::proofs::Adding::then_cons))]
pub fn with_loose_list<'a>(
    sites: List<Site<'a>>,
    around: &Rc<Around<'a>>,
    arguments: &'a [Parameter],
) -> Mem<List<Site<'a>>>
    ensures { IfOk result (λ more. shown_sites more ≡ shown_sites sites.entry ++ loose_list (shown_around around.now.value) arguments.now) }
{
    let sites = with_site(sites, around, Form::LooseList)?;
    let sites = with_loose_arguments(sites, around, arguments)?;
    Ok(sites)
}

/// The argument list that a constraint is, where it is one.
pub fn list_in<'a>(constraint: &'a Constraint) -> Option<&'a [Parameter]>
    ensures { option_copied result ≡ list_in (out-Constraint constraint.now) }
{
    match constraint {
        Constraint::SubtypeConstraint(_) => None,
        Constraint::TableConstraint(_) => None,
        Constraint::Parameter(arguments) => Some(arguments.as_slice()),
        Constraint::ContentConstraint(_) => None,
    }
}

/// The sites with a constraint's list, where the constraint is one.
///
/// Err: want of memory.
#[tactic(auto, using(crate::proofs::Loosening::no_list, crate::proofs::Loosening::one_list))]
fn with_list_at<'a>(
    sites: List<Site<'a>>,
    around: &Rc<Around<'a>>,
    constraint: &'a Constraint,
) -> Mem<List<Site<'a>>>
    ensures { IfOk result (λ more. shown_sites more ≡ shown_sites sites.entry ++ loose_lists (shown_around around.now.value) (list_at (out-Constraint constraint.now) [])) }
{
    match list_in(constraint) {
        None => Ok(sites),
        Some(arguments) => {
            let sites = with_loose_list(sites, around, arguments)?;
            Ok(sites)
        }
    }
}

/// The sites with the lists that stand among constraints.
///
/// Err: want of memory.
pub fn with_loose_lists<'a>(
    sites: List<Site<'a>>,
    around: &Rc<Around<'a>>,
    constraints: &'a [Constraint],
) -> Mem<List<Site<'a>>>
    ensures { IfOk result (λ more. shown_sites more ≡ shown_sites sites.entry ++ loose_lists (shown_around around.now.value) (lists_in constraints.now)) }
{
    let mut sites = sites;
    for constraint in constraints {
        sites = with_list_at(sites, around, constraint)?;
    }
    Ok(sites)
}
