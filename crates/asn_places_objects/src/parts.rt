//! What stands in an argument for a dummy of a template.

ghost use Rattle.asn_meaning_heads.specs.Scopes.{shown};
ghost use Rattle.asn_needs.specs.PartsOfTypes.{argument_parts};
ghost use Rattle.asn_needs.specs.Sites.{seen};
ghost use Rattle.asn_places_types.specs.Sites.{shown_around, shown_sites};
ghost use Rattle.std.specs.Prelude.{◌≡◌, ◌+◌, ◌++◌, ℕ, IfOk};

use crate::aside::is_aside_here;
use crate::governed::with_governed;
use asn_meaning_heads::Scope;
use asn_memory::{List, Mem};
use asn_names_index::Names;
use asn_places_types::{Around, Site};
use asn_tree::{Parameter, ParameterizationArgument};
use std::alloc::Global;
use std::rc::Rc;

/// The sites with what stands in an argument for a dummy of a template, whose governor is read in the template's scope: a type where no
/// governor stands, a value under its governor, an object set under its class. Nothing stands in an object or a class; an argument
/// of another kind is wrong where it is written (X.683 8.3).
///
/// Err: want of memory, also where the steps are used up.
#[tactic(auto, using(crate::proofs::Governing::parts_aside, crate::proofs::Governing::parts_governed))]
pub fn with_argument_parts<'a>(
    alloc: Global,
    names: &Names<'a>,
    steps: usize,
    sites: List<Site<'a>>,
    around: &Rc<Around<'a>>,
    argument: &'a Parameter,
    dummy: &'a ParameterizationArgument,
    inner: &Scope<'a>,
) -> Mem<List<Site<'a>>>
    ensures { IfOk result (λ more. (m : ℕ) → shown_sites more ≡ shown_sites sites.entry ++ argument_parts (seen names.now.definitions.now (steps + m)) (shown_around around.now.value) argument.now dummy.now (shown inner.now)) }
{
    let governor = &dummy.param_governor;
    if is_aside_here(alloc, names, steps, around, argument, inner, governor)? {
        Ok(sites)
    } else {
        let sites = with_governed(alloc, names, sites, around, argument, inner, governor)?;
        Ok(sites)
    }
}
