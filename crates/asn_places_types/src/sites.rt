//! Places, and lists of them.

ghost use Rattle.asn_needs.specs.Sites.{beside};
ghost use Rattle.asn_places_types.specs.Forms.{shown_form};
ghost use Rattle.asn_places_types.specs.Sites.{shown_around, shown_site, shown_sites};
ghost use Rattle.std.specs.Prelude.{◌≡◌, ◌++◌, ◌∷◌, [], IfOk};

use crate::forms::Form;
use crate::surroundings::{Around, shared};
use asn_memory::{List, Mem};
use std::rc::Rc;

/// A place: what stands there, and what surrounds it, which it shares with others.
#[derive(Drop)]
pub struct Site<'a> {
    pub form: Form<'a>,
    pub around: Rc<Around<'a>>,
}

/// The form in these surroundings.
///
/// Err: want of memory.
fn site_in<'a>(around: &Rc<Around<'a>>, form: Form<'a>) -> Mem<Site<'a>>
    ensures { IfOk result (λ site. shown_site site ≡ beside (shown_around around.now.value) (shown_form form.entry)) }
{
    let around = shared(around)?;
    Ok(Site { form, around })
}

/// The sites with one more at the end.
///
/// Err: want of memory.
#[tactic(auto, using(crate::proofs::Adding::one_more))]
fn pushed<'a>(sites: List<Site<'a>>, site: Site<'a>) -> Mem<List<Site<'a>>>
    ensures { IfOk result (λ more. shown_sites more ≡ shown_sites sites.entry ++ shown_site site.entry ∷ []) }
{
    let mut sites = sites;
    sites.add(site)?;
    Ok(sites)
}

/// The sites with one more at the end: the form in these surroundings.
///
/// Err: want of memory.
pub fn with_site<'a>(
    sites: List<Site<'a>>,
    around: &Rc<Around<'a>>,
    form: Form<'a>,
) -> Mem<List<Site<'a>>>
    ensures { IfOk result (λ more. shown_sites more ≡ shown_sites sites.entry ++ beside (shown_around around.now.value) (shown_form form.entry) ∷ []) }
{
    let site = site_in(around, form)?;
    let more = pushed(sites, site)?;
    Ok(more)
}
