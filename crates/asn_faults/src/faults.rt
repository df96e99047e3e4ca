//! The faults of places that stand in a definition or in a class's field.

ghost use Rattle.asn_needs.specs.Arguments.{argument_wrong};
ghost use Rattle.asn_needs.specs.Faults.{IsSomewhere};
ghost use Rattle.asn_needs.specs.Missing.{name_missing, unsupported};
ghost use Rattle.asn_needs.specs.Sites.{seen};
ghost use Rattle.asn_places_objects.specs.Nodes.{shown_node};
ghost use Rattle.asn_places_types.specs.Sites.{shown_sites};
ghost use Rattle.std.specs.List.{list_any};
ghost use Rattle.std.specs.Prelude.{◌≡◌, ◌↔◌, ◌+◌, ℕ, true, IfOk};

use asn_faults_arguments::is_wrong_place;
use asn_faults_names::{is_lacking_place, is_unlinked_place};
use asn_memory::Mem;
use asn_names_index::Names;
use asn_places::places_of;
use asn_places_objects::Node;
use asn_places_types::Site;
use std::alloc::Global;

/// Which faults of places stand in a definition or in a class's field.
#[derive(Clone, Copy, Debug, PartialEq, Eq)]
pub struct PlaceFaults {
    /// An argument, an argument list or a governor is wrong (X.683 8, 9).
    pub wrong_argument: bool,
    /// A name has no definition of the kind that its place needs, or that definition lacks what the place asks of it.
    pub missing_name: bool,
    /// A form is not linked.
    pub unlinked_form: bool,
}

/// Whether an argument is wrong at one of these places.
///
/// Err: want of memory, also where the steps are used up.
fn has_wrong_place<'a>(
    alloc: Global,
    names: &Names<'a>,
    steps: usize,
    sites: &[Site<'a>],
) -> Mem<bool>
    ensures { IfOk result (λ b. (m : ℕ) → b ≡ list_any (argument_wrong (seen names.now.definitions.now (steps + m))) (shown_sites sites.now)) }
{
    for site in sites {
        if is_wrong_place(alloc, names, steps, site)? {
            return Ok(true);
        }
    }
    Ok(false)
}

/// Whether a name is missing at one of these places.
///
/// Err: want of memory, also where the steps are used up.
fn has_lacking_place<'a>(
    alloc: Global,
    names: &Names<'a>,
    steps: usize,
    sites: &[Site<'a>],
) -> Mem<bool>
    ensures { IfOk result (λ b. (m : ℕ) → b ≡ list_any (name_missing (seen names.now.definitions.now (steps + m))) (shown_sites sites.now)) }
{
    for site in sites {
        if is_lacking_place(alloc, names, steps, site)? {
            return Ok(true);
        }
    }
    Ok(false)
}

/// Whether a form is not linked at one of these places.
///
/// Err: want of memory, also where the steps are used up.
fn has_unlinked_place<'a>(
    alloc: Global,
    names: &Names<'a>,
    steps: usize,
    sites: &[Site<'a>],
) -> Mem<bool>
    ensures { IfOk result (λ b. (m : ℕ) → b ≡ list_any (unsupported (seen names.now.definitions.now (steps + m))) (shown_sites sites.now)) }
{
    for site in sites {
        if is_unlinked_place(alloc, names, steps, site)? {
            return Ok(true);
        }
    }
    Ok(false)
}

/// Which faults of places stand in a definition or in a class's field: at its own places and, under their arguments, at those of the
/// templates that it instantiates. A name that no definition has, and a class that has no such field, have no places.
///
/// Err: want of memory, also where the steps are used up, and where there are four million places or more.
pub fn place_faults<'a>(
    alloc: Global,
    names: &Names<'a>,
    steps: usize,
    node: Node<'_>,
) -> Mem<PlaceFaults>
    ensures argument { IfOk result (λ found. (m : ℕ) → IsSomewhere (seen names.now.definitions.now (steps + m)) (shown_node node.entry) argument_wrong ↔ (found.wrong_argument ≡ true)) }
    ensures missing { IfOk result (λ found. (m : ℕ) → IsSomewhere (seen names.now.definitions.now (steps + m)) (shown_node node.entry) name_missing ↔ (found.missing_name ≡ true)) }
    ensures unlinked { IfOk result (λ found. (m : ℕ) → IsSomewhere (seen names.now.definitions.now (steps + m)) (shown_node node.entry) unsupported ↔ (found.unlinked_form ≡ true)) }
{
    let places = places_of(alloc, names, steps, node)?;
    let wrong_argument = has_wrong_place(alloc, names, steps, places.as_slice())?;
    let missing_name = has_lacking_place(alloc, names, steps, places.as_slice())?;
    let unlinked_form = has_unlinked_place(alloc, names, steps, places.as_slice())?;
    Ok(PlaceFaults {
        wrong_argument,
        missing_name,
        unlinked_form,
    })
}
