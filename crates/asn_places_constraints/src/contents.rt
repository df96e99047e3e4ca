//! What stands in a constraint (X.680 49.6, X.682 10, 11).

ghost use Rattle.asn_meaning_heads.specs.Places.{shown_place};
ghost use Rattle.asn_needs.specs.PartsOfConstraints.{constraint_parts, containing, content_sites, encoded_by, made_opaque};
ghost use Rattle.asn_needs.specs.Sites.{beside, AnObjectSet};
ghost use Rattle.asn_places_types.specs.Sites.{shown_around, shown_sites};
ghost use Rattle.asn_tree.specs.declared.constraints.Constraint.{out-Constraint};
ghost use Rattle.asn_tree.specs.declared.constraints.ContentConstraint.{out-ContentConstraint};
ghost use Rattle.std.specs.Option.{option_map};
ghost use Rattle.std.specs.Prelude.{◌≡◌, ◌++◌, ◌∷◌, [], IfOk, None};

use crate::sets::with_set_on;
use asn_meaning_heads::{Place, ValueForm};
use asn_memory::{List, Mem};
use asn_places_types::{
    Around, Asked, Form, SetForm, Site, TypePlace, ValuePlace, made_opaque, with_bare_type,
    with_site,
};
use asn_tree::{ASN1Type, ASN1Value, Constraint, ContentConstraint, TableConstraint};
use std::alloc::Global;
use std::rc::Rc;

/// The sites with the type that a string holds.
///
/// Err: want of memory.
fn with_containing<'a>(
    alloc: Global,
    sites: List<Site<'a>>,
    around: &Rc<Around<'a>>,
    ty: &'a ASN1Type,
) -> Mem<List<Site<'a>>>
    ensures { IfOk result (λ more. shown_sites more ≡ shown_sites sites.entry ++ containing (shown_around around.now.value) ty.now) }
{
    let inner = made_opaque(alloc, around)?;
    let sites = with_bare_type(sites, &inner, TypePlace::InPlace, ty)?;
    Ok(sites)
}

/// The sites with the value that names how a string is encoded.
///
/// Err: want of memory.
fn with_encoded_by<'a>(
    alloc: Global,
    sites: List<Site<'a>>,
    around: &Rc<Around<'a>>,
    value: &'a ASN1Value,
) -> Mem<List<Site<'a>>>
    ensures { IfOk result (λ more. shown_sites more ≡ shown_sites sites.entry ++ encoded_by (shown_around around.now.value) value.now) }
{
    let inner = made_opaque(alloc, around)?;
    let form = Form::AValue(ValuePlace::AsSuch, ValueForm::Written(value), None);
    let sites = with_site(sites, &inner, form)?;
    Ok(sites)
}

/// The sites with the type that a string holds, and with the value that names how it is encoded.
///
/// Err: want of memory.
#[tactic(auto, using(asn_places_types::proofs::Adding::then_more))]
fn with_containing_encoded_by<'a>(
    alloc: Global,
    sites: List<Site<'a>>,
    around: &Rc<Around<'a>>,
    ty: &'a ASN1Type,
    value: &'a ASN1Value,
) -> Mem<List<Site<'a>>>
    ensures { IfOk result (λ more. shown_sites more ≡ shown_sites sites.entry ++ (containing (shown_around around.now.value) ty.now ++ encoded_by (shown_around around.now.value) value.now)) }
{
    let sites = with_containing(alloc, sites, around, ty)?;
    let sites = with_encoded_by(alloc, sites, around, value)?;
    Ok(sites)
}

/// The sites with what stands in a content constraint.
///
/// Err: want of memory.
fn with_content<'a>(
    alloc: Global,
    sites: List<Site<'a>>,
    around: &Rc<Around<'a>>,
    content: &'a ContentConstraint,
) -> Mem<List<Site<'a>>>
    ensures { IfOk result (λ more. shown_sites more ≡ shown_sites sites.entry ++ content_sites (shown_around around.now.value) (out-ContentConstraint content.now)) }
{
    match content {
        ContentConstraint::Containing(ty) => {
            let sites = with_containing(alloc, sites, around, ty)?;
            Ok(sites)
        }
        ContentConstraint::EncodedBy(value) => {
            let sites = with_encoded_by(alloc, sites, around, value)?;
            Ok(sites)
        }
        ContentConstraint::ContainingEncodedBy {
            containing,
            encoded_by,
        } => {
            let sites = with_containing_encoded_by(alloc, sites, around, containing, encoded_by)?;
            Ok(sites)
        }
    }
}

/// The sites with the object set of a table constraint.
///
/// Err: want of memory.
fn with_table<'a>(
    alloc: Global,
    sites: List<Site<'a>>,
    around: &Rc<Around<'a>>,
    table: &'a TableConstraint,
) -> Mem<List<Site<'a>>>
    ensures { IfOk result (λ more. shown_sites more ≡ shown_sites sites.entry ++ beside (made_opaque (shown_around around.now.value)) (AnObjectSet None table.now.object_set) ∷ []) }
{
    let inner = made_opaque(alloc, around)?;
    let form = Form::AnObjectSet(None, SetForm::Written(&table.object_set));
    let sites = with_site(sites, &inner, form)?;
    Ok(sites)
}

/// The sites with what stands in a constraint on a type, where the type is known. The names behind `@` are not judged; an
/// argument list stands with the type.
///
/// Err: want of memory.
#[tactic(auto, using(asn_places_types::proofs::Adding::nothing_more))]
pub fn with_constraint<'a>(
    alloc: Global,
    sites: List<Site<'a>>,
    around: &Rc<Around<'a>>,
    place: Option<&Place<'a>>,
    constraint: &'a Constraint,
) -> Mem<List<Site<'a>>>
    ensures { IfOk result (λ more. shown_sites more ≡ shown_sites sites.entry ++ constraint_parts (shown_around around.now.value) (option_map (λ p. shown_place p.now) place.entry) (out-Constraint constraint.now)) }
{
    match constraint {
        Constraint::SubtypeConstraint(x) => {
            let sites = with_set_on(alloc, sites, around, Asked::OfValues, place, &x.set)?;
            Ok(sites)
        }
        Constraint::TableConstraint(x) => {
            let sites = with_table(alloc, sites, around, x)?;
            Ok(sites)
        }
        Constraint::Parameter(_) => Ok(sites),
        Constraint::ContentConstraint(x) => {
            let sites = with_content(alloc, sites, around, x)?;
            Ok(sites)
        }
    }
}
