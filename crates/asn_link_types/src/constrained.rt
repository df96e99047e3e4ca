//! Types with other constraints.

ghost use Rattle.asn_calls.specs.Types.{with_constraints_at};
ghost use Rattle.asn_link_instance.specs.Instance.{followed_by, has_no_place};
ghost use Rattle.asn_link_types.specs.inner.Made.{constrained_made, followed_made};
ghost use Rattle.asn_meaning.specs.Placed.{listed};
ghost use Rattle.asn_tree_notation.specs.Types.{constraints_at};
ghost use Rattle.asn_tree.specs.declared.types.ASN1Type.{out-ASN1Type};
ghost use Rattle.std.specs.Option.{option_map};
ghost use Rattle.std.specs.Prelude.{◌≡◌, ◌++◌, IfOk};

use asn_calls::ASN1TypeCalls;
use asn_copy_linked::copy_asn1_type;
use asn_memory::{List, Mem};
use asn_tree::{ASN1Type, Constraint};
use std::alloc::Global;

/// The type with these constraints; NULL, a selection, EMBEDDED PDV and EXTERNAL have no place for any.
#[tactic(auto, unfolding(asn_calls::specs::Types::constraints_held, asn_calls::specs::Types::with_constraints), using(crate::proofs::Places::no_place))]
fn with_constraints(ty: ASN1Type, constraints: List<Constraint>) -> ASN1Type
    ensures { out-ASN1Type result ≡ with_constraints_at (out-ASN1Type ty) constraints }
{
    let mut ty = ty;
    if let Some(place) = ty.constraints_mut() {
        *place = constraints;
    }
    ty
}

/// A copy of a type with these constraints in place of its own.
///
/// Err: want of memory.
pub fn constrained_copy(
    alloc: Global,
    ty: &ASN1Type,
    constraints: Option<List<Constraint>>,
) -> Mem<Option<ASN1Type>>
    ensures { IfOk result (λ made. option_map out-ASN1Type made ≡ constrained_made (out-ASN1Type ty.now) constraints) }
{
    match constraints {
        None => Ok(None),
        Some(constraints) => {
            let copy = copy_asn1_type(alloc, ty)?;
            Ok(Some(with_constraints(copy, constraints)))
        }
    }
}

/// Whether a type has no place for constraints: NULL, EMBEDDED PDV and EXTERNAL.
pub fn has_no_place(ty: &ASN1Type) -> bool
    ensures { result ≡ has_no_place (out-ASN1Type ty.now) }
{
    matches!(
        ty,
        ASN1Type::Null | ASN1Type::EmbeddedPdv | ASN1Type::External
    )
}

/// The type with these constraints behind its own.
///
/// Err: want of memory.
#[tactic(auto, unfolding(asn_calls::specs::Types::constraints_held, asn_calls::specs::Types::with_constraints), using(crate::proofs::Places::no_place))]
fn appended(ty: ASN1Type, constraints: List<Constraint>) -> Mem<ASN1Type>
    ensures { IfOk result (λ made. out-ASN1Type made ≡ with_constraints_at (out-ASN1Type ty) (listed (constraints_at (out-ASN1Type ty)) ++ constraints)) }
{
    let mut ty = ty;
    if let Some(place) = ty.constraints_mut() {
        place.append(constraints)?;
    }
    Ok(ty)
}

/// The type with these constraints behind its own; no instance is a selection.
///
/// Err: want of memory.
fn with_more(ty: ASN1Type, constraints: List<Constraint>) -> Mem<Option<ASN1Type>>
    ensures { IfOk result (λ made. option_map out-ASN1Type made ≡ followed_by (out-ASN1Type ty) constraints) }
{
    if matches!(&ty, ASN1Type::ChoiceSelectionType(_)) {
        return Ok(None);
    }
    let made = appended(ty, constraints)?;
    Ok(Some(made))
}

/// The type with two lists of constraints behind its own.
///
/// None: the second is not made, or the type is a selection. Err: want of memory.
pub fn followed_by(
    ty: ASN1Type,
    along: List<Constraint>,
    behind: Option<List<Constraint>>,
) -> Mem<Option<ASN1Type>>
    ensures { IfOk result (λ made. option_map out-ASN1Type made ≡ followed_made (out-ASN1Type ty) along behind) }
{
    match behind {
        None => Ok(None),
        Some(behind) => {
            let mut all = along;
            all.append(behind)?;
            let made = with_more(ty, all)?;
            Ok(made)
        }
    }
}
