//! The type of the elements of a list (X.680 26, 28).

ghost use Rattle.asn_meaning_heads.specs.Kinds.{shown_kind};
ghost use Rattle.asn_meaning_heads.specs.Places.{shown_place};
ghost use Rattle.asn_meaning_shapes.specs.Parts.{type_of_elements};
ghost use Rattle.asn_meaning.specs.Members.{element_place};
ghost use Rattle.std.specs.Option.{option_copied, option_map};
ghost use Rattle.std.specs.Prelude.{◌≡◌, IfOk};

use asn_meaning_heads::{Kind, Place, TypeForm, kind_of};
use asn_memory::Mem;
use asn_tree::ASN1Type;
use std::alloc::Global;

/// The type of the elements, by the kind of a head.
fn element_type<'a>(kind: Kind<'a>) -> Option<&'a ASN1Type>
    ensures { option_copied result ≡ type_of_elements (shown_kind kind.entry) }
{
    match kind {
        Kind::List(ty) => Some(ty),
        Kind::Null => None,
        Kind::Boolean => None,
        Kind::Integer(_) => None,
        Kind::Real => None,
        Kind::BitString(_) => None,
        Kind::OctetString => None,
        Kind::CharacterString(_) => None,
        Kind::Time => None,
        Kind::Enumerated(_) => None,
        Kind::ObjectIdentifier => None,
        Kind::Opaque => None,
        Kind::Struct(_) => None,
        Kind::Choice(_) => None,
        Kind::Field(_) => None,
        Kind::Reference(_) => None,
        Kind::Selection(_) => None,
    }
}

/// The type of the elements of a head; None where it is no SEQUENCE OF or SET OF.
///
/// Err: want of memory.
#[tactic(auto, using(crate::proofs::Listing::no_elements, crate::proofs::Listing::some_elements))]
pub fn element_place<'a>(alloc: Global, head: &Place<'a>) -> Mem<Option<Place<'a>>>
    ensures { IfOk result (λ place. option_map shown_place place ≡ element_place (shown_place head.now)) }
{
    match element_type(kind_of(head.ty)) {
        None => Ok(None),
        Some(ty) => {
            let scope = head.scope.copy(alloc)?;
            Ok(Some(Place {
                scope,
                ty: TypeForm::Written(ty),
            }))
        }
    }
}
