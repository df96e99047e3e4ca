//! What the definitions ask of a type: whether any constraint on it counts, its whole numbers, the codes of its characters.

ghost use Rattle.asn_meaning_heads.specs.Kinds.{shown_type};
ghost use Rattle.asn_meaning_ranges.specs.Sets.{shown_numbers};
ghost use Rattle.asn_meaning.specs.Kinds.{kind_of_type};
ghost use Rattle.asn_meaning.specs.Ranges.{basic_plane, codes_at, codes_in, is_free_kind, numbers_at_head, restricted};
ghost use Rattle.std.specs.Prelude.{◌≡◌, IfOk};

use crate::making::{every_number, in_both, no_number, numbers_among, numbers_from, numbers_to};
use crate::sets::Numbers;
use asn_calls::characters;
use asn_meaning_heads::{Kind, TypeForm, kind_of};
use asn_memory::{List, Mem};
use asn_tree::CharacterStringType;
use std::alloc::Global;

/// Whether every constraint on a head counts as true: on REAL, NULL, EXTERNAL, EMBEDDED PDV and open types.
pub fn is_free(ty: TypeForm<'_>) -> bool
    ensures { result ≡ is_free_kind (kind_of_type (shown_type ty.entry)) }
{
    match kind_of(ty) {
        Kind::Null => true,
        Kind::Boolean => false,
        Kind::Integer(_) => false,
        Kind::Real => true,
        Kind::BitString(_) => false,
        Kind::OctetString => false,
        Kind::CharacterString(_) => false,
        Kind::Time => false,
        Kind::Enumerated(_) => false,
        Kind::ObjectIdentifier => false,
        Kind::Opaque => true,
        Kind::Struct(_) => false,
        Kind::List(_) => false,
        Kind::Choice(_) => false,
        Kind::Field(_) => true,
        Kind::Reference(_) => false,
        Kind::Selection(_) => false,
    }
}

/// The whole numbers of a head: INTEGER has all, and so has an open type; no other type has any.
pub fn numbers_at_head(ty: TypeForm<'_>) -> Numbers
    ensures { shown_numbers result ≡ numbers_at_head (kind_of_type (shown_type ty.entry)) }
{
    match kind_of(ty) {
        Kind::Integer(_) => every_number(),
        Kind::Field(_) => every_number(),
        Kind::Null => no_number(),
        Kind::Boolean => no_number(),
        Kind::Real => no_number(),
        Kind::BitString(_) => no_number(),
        Kind::OctetString => no_number(),
        Kind::CharacterString(_) => no_number(),
        Kind::Time => no_number(),
        Kind::Enumerated(_) => no_number(),
        Kind::ObjectIdentifier => no_number(),
        Kind::Opaque => no_number(),
        Kind::Struct(_) => no_number(),
        Kind::List(_) => no_number(),
        Kind::Choice(_) => no_number(),
        Kind::Reference(_) => no_number(),
        Kind::Selection(_) => no_number(),
    }
}

/// The characters of a string type that has a set of its own (X.680 41).
///
/// Err: want of memory.
pub fn restricted(alloc: Global, ty: CharacterStringType) -> Mem<Option<List<char>>>
    ensures { IfOk result (λ set. set ≡ restricted ty) }
{
    match ty {
        CharacterStringType::NumericString => {
            let set = characters(alloc, CharacterStringType::NumericString)?;
            Ok(Some(set))
        }
        CharacterStringType::PrintableString => {
            let set = characters(alloc, CharacterStringType::PrintableString)?;
            Ok(Some(set))
        }
        CharacterStringType::VisibleString => {
            let set = characters(alloc, CharacterStringType::VisibleString)?;
            Ok(Some(set))
        }
        CharacterStringType::IA5String => {
            let set = characters(alloc, CharacterStringType::IA5String)?;
            Ok(Some(set))
        }
        CharacterStringType::TeletexString => Ok(None),
        CharacterStringType::VideotexString => Ok(None),
        CharacterStringType::GraphicString => Ok(None),
        CharacterStringType::GeneralString => Ok(None),
        CharacterStringType::UniversalString => Ok(None),
        CharacterStringType::UTF8String => Ok(None),
        CharacterStringType::BMPString => Ok(None),
    }
}

/// The numbers from 0 to 65534: the codes where a type has no set of its own.
///
/// Err: want of memory.
fn basic_plane(alloc: Global) -> Mem<Numbers>
    ensures { IfOk result (λ codes. shown_numbers codes ≡ basic_plane) }
{
    let codes = in_both(alloc, numbers_from(false, 0), numbers_to(false, 65_534))?;
    Ok(codes)
}

/// The codes of a set, or of the characters of a type that has none of its own.
///
/// Err: want of memory.
fn codes_in(alloc: Global, set: Option<List<char>>) -> Mem<Numbers>
    ensures { IfOk result (λ codes. shown_numbers codes ≡ codes_in set) }
{
    match set {
        None => {
            let codes = basic_plane(alloc)?;
            Ok(codes)
        }
        Some(characters) => Ok(numbers_among(characters)),
    }
}

/// The codes of the characters of a type.
///
/// Err: want of memory.
pub fn codes_at(alloc: Global, ty: TypeForm<'_>) -> Mem<Numbers>
    ensures { IfOk result (λ codes. shown_numbers codes ≡ codes_at (kind_of_type (shown_type ty.entry))) }
{
    match kind_of(ty) {
        Kind::CharacterString(ty) => {
            let set = restricted(alloc, ty)?;
            let codes = codes_in(alloc, set)?;
            Ok(codes)
        }
        Kind::Null => basic_plane(alloc),
        Kind::Boolean => basic_plane(alloc),
        Kind::Integer(_) => basic_plane(alloc),
        Kind::Real => basic_plane(alloc),
        Kind::BitString(_) => basic_plane(alloc),
        Kind::OctetString => basic_plane(alloc),
        Kind::Time => basic_plane(alloc),
        Kind::Enumerated(_) => basic_plane(alloc),
        Kind::ObjectIdentifier => basic_plane(alloc),
        Kind::Opaque => basic_plane(alloc),
        Kind::Struct(_) => basic_plane(alloc),
        Kind::List(_) => basic_plane(alloc),
        Kind::Choice(_) => basic_plane(alloc),
        Kind::Field(_) => basic_plane(alloc),
        Kind::Reference(_) => basic_plane(alloc),
        Kind::Selection(_) => basic_plane(alloc),
    }
}
