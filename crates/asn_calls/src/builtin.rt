//! Types that a word names.

ghost use Rattle.asn_calls.specs.Types.{builtin, elsewhere};
ghost use Rattle.std.specs.Option.{option_copied};
ghost use Rattle.std.specs.Prelude.{◌≡◌, IfErr, IfOk, None, Some};

use crate::strings::string_named;
use asn_memory::{List, Mem};
use asn_tree::{
    ASN1Type, BitString, Boolean, CharacterString, Constraint, DeclarationElsewhere,
    GeneralizedTime, Integer, ObjectIdentifier, OctetString, Real, UTCTime,
};
use std::alloc::Global;

/// The built-in type of this word with the constraints, or these back where the word names none.
#[tactic(auto, unfolding(crate::specs::Types::builtin))]
pub(crate) fn builtin(
    word: &str,
    constraints: List<Constraint>,
) -> Result<ASN1Type, List<Constraint>>
    ensures ok { IfOk result (λ ty. builtin word.now constraints ≡ Some ty) }
    ensures none { IfErr result (λ _. builtin word.now constraints ≡ None) }
    ensures back { IfErr result (λ back. back ≡ constraints) }
{
    match word {
        "NULL" => {
            let_go(constraints);
            Ok(ASN1Type::Null)
        }
        "BOOLEAN" => Ok(ASN1Type::Boolean(Boolean { constraints })),
        "REAL" => Ok(ASN1Type::Real(Real { constraints })),
        "INTEGER" => Ok(ASN1Type::Integer(Integer {
            constraints,
            distinguished_values: None,
        })),
        "BIT STRING" => Ok(ASN1Type::BitString(BitString {
            constraints,
            distinguished_values: None,
        })),
        "OCTET STRING" => Ok(ASN1Type::OctetString(OctetString { constraints })),
        "OBJECT IDENTIFIER" => Ok(ASN1Type::ObjectIdentifier(ObjectIdentifier { constraints })),
        "GeneralizedTime" => Ok(ASN1Type::GeneralizedTime(GeneralizedTime { constraints })),
        "UTCTime" => Ok(ASN1Type::UTCTime(UTCTime { constraints })),
        _ => match string_named(word) {
            Some(ty) => Ok(ASN1Type::CharacterString(CharacterString { constraints, ty })),
            None => Err(constraints),
        },
    }
}

/// A type reference with the constraints.
///
/// Err: want of memory for a name.
pub(crate) fn elsewhere(
    alloc: Global,
    parent: Option<&str>,
    identifier: &str,
    constraints: List<Constraint>,
) -> Mem<ASN1Type>
    ensures { IfOk result (λ ty. ty ≡ elsewhere (option_copied parent.entry) identifier.now constraints) }
{
    let reference = DeclarationElsewhere::from_parts(alloc, parent, identifier, Some(constraints))?;
    Ok(ASN1Type::ElsewhereDeclaredType(reference))
}

fn let_go<T: Drop>(_value: T) {}
