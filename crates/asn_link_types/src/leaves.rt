//! Copies of what stays, and types that no tree holds.

ghost use Rattle.asn_meaning_heads.specs.Kinds.{shown_reference};
ghost use Rattle.asn_meaning_heads.specs.Places.{shown_place};
ghost use Rattle.asn_link_instance.specs.Subjects.{rules_read};
ghost use Rattle.asn_link_types.specs.inner.Made.{reference_made, reference_with};
ghost use Rattle.asn_meaning.specs.Definitions.{plain_identifier};
ghost use Rattle.asn_meaning.specs.Everything.{plain_text};
ghost use Rattle.asn_meaning.specs.Ranges.{integer_named};
ghost use Rattle.asn_tree.specs.declared.constraints.SubtypeElement.TheVariants as element_of;
ghost use Rattle.asn_tree.specs.declared.types.ASN1Type.{out-ASN1Type};
ghost use Rattle.std.specs.Option.{option_copied, option_map};
ghost use Rattle.std.specs.Prelude.{◌≡◌, IfOk, None};

use asn_copy_linked::{
    copy_distinguished_value, copy_optional_text, copy_pattern_constraint, copy_property_settings,
    copy_text, copy_user_defined_constraint,
};
use asn_meaning_heads::{Place, Reference, Scope, TypeForm, integer_of};
use asn_memory::{List, Mem};
use asn_tree::{
    ASN1Type, CharacterString, CharacterStringType, Constraint, DeclarationElsewhere,
    DistinguishedValue, Integer, ObjectIdentifier, PatternConstraint, PropertySettings,
    SubtypeElement, UserDefinedConstraint,
};
use std::alloc::Global;

/// INTEGER in the empty scope, without constraints and named numbers.
pub fn whole_number<'a>() -> Place<'a>
    ensures { shown_place result ≡ integer_named None }
{
    integer_of(TypeForm::Null)
}

/// OBJECT IDENTIFIER in the empty scope: the encoding rules of a content are read under it (X.682 11.5).
pub fn rules_read<'a>() -> Place<'a>
    ensures { shown_place result ≡ rules_read }
{
    Place {
        scope: Scope::Empty,
        ty: TypeForm::ObjectIdentifier,
    }
}

/// UTF8String without constraints.
pub fn utf8_string(alloc: Global) -> ASN1Type
    ensures { result ≡ plain_text.ty }
{
    ASN1Type::CharacterString(CharacterString {
        constraints: List::new(alloc),
        ty: CharacterStringType::UTF8String,
    })
}

/// OBJECT IDENTIFIER without constraints.
pub fn object_identifier(alloc: Global) -> ASN1Type
    ensures { result ≡ plain_identifier }
{
    ASN1Type::ObjectIdentifier(ObjectIdentifier {
        constraints: List::new(alloc),
    })
}

/// Copies of named numbers.
///
/// Err: want of memory.
fn copied_numbers(
    alloc: Global,
    numbers: &List<DistinguishedValue>,
) -> Mem<List<DistinguishedValue>>
    ensures { IfOk result (λ copies. copies ≡ numbers.now) }
{
    let mut copies = List::new(alloc);
    for number in numbers.as_slice() {
        let copy = copy_distinguished_value(alloc, number)?;
        copies.add(copy)?;
    }
    Ok(copies)
}

/// INTEGER without constraints, with these named numbers.
///
/// Err: want of memory.
pub fn integer_type(alloc: Global, numbers: Option<&List<DistinguishedValue>>) -> Mem<ASN1Type>
    ensures { IfOk result (λ ty. ty ≡ (integer_named (option_copied numbers.entry)).ty) }
{
    match numbers {
        None => Ok(ASN1Type::Integer(Integer {
            constraints: List::new(alloc),
            distinguished_values: None,
        })),
        Some(numbers) => {
            let copies = copied_numbers(alloc, numbers)?;
            Ok(ASN1Type::Integer(Integer {
                constraints: List::new(alloc),
                distinguished_values: Some(copies),
            }))
        }
    }
}

/// The constraints behind a name.
pub fn constraints_behind<'a>(reference: Reference<'a>) -> &'a [Constraint]
    ensures { result.now ≡ (shown_reference reference.entry).constraints }
{
    match reference {
        Reference::Written(reference) => reference.constraints.as_slice(),
        Reference::Named(_) => &[],
    }
}

/// A name with these constraints behind it.
///
/// Err: want of memory.
pub fn reference_type(
    alloc: Global,
    reference: Reference<'_>,
    constraints: Option<List<Constraint>>,
) -> Mem<Option<ASN1Type>>
    ensures { IfOk result (λ made. option_map out-ASN1Type made ≡ reference_made (shown_reference reference.entry) constraints) }
{
    let Some(constraints) = constraints else {
        return Ok(None);
    };
    let made = name_with(alloc, reference, constraints)?;
    Ok(Some(made))
}

/// A name with these constraints behind it.
///
/// Err: want of memory.
fn name_with(
    alloc: Global,
    reference: Reference<'_>,
    constraints: List<Constraint>,
) -> Mem<ASN1Type>
    ensures { IfOk result (λ made. out-ASN1Type made ≡ reference_with (shown_reference reference.entry) constraints) }
{
    match reference {
        Reference::Written(reference) => {
            let parent = copy_optional_text(alloc, &reference.parent)?;
            let identifier = copy_text(alloc, &reference.identifier)?;
            Ok(ASN1Type::ElsewhereDeclaredType(DeclarationElsewhere {
                parent,
                identifier,
                constraints,
            }))
        }
        Reference::Named(name) => {
            let identifier = copy_text(alloc, name)?;
            Ok(ASN1Type::ElsewhereDeclaredType(DeclarationElsewhere {
                parent: None,
                identifier,
                constraints,
            }))
        }
    }
}

/// A copy of a pattern, as an element.
///
/// Err: want of memory.
pub fn pattern_element(alloc: Global, pattern: &PatternConstraint) -> Mem<SubtypeElement>
    ensures { IfOk result (λ element. element ≡ element_of.PatternConstraint pattern.now) }
{
    let copy = copy_pattern_constraint(alloc, pattern)?;
    Ok(SubtypeElement::PatternConstraint(copy))
}

/// A copy of a constraint that the notation does not tell, as an element.
///
/// Err: want of memory.
pub fn user_defined_element(
    alloc: Global,
    definition: &UserDefinedConstraint,
) -> Mem<SubtypeElement>
    ensures { IfOk result (λ element. element ≡ element_of.UserDefinedConstraint definition.now) }
{
    let copy = copy_user_defined_constraint(alloc, definition)?;
    Ok(SubtypeElement::UserDefinedConstraint(copy))
}

/// A copy of settings, as an element.
///
/// Err: want of memory.
pub fn settings_element(alloc: Global, settings: &PropertySettings) -> Mem<SubtypeElement>
    ensures { IfOk result (λ element. element ≡ element_of.PropertySettings settings.now) }
{
    let copy = copy_property_settings(alloc, settings)?;
    Ok(SubtypeElement::PropertySettings(copy))
}
