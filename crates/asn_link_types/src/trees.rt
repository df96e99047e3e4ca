//! Trees put together from parts, where all of these are made.

ghost use Rattle.asn_link_types.specs.inner.Made.{alphabet_made, choice_made, component_made, contained_made, containing_encoded_made, containing_made, content_made, element_set_made, encoded_made, inner_made, joined_made, list_made, listed_made, operation_set_made, sequence_made, sequence_of_made, set_made, set_of_made, size_made, struct_made, subtype_made, type_constraint_made};
ghost use Rattle.asn_link_types.specs.inner.Parts.{places_behind};
ghost use Rattle.asn_tree.specs.declared.constraints.ContentConstraint.{out-ContentConstraint};
ghost use Rattle.asn_tree.specs.declared.constraints.ElementOrSetOperation.{out-ElementOrSetOperation};
ghost use Rattle.asn_tree.specs.declared.constraints.SetOperation.{out-SetOperation};
ghost use Rattle.asn_tree.specs.declared.constraints.SubtypeElement.{out-SubtypeElement};
ghost use Rattle.asn_tree.specs.declared.types.ASN1Type.{out-ASN1Type};
ghost use Rattle.asn_tree.specs.declared.types.SequenceOrSet.{out-SequenceOrSet};
ghost use Rattle.asn_tree.specs.declared.types.SequenceOrSetOf.{out-SequenceOrSetOf};
ghost use Rattle.std.specs.Option.{option_map};
ghost use Rattle.std.specs.Prelude.{◌≡◌, IfOk};

use crate::parts::places_left;
use asn_copy_linked::copy_text;
use asn_memory::{Box, List, Mem};
use asn_tree::{
    ASN1Type, ASN1Value, Choice, ChoiceOption, ConstrainedComponent, Constraint, ContentConstraint,
    ElementOrSetOperation, ElementSet, InnerTypeConstraint, SequenceOrSet, SequenceOrSetMember,
    SequenceOrSetOf, SetOperation, SubtypeElement,
};
use std::alloc::Global;

/// A SEQUENCE.
pub fn sequence(made: Option<SequenceOrSet>) -> Option<ASN1Type>
    ensures { option_map out-ASN1Type result ≡ sequence_made (option_map out-SequenceOrSet made) }
{
    match made {
        None => None,
        Some(made) => Some(ASN1Type::Sequence(made)),
    }
}

/// A SET.
pub fn set(made: Option<SequenceOrSet>) -> Option<ASN1Type>
    ensures { option_map out-ASN1Type result ≡ set_made (option_map out-SequenceOrSet made) }
{
    match made {
        None => None,
        Some(made) => Some(ASN1Type::Set(made)),
    }
}

/// A SEQUENCE OF.
pub fn sequence_of(made: Option<SequenceOrSetOf>) -> Option<ASN1Type>
    ensures { option_map out-ASN1Type result ≡ sequence_of_made (option_map out-SequenceOrSetOf made) }
{
    match made {
        None => None,
        Some(made) => Some(ASN1Type::SequenceOf(made)),
    }
}

/// A SET OF.
pub fn set_of(made: Option<SequenceOrSetOf>) -> Option<ASN1Type>
    ensures { option_map out-ASN1Type result ≡ set_of_made (option_map out-SequenceOrSetOf made) }
{
    match made {
        None => None,
        Some(made) => Some(ASN1Type::SetOf(made)),
    }
}

/// A CHOICE of these options, with the marker of another.
pub fn choice(
    layer: &Choice,
    options: List<ChoiceOption>,
    constraints: Option<List<Constraint>>,
) -> Option<ASN1Type>
    ensures { option_map out-ASN1Type result ≡ choice_made layer.now options constraints }
{
    match constraints {
        None => None,
        Some(constraints) => Some(ASN1Type::Choice(Choice {
            extensible: layer.extensible,
            options,
            constraints,
        })),
    }
}

/// A SEQUENCE or SET of these members with this marker, and with the places of names after COMPONENTS OF that are left.
///
/// Err: want of memory.
pub fn structure(
    alloc: Global,
    layer: &SequenceOrSet,
    extensible: Option<usize>,
    members: List<SequenceOrSetMember>,
    constraints: Option<List<Constraint>>,
) -> Mem<Option<SequenceOrSet>>
    ensures { IfOk result (λ made. option_map out-SequenceOrSet made ≡ struct_made (places_behind (out-SequenceOrSet layer.now)) extensible members constraints) }
{
    match constraints {
        None => Ok(None),
        Some(constraints) => {
            let components_at = places_left(alloc, layer)?;
            Ok(Some(SequenceOrSet {
                components_of: List::new(alloc),
                components_at,
                extensible,
                constraints,
                members,
            }))
        }
    }
}

/// A SEQUENCE OF or SET OF elements of this type.
///
/// Err: want of memory.
pub fn list(
    alloc: Global,
    layer: &SequenceOrSetOf,
    element: ASN1Type,
    constraints: Option<List<Constraint>>,
) -> Mem<Option<SequenceOrSetOf>>
    ensures { IfOk result (λ made. option_map out-SequenceOrSetOf made ≡ list_made (out-SequenceOrSetOf layer.now) element constraints) }
{
    match constraints {
        None => Ok(None),
        Some(constraints) => {
            let element_type = Box::new(alloc, element)?;
            Ok(Some(SequenceOrSetOf {
                constraints,
                element_type,
                is_recursive: layer.is_recursive,
            }))
        }
    }
}

/// A constraint of this set, with the marker of another, as a list.
///
/// Err: want of memory.
pub fn subtype_constraint(
    alloc: Global,
    layer: &ElementSet,
    set: Option<ElementOrSetOperation>,
) -> Mem<Option<List<Constraint>>>
    ensures { IfOk result (λ made. made ≡ subtype_made layer.now set) }
{
    match set {
        None => Ok(None),
        Some(set) => {
            let constraint = Constraint::SubtypeConstraint(ElementSet {
                set,
                extensible: layer.extensible,
            });
            let made = List::of(alloc, constraint)?;
            Ok(Some(made))
        }
    }
}

/// A content constraint, as a list.
///
/// Err: want of memory.
pub fn content_constraint(
    alloc: Global,
    content: Option<ContentConstraint>,
) -> Mem<Option<List<Constraint>>>
    ensures { IfOk result (λ made. made ≡ content_made content) }
{
    match content {
        None => Ok(None),
        Some(content) => {
            let made = List::of(alloc, Constraint::ContentConstraint(content))?;
            Ok(Some(made))
        }
    }
}

/// A content that is told by its type.
pub fn containing(made: Option<ASN1Type>) -> Option<ContentConstraint>
    ensures { option_map out-ContentConstraint result ≡ containing_made made }
{
    match made {
        None => None,
        Some(ty) => Some(ContentConstraint::Containing(ty)),
    }
}

/// A content that is told by its encoding rules.
pub fn encoded(made: Option<ASN1Value>) -> Option<ContentConstraint>
    ensures { option_map out-ContentConstraint result ≡ encoded_made made }
{
    match made {
        None => None,
        Some(rules) => Some(ContentConstraint::EncodedBy(rules)),
    }
}

/// A content that is told by its type and its encoding rules.
pub fn containing_encoded(
    containing: ASN1Type,
    made: Option<ASN1Value>,
) -> Option<ContentConstraint>
    ensures { option_map out-ContentConstraint result ≡ containing_encoded_made containing made }
{
    match made {
        None => None,
        Some(encoded_by) => Some(ContentConstraint::ContainingEncodedBy {
            containing,
            encoded_by,
        }),
    }
}

/// A listed component with these constraints.
///
/// Err: want of memory.
pub fn listed_component(
    alloc: Global,
    listed: &ConstrainedComponent,
    constraints: Option<List<Constraint>>,
) -> Mem<Option<ConstrainedComponent>>
    ensures { IfOk result (λ made. made ≡ listed_made listed.now constraints) }
{
    match constraints {
        None => Ok(None),
        Some(constraints) => {
            let identifier = copy_text(alloc, &listed.identifier)?;
            Ok(Some(ConstrainedComponent {
                identifier,
                constraints,
                presence: listed.presence,
            }))
        }
    }
}

/// A contained subtype.
pub fn contained(made: Option<ASN1Type>, extensible: bool) -> Option<SubtypeElement>
    ensures { option_map out-SubtypeElement result ≡ contained_made extensible made }
{
    match made {
        None => None,
        Some(subtype) => Some(SubtypeElement::ContainedSubtype {
            subtype,
            extensible,
        }),
    }
}

/// A type as an element.
pub fn type_constraint(made: Option<ASN1Type>) -> Option<SubtypeElement>
    ensures { option_map out-SubtypeElement result ≡ type_constraint_made made }
{
    match made {
        None => None,
        Some(ty) => Some(SubtypeElement::TypeConstraint(ty)),
    }
}

/// FROM with a set.
///
/// Err: want of memory.
pub fn alphabet(alloc: Global, made: Option<ElementOrSetOperation>) -> Mem<Option<SubtypeElement>>
    ensures { IfOk result (λ element. option_map out-SubtypeElement element ≡ alphabet_made made) }
{
    match made {
        None => Ok(None),
        Some(set) => {
            let set = Box::new(alloc, set)?;
            Ok(Some(SubtypeElement::PermittedAlphabet(set)))
        }
    }
}

/// SIZE with a set.
///
/// Err: want of memory.
pub fn size(alloc: Global, made: Option<ElementOrSetOperation>) -> Mem<Option<SubtypeElement>>
    ensures { IfOk result (λ element. option_map out-SubtypeElement element ≡ size_made made) }
{
    match made {
        None => Ok(None),
        Some(set) => {
            let set = Box::new(alloc, set)?;
            Ok(Some(SubtypeElement::SizeConstraint(set)))
        }
    }
}

/// WITH COMPONENT with these constraints.
pub fn component(made: Option<List<Constraint>>) -> Option<SubtypeElement>
    ensures { option_map out-SubtypeElement result ≡ component_made made }
{
    match made {
        None => None,
        Some(constraints) => Some(SubtypeElement::SingleTypeConstraint(constraints)),
    }
}

/// WITH COMPONENTS of these listed components, partial where another is.
pub fn inner_element(
    layer: &InnerTypeConstraint,
    made: Option<List<ConstrainedComponent>>,
) -> Option<SubtypeElement>
    ensures { option_map out-SubtypeElement result ≡ inner_made layer.now made }
{
    match made {
        None => None,
        Some(constraints) => {
            Some(SubtypeElement::MultipleTypeConstraints(InnerTypeConstraint {
                is_partial: layer.is_partial,
                constraints,
            }))
        }
    }
}

/// A set of one element.
pub fn element_set(made: Option<SubtypeElement>) -> Option<ElementOrSetOperation>
    ensures { option_map out-ElementOrSetOperation result ≡ element_set_made made }
{
    match made {
        None => None,
        Some(element) => Some(ElementOrSetOperation::Element(element)),
    }
}

/// A set of elements joined by operators.
pub fn operation_set(made: Option<SetOperation>) -> Option<ElementOrSetOperation>
    ensures { option_map out-ElementOrSetOperation result ≡ operation_set_made (option_map out-SetOperation made) }
{
    match made {
        None => None,
        Some(operation) => Some(ElementOrSetOperation::SetOperation(operation)),
    }
}

/// An element and the set behind it, joined by the operator of another operation.
///
/// Err: want of memory.
pub fn joined(
    alloc: Global,
    layer: &SetOperation,
    base: SubtypeElement,
    made: Option<ElementOrSetOperation>,
) -> Mem<Option<SetOperation>>
    ensures { IfOk result (λ operation. option_map out-SetOperation operation ≡ joined_made (out-SetOperation layer.now) base made) }
{
    match made {
        None => Ok(None),
        Some(set) => {
            let operant = Box::new(alloc, set)?;
            Ok(Some(SetOperation {
                base,
                operator: layer.operator,
                operant,
            }))
        }
    }
}
