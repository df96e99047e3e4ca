//! Making constraints.

ghost use Rattle.asn_tree_kinds.specs.MakingConstraints.{component_of};
ghost use Rattle.asn_tree.specs.MakingConstraints.{operation_of};
ghost use Rattle.asn_tree.specs.declared.constraints.SubtypeElement.TheVariants.{MultipleTypeConstraints, SizeConstraint};
ghost use Rattle.std.specs.Prelude.{◌≡◌, IfOk, Ok, Some, false, true, is_some, map};

use crate::constraints::{
    CompositeConstraint, Constraint, ContentConstraint, ElementOrSetOperation, ElementSet,
    InnerTypeConstraint, SetOperation, SubtypeElement, ValueConstraint,
};
use crate::types::ASN1Type;
use crate::values::ASN1Value;
use asn_memory::{Box, List, Mem};
use asn_tree_equality::{beside, boxed_each};
use asn_tree_kinds::{ComponentPresence, SetOperator};
use asn_tree_leaves::{ExtensionMarker, RangeSeperator};
use std::alloc::Global;

/// The encoding of a value of the type.
impl From<ASN1Type> for ContentConstraint {
    ghost use Rattle.std.specs.Prelude.{◌≡◌};
    ghost use Rattle.asn_tree.specs.declared.constraints.ContentConstraint.TheVariants.{Containing};

    ghost from_gives = { λ ty content. content ≡ Containing ty };

    fn from(ty: ASN1Type) -> ContentConstraint {
        ContentConstraint::Containing(ty)
    }
}

/// The encoding rules that the value names.
impl From<ASN1Value> for ContentConstraint {
    ghost use Rattle.std.specs.Prelude.{◌≡◌};
    ghost use Rattle.asn_tree.specs.declared.constraints.ContentConstraint.TheVariants.{EncodedBy};

    ghost from_gives = { λ rules content. content ≡ EncodedBy rules };

    fn from(rules: ASN1Value) -> ContentConstraint {
        ContentConstraint::EncodedBy(rules)
    }
}

/// The encoding of a value of the type by the encoding rules that the value names.
impl From<(ASN1Type, ASN1Value)> for ContentConstraint {
    ghost use Rattle.std.specs.Prelude.{◌≡◌};
    ghost use Rattle.asn_tree.specs.declared.constraints.ContentConstraint.TheVariants.{ContainingEncodedBy};

    ghost from_gives = { λ parts content. content ≡ ContainingEncodedBy parts.0 parts.1 };

    fn from(parts: (ASN1Type, ASN1Value)) -> ContentConstraint {
        let (containing, encoded_by) = parts;
        ContentConstraint::ContainingEncodedBy {
            containing,
            encoded_by,
        }
    }
}

/// The single value, extensible where a marker stands.
impl From<(ASN1Value, Option<ExtensionMarker>)> for SubtypeElement {
    ghost use Rattle.std.specs.Prelude.{◌≡◌, is_some};
    ghost use Rattle.asn_tree.specs.declared.constraints.SubtypeElement.TheVariants.{SingleValue};

    ghost from_gives = { λ parts element. element ≡ SingleValue parts.0 (is_some parts.1) };

    fn from(parts: (ASN1Value, Option<ExtensionMarker>)) -> SubtypeElement {
        let (value, marker) = parts;
        SubtypeElement::SingleValue {
            value,
            extensible: marker.is_some(),
        }
    }
}

impl CompositeConstraint {
    /// The constraint joined with the others, each behind its operator, extensible where a marker stands.
    pub fn from_parts(
        alloc: Global,
        base_constraint: Constraint,
        operation: List<(SetOperator, Constraint)>,
        marker: Option<ExtensionMarker>,
    ) -> Mem<CompositeConstraint>
        ensures { IfOk result (λ made. made ≡ record {
          base_constraint = base_constraint;
          operation = operation;
          extensible = is_some marker;
        }) }
    {
        let (base_constraint, operation) = beside(Box::new(alloc, base_constraint), operation)?;
        let (operation, base_constraint) = beside(boxed_each(alloc, operation), base_constraint)?;
        Ok(CompositeConstraint {
            base_constraint,
            operation,
            extensible: marker.is_some(),
        })
    }
}

impl ValueConstraint {
    /// The range between two values. It takes no memory.
    pub fn range(
        _alloc: Global,
        min: ASN1Value,
        _separator: RangeSeperator,
        max: ASN1Value,
    ) -> Mem<ValueConstraint>
        ensures { result ≡ Ok (record {
          min_value = Some min;
          max_value = Some max;
          extensible = false;
        }) }
    {
        Ok(ValueConstraint {
            min_value: Some(min),
            max_value: Some(max),
            extensible: false,
        })
    }

    /// The range between two values with an extension marker. It takes no memory.
    pub fn extensible_range(
        _alloc: Global,
        min: ASN1Value,
        _separator: RangeSeperator,
        max: ASN1Value,
        _marker: ExtensionMarker,
    ) -> Mem<ValueConstraint>
        ensures { result ≡ Ok (record {
          min_value = Some min;
          max_value = Some max;
          extensible = true;
        }) }
    {
        Ok(ValueConstraint {
            min_value: Some(min),
            max_value: Some(max),
            extensible: true,
        })
    }
}

impl SubtypeElement {
    /// `WITH COMPONENTS` with these components: each has a name, its constraints, and the word on its presence. The
    /// list is partial where a marker stands.
    pub fn from_parts(
        alloc: Global,
        marker: Option<ExtensionMarker>,
        components: List<(&str, Option<List<Constraint>>, Option<ComponentPresence>)>,
    ) -> Mem<SubtypeElement>
        ensures { IfOk result (λ made. made ≡ MultipleTypeConstraints (record {
          is_partial = is_some marker;
          constraints = map (λ c. component_of c.0.now c.1 c.2) components.entry;
        })) }
    {
        Ok(SubtypeElement::MultipleTypeConstraints(InnerTypeConstraint::from_parts(
            alloc, marker, components,
        )?))
    }

    /// `SIZE` of the set's root; that the set is extensible falls away.
    pub fn size(alloc: Global, set: ElementSet) -> Mem<SubtypeElement>
        ensures { IfOk result (λ made. made ≡ SizeConstraint set.set) }
    {
        Ok(SubtypeElement::SizeConstraint(Box::new(alloc, set.into_set())?))
    }
}

impl SetOperation {
    /// The element, the operator, and what stands behind it.
    pub fn from_parts(
        alloc: Global,
        base: SubtypeElement,
        operator: SetOperator,
        operant: ElementOrSetOperation,
    ) -> Mem<SetOperation>
        ensures { IfOk result (λ made. made ≡ operation_of base operator operant) }
    {
        let (operant, base) = beside(Box::new(alloc, operant), base)?;
        Ok(SetOperation {
            base,
            operator,
            operant,
        })
    }
}
