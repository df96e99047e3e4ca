//! Making types.

ghost use Rattle.asn_tree_equality.specs.Making.{listed};
ghost use Rattle.asn_tree.specs.MakingTypes.{IsAddition, bounded, choice_of, list_of, member_of, option_of, sequence_of, sequence_of_members};
ghost use Rattle.std.specs.Option.{option_map};
ghost use Rattle.std.specs.Prelude.{◌≡◌, ◌↔◌, IfOk, IsTrue, Ok, Some};
ghost use Rattle.asn_tree.specs.declared.values.ASN1Value.TheVariants as value;

use crate::constraints::{Constraint, ElementOrSetOperation, ElementSet, SubtypeElement};
use crate::making::components::{Sorted, sorted_with};
use crate::types::{
    ASN1Type, Choice, ChoiceOption, Integer, IntegerOver, SequenceComponent, SequenceOrSet,
    SequenceOrSetMember, SequenceOrSetOf,
};
use crate::values::ASN1Value;
use asn_memory::{Box, List, Mem, Text};
use asn_tree_equality::{appended, beside, listed, marked};
use asn_tree_headers::AsnTag;
use asn_tree_kinds::DistinguishedValue;
use asn_tree_leaves::{ExtensionMarker, OptionalMarker};
use std::alloc::Global;

impl<C> IntegerOver<C> {
    /// INTEGER with these named numbers and constraints; the word before them tells nothing. It takes no memory.
    pub fn from_parts(
        alloc: Global,
        _word: &str,
        distinguished_values: Option<List<DistinguishedValue>>,
        constraints: Option<List<C>>,
    ) -> Mem<IntegerOver<C>>
        ensures { result ≡ Ok (record {
          constraints = listed constraints;
          distinguished_values = distinguished_values;
        }) }
    {
        Ok(IntegerOver {
            constraints: listed(alloc, constraints),
            distinguished_values,
        })
    }
}

impl Integer {
    /// INTEGER from the first number to the second, both within, extensible where the flag says so.
    pub fn from_bounds(alloc: Global, min: i128, max: i128, extensible: bool) -> Mem<Integer>
        ensures { IfOk result (λ made. made ≡ bounded (Some min) (Some max) extensible) }
    {
        Integer::from_optional_bounds(alloc, Some(min), Some(max), extensible)
    }

    /// INTEGER from the first number to the second, both within, extensible where the flag says so. An absent number
    /// is MIN or MAX.
    pub fn from_optional_bounds(
        alloc: Global,
        min: Option<i128>,
        max: Option<i128>,
        extensible: bool,
    ) -> Mem<Integer>
        ensures { IfOk result (λ made. made ≡ bounded min max extensible) }
    {
        let range = SubtypeElement::ValueRange {
            min: number(min),
            max: number(max),
            min_open: false,
            max_open: false,
            extensible,
        };
        let constraint = Constraint::SubtypeConstraint(ElementSet {
            set: ElementOrSetOperation::Element(range),
            extensible,
        });
        Ok(Integer {
            constraints: List::of(alloc, constraint)?,
            distinguished_values: None,
        })
    }
}

/// The value of a number, where one is given.
fn number(number: Option<i128>) -> Option<ASN1Value>
    ensures { result ≡ option_map value.Integer number }
{
    match number {
        Some(number) => Some(ASN1Value::Integer(number)),
        None => None,
    }
}

impl SequenceOrSetOf {
    /// The list type with these constraints and elements of this type.
    pub fn from_parts(
        alloc: Global,
        constraints: Option<List<Constraint>>,
        element_type: ASN1Type,
    ) -> Mem<SequenceOrSetOf>
        ensures { IfOk result (λ made. made ≡ list_of constraints element_type) }
    {
        let (element_type, constraints) = beside(Box::new(alloc, element_type), constraints)?;
        Ok(SequenceOrSetOf {
            constraints: listed(alloc, constraints),
            element_type,
            is_recursive: false,
        })
    }
}

impl SequenceOrSet {
    /// The SEQUENCE or SET of these components: those of the first list, and, behind an extension marker, those of the
    /// second; with these constraints. The members keep their order, and so do the names after `COMPONENTS OF`.
    pub fn from_parts(
        alloc: Global,
        body: (
            List<SequenceComponent>,
            Option<ExtensionMarker>,
            Option<List<SequenceComponent>>,
        ),
        constraints: Option<List<Constraint>>,
    ) -> Mem<SequenceOrSet>
        ensures { IfOk result (λ made. made ≡ sequence_of body.0 body.1 body.2 constraints) }
    {
        let (components, marker, additions) = body;
        let first = sorted_with(alloc, Sorted::new(alloc), components, false);
        let (first, (additions, constraints)) = beside(first, (additions, constraints))?;
        let extensible = marked(marker, first.members.len());
        let all = sorted_with(alloc, first, listed(alloc, additions), true);
        let (all, constraints) = beside(all, constraints)?;
        let Sorted {
            members,
            names,
            places,
        } = all;
        Ok(SequenceOrSet {
            components_of: names,
            components_at: places,
            extensible,
            constraints: listed(alloc, constraints),
            members,
        })
    }

    /// The SEQUENCE or SET of these members: those of the first list, and, behind an extension marker, those of the
    /// second; with these constraints.
    pub fn from_members(
        alloc: Global,
        body: (
            List<SequenceOrSetMember>,
            Option<ExtensionMarker>,
            Option<List<SequenceOrSetMember>>,
        ),
        constraints: Option<List<Constraint>>,
    ) -> Mem<SequenceOrSet>
        ensures { IfOk result (λ made.
            made ≡ sequence_of_members body.0 body.1 body.2 constraints) }
    {
        let (members, marker, additions) = body;
        let extensible = marked(marker, members.len());
        let (members, constraints) = beside(appended(members, additions), constraints)?;
        Ok(SequenceOrSet {
            components_of: List::new(alloc),
            components_at: List::new(alloc),
            extensible,
            constraints: listed(alloc, constraints),
            members,
        })
    }

    /// Whether the member at this index, counted from 0, stands behind the extension marker.
    pub fn is_addition(&self, index: usize) -> bool
        ensures { IsTrue result ↔ IsAddition self.now index }
    {
        match self.extensible {
            Some(first) => first <= index && index < self.members.len(),
            None => false,
        }
    }
}

impl SequenceOrSetMember {
    /// The member of that name: its tag, its type, the constraints behind the type, OPTIONAL, and its default. It is
    /// optional where OPTIONAL or a default stands.
    pub fn from_parts(
        alloc: Global,
        name: &str,
        tag: Option<AsnTag>,
        ty: ASN1Type,
        constraints: Option<List<Constraint>>,
        optional: Option<OptionalMarker>,
        default_value: Option<ASN1Value>,
    ) -> Mem<SequenceOrSetMember>
        ensures { IfOk result (λ made.
            made ≡ member_of name.now tag ty constraints optional default_value) }
    {
        let held = (ty, constraints, default_value);
        let (name, held) = beside(Text::new(alloc, name), held)?;
        let (ty, constraints, default_value) = held;
        Ok(SequenceOrSetMember {
            name,
            tag,
            ty,
            is_optional: optional.is_some() || default_value.is_some(),
            default_value,
            is_recursive: false,
            constraints: listed(alloc, constraints),
        })
    }
}

impl Choice {
    /// The CHOICE of these options: those of the first list, and, behind an extension marker, those of the second.
    pub fn from_parts(
        alloc: Global,
        options: List<ChoiceOption>,
        marker: Option<ExtensionMarker>,
        additions: Option<List<ChoiceOption>>,
    ) -> Mem<Choice>
        ensures { IfOk result (λ made. made ≡ choice_of options marker additions) }
    {
        let extensible = marked(marker, options.len());
        Ok(Choice {
            extensible,
            options: appended(options, additions)?,
            constraints: List::new(alloc),
        })
    }
}

impl ChoiceOption {
    /// The option of that name: its tag, its type, and the constraints behind the type.
    pub fn from_parts(
        alloc: Global,
        name: &str,
        tag: Option<AsnTag>,
        ty: ASN1Type,
        constraints: Option<List<Constraint>>,
    ) -> Mem<ChoiceOption>
        ensures { IfOk result (λ made. made ≡ option_of name.now tag ty constraints) }
    {
        let (name, (ty, constraints)) = beside(Text::new(alloc, name), (ty, constraints))?;
        Ok(ChoiceOption {
            name,
            tag,
            ty,
            constraints: listed(alloc, constraints),
            is_recursive: false,
        })
    }
}
