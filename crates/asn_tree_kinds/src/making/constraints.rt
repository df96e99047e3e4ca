//! Making constraints.

ghost use Rattle.asn_tree_kinds.specs.MakingConstraints.{component_of};
ghost use Rattle.asn_tree_equality.specs.Making.{listed};
ghost use Rattle.std.specs.Prelude.{◌≡◌, IfOk, Ok, is_some, map};

use crate::constraints::{
    ComponentPresence, ConstrainedComponentOver, ElementSetOver, InnerTypeConstraintOver,
    PatternConstraint, RelationalConstraint, TableConstraintOver, UserDefinedConstraint,
};
use crate::objects::ObjectSetOver;
use asn_memory::{List, Mem, Text};
use asn_tree_equality::{beside, listed};
use asn_tree_leaves::ExtensionMarker;
use std::alloc::Global;

/// The set with this root, extensible where a marker stands.
impl<O> From<(O, Option<ExtensionMarker>)> for ElementSetOver<O> {
    ghost use Rattle.std.specs.Prelude.{◌≡◌, is_some};

    ghost from_gives = { λ parts made. made ≡ record { set = parts.0; extensible = is_some parts.1 } };

    fn from(parts: (O, Option<ExtensionMarker>)) -> ElementSetOver<O> {
        let (set, marker) = parts;
        ElementSetOver {
            set,
            extensible: marker.is_some(),
        }
    }
}

impl<F> TableConstraintOver<F> {
    /// The table constraint of that object set, with the names after `@`. It takes no memory.
    pub fn from_parts(
        alloc: Global,
        object_set: ObjectSetOver<F>,
        linked_fields: Option<List<RelationalConstraint>>,
    ) -> Mem<TableConstraintOver<F>>
        ensures { result ≡ Ok (record {
          object_set = object_set;
          linked_fields = listed linked_fields;
        }) }
    {
        Ok(TableConstraintOver {
            object_set,
            linked_fields: listed(alloc, linked_fields),
        })
    }
}

impl RelationalConstraint {
    /// The name after `@`, with the level at which it starts.
    pub fn from_parts(alloc: Global, level: usize, name: &str) -> Mem<RelationalConstraint>
        ensures { IfOk result (λ made. made ≡ record { field_name = name.now; level = level }) }
    {
        Ok(RelationalConstraint {
            field_name: Text::new(alloc, name)?,
            level,
        })
    }
}

impl PatternConstraint {
    /// The pattern with this text between its quotes.
    pub fn from_parts(alloc: Global, text: &str) -> Mem<PatternConstraint>
        ensures { IfOk result (λ made. made.pattern ≡ text.now) }
    {
        Ok(PatternConstraint {
            pattern: Text::new(alloc, text)?,
        })
    }
}

impl UserDefinedConstraint {
    /// The constraint with this text between its braces.
    pub fn from_parts(alloc: Global, text: &str) -> Mem<UserDefinedConstraint>
        ensures { IfOk result (λ made. made.definition ≡ text.now) }
    {
        Ok(UserDefinedConstraint {
            definition: Text::new(alloc, text)?,
        })
    }
}

impl<C: Drop> InnerTypeConstraintOver<C> {
    /// The components, each with its name, its constraints, and the word on its presence; partial where a marker stands.
    pub fn from_parts(
        alloc: Global,
        marker: Option<ExtensionMarker>,
        components: List<(&str, Option<List<C>>, Option<ComponentPresence>)>,
    ) -> Mem<InnerTypeConstraintOver<C>>
        ensures { IfOk result (λ made. made ≡ record {
          is_partial = is_some marker;
          constraints = map (λ c. component_of c.0.now c.1 c.2) components.entry;
        }) }
    {
        Ok(InnerTypeConstraintOver {
            is_partial: marker.is_some(),
            constraints: components_of(alloc, components)?,
        })
    }
}

/// The listed components in their order.
fn components_of<C: Drop>(
    alloc: Global,
    components: List<(&str, Option<List<C>>, Option<ComponentPresence>)>,
) -> Mem<List<ConstrainedComponentOver<C>>>
    ensures { IfOk result (λ made. made ≡ map (λ c. component_of c.0.now c.1 c.2) components.entry) }
{
    let mut made = List::new(alloc);
    for (name, constraints, presence) in components.into_vec() {
        made.add(component_of(alloc, name, constraints, presence)?)?;
    }
    Ok(made)
}

fn component_of<C: Drop>(
    alloc: Global,
    name: &str,
    constraints: Option<List<C>>,
    presence: Option<ComponentPresence>,
) -> Mem<ConstrainedComponentOver<C>>
    ensures { IfOk result (λ made. made ≡ component_of name.now constraints presence) }
{
    let (identifier, constraints) = beside(Text::new(alloc, name), constraints)?;
    Ok(ConstrainedComponentOver {
        identifier,
        constraints: listed(alloc, constraints),
        presence: presence.unwrap_or(ComponentPresence::Unspecified),
    })
}
