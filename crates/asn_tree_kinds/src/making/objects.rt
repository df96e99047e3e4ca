//! Making information object classes, objects and object sets.

ghost use Rattle.asn_tree_kinds.specs.declared.objects.ObjectSetValueOver.TheVariants.{Reference};
ghost use Rattle.asn_tree_equality.specs.Making.{listed, marked};
ghost use Rattle.std.specs.Prelude.{◌≡◌, ◌++◌, IfOk, length};

use crate::objects::{InformationObjectFieldReferenceOver, ObjectSetOver, ObjectSetValueOver};
use asn_memory::{List, Mem, Text};
use asn_tree_equality::{appended, beside, listed, marked};
use asn_tree_leaves::{ExtensionMarker, ObjectFieldIdentifier};
use std::alloc::Global;

/// The object with these fields.
impl<F> From<F> for ObjectSetValueOver<F> {
    ghost use Rattle.std.specs.Prelude.{◌≡◌};
    ghost use Rattle.asn_tree_kinds.specs.declared.objects.ObjectSetValueOver.TheVariants.{Inline};

    ghost from_gives = { λ fields item. item ≡ Inline fields };

    fn from(fields: F) -> ObjectSetValueOver<F> {
        ObjectSetValueOver::Inline(fields)
    }
}

impl<F> ObjectSetValueOver<F> {
    /// The object or object set of that name.
    pub fn from_parts(alloc: Global, name: &str) -> Mem<ObjectSetValueOver<F>>
        ensures { IfOk result (λ made. made ≡ Reference name.now) }
    {
        Ok(ObjectSetValueOver::Reference(Text::new(alloc, name)?))
    }
}

impl<F: Drop> ObjectSetOver<F> {
    /// The set of these items: those of the first list, and, behind an extension marker, those of the second.
    pub fn from_parts(
        _alloc: Global,
        values: List<ObjectSetValueOver<F>>,
        marker: Option<ExtensionMarker>,
        additions: Option<List<ObjectSetValueOver<F>>>,
    ) -> Mem<ObjectSetOver<F>>
        ensures { IfOk result (λ made. made ≡ record {
          values = values ++ listed additions;
          extensible = marked marker (length values);
        }) }
    {
        let extensible = marked(marker, values.len());
        Ok(ObjectSetOver {
            values: appended(values, additions)?,
            extensible,
        })
    }
}

impl<C: Drop> InformationObjectFieldReferenceOver<C> {
    /// The type of the class's field at the end of these names, with the constraints behind it.
    pub fn from_parts(
        alloc: Global,
        class: &str,
        field_path: List<ObjectFieldIdentifier>,
        constraints: Option<List<C>>,
    ) -> Mem<InformationObjectFieldReferenceOver<C>>
        ensures { IfOk result (λ made. made ≡ record {
          class = class.now;
          field_path = field_path;
          constraints = listed constraints;
        }) }
    {
        let (class, (field_path, constraints)) = beside(
            Text::new(alloc, class),
            (field_path, constraints),
        )?;
        Ok(InformationObjectFieldReferenceOver {
            class,
            field_path,
            constraints: listed(alloc, constraints),
        })
    }
}
