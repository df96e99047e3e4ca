//! Object sets, their items and each kind of field (X.681), over any objects, types and values.

use asn_memory::{List, Text};
use asn_tree_leaves::ObjectFieldIdentifier;

/// An item of an object set (X.681 12.3).
pub enum ObjectSetValueOver<F> {
    /// The name of an object or an object set.
    Reference(Text),
    /// An object.
    Inline(F),
}

impl<F: Drop> Drop for ObjectSetValueOver<F> {
    fn drop(self) {
        match self {
            ObjectSetValueOver::Reference(_) => (),
            ObjectSetValueOver::Inline(_) => (),
        }
    }
}

/// An object set (X.681 12.3).
pub struct ObjectSetOver<F> {
    /// The items in order.
    pub values: List<ObjectSetValueOver<F>>,
    /// How many items stand before the extension marker, where there is one.
    pub extensible: Option<usize>,
}

impl<F: Drop> Drop for ObjectSetOver<F> {
    fn drop(self) {
        let ObjectSetOver {
            values: _,
            extensible: _,
        } = self;
    }
}

/// A field that is a value.
pub struct FixedValueFieldOver<V> {
    /// The name with its `&`.
    pub identifier: Text,
    pub value: V,
}

impl<V: Drop> Drop for FixedValueFieldOver<V> {
    fn drop(self) {
        let FixedValueFieldOver {
            identifier: _,
            value: _,
        } = self;
    }
}

/// A field that is a type.
pub struct TypeFieldOver<T> {
    /// The name with its `&`.
    pub identifier: Text,
    pub ty: T,
}

impl<T: Drop> Drop for TypeFieldOver<T> {
    fn drop(self) {
        let TypeFieldOver {
            identifier: _,
            ty: _,
        } = self;
    }
}

/// A field that is an object set.
pub struct ObjectSetFieldOver<F> {
    /// The name with its `&`.
    pub identifier: Text,
    pub value: ObjectSetOver<F>,
}

impl<F: Drop> Drop for ObjectSetFieldOver<F> {
    fn drop(self) {
        let ObjectSetFieldOver {
            identifier: _,
            value: _,
        } = self;
    }
}

/// The type of a class's field, as in `ATTRIBUTE.&Type` (X.681 14.1).
pub struct InformationObjectFieldReferenceOver<C> {
    /// The class's name.
    pub class: Text,
    /// The fields' names in order.
    pub field_path: List<ObjectFieldIdentifier>,
    pub constraints: List<C>,
}

impl<C: Drop> Drop for InformationObjectFieldReferenceOver<C> {
    fn drop(self) {
        let InformationObjectFieldReferenceOver {
            class: _,
            field_path: _,
            constraints: _,
        } = self;
    }
}
