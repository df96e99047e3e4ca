//! The value of a field, over any values.

ghost use Rattle.asn_tree_kinds.specs.Values.{held};
ghost use Rattle.std.specs.Prelude.{◌≡◌};

use asn_memory::Box;

/// The value of a field: written, or its type's default.
pub enum StructLikeFieldValueOver<V> {
    /// It is written.
    Explicit(Box<V>),
    /// It is left out, and this is the default.
    Implicit(Box<V>),
}

impl<V: Drop> Drop for StructLikeFieldValueOver<V> {
    fn drop(self) {
        match self {
            StructLikeFieldValueOver::Explicit(_) => (),
            StructLikeFieldValueOver::Implicit(_) => (),
        }
    }
}

impl<V> StructLikeFieldValueOver<V> {
    /// Takes the value out, whether it is written or the default.
    pub fn into_held(self) -> V
        ensures { result ≡ held self }
    {
        match self {
            StructLikeFieldValueOver::Explicit(value) => value.into_inner(),
            StructLikeFieldValueOver::Implicit(value) => value.into_inner(),
        }
    }
}
