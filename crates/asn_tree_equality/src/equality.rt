//! Equality of trees, part by part: what can be compared, and texts, numbers, lists, options, boxes and pairs of such.

ghost use Rattle.asn_tree_equality.specs.Equality.{same_by};
ghost use Rattle.std.specs.Prelude.{◌≡◌, ◌↔◌, IsTrue};

use asn_memory::{Box, List, Text};

/// What can be compared with another of its type.
pub trait SameTree {
    /// Whether both are equal.
    fn is_same(&self, other: &Self) -> bool
        ensures { IsTrue result ↔ (self.now ≡ other.now) };
}

/// What `==` of each type of tree answers: whether both are equal, which is the test of their codes.
pub fn same<T: SameTree>(left: &T, right: &T) -> bool
    ensures equal { IsTrue result ↔ (left.now ≡ right.now) }
    ensures gives { result ≡ same_by T.row.coded left.now right.now }
{
    left.is_same(right)
}

impl<T: SameTree> SameTree for List<T> {
    fn is_same(&self, other: &Self) -> bool {
        let (left, right) = (self.as_slice(), other.as_slice());
        if left.len() != right.len() {
            return false;
        }
        for i in 0..left.len() {
            if !left[i].is_same(&right[i]) {
                return false;
            }
        }
        true
    }
}

impl<T: SameTree> SameTree for Option<T> {
    fn is_same(&self, other: &Self) -> bool {
        match (self, other) {
            (None, None) => true,
            (Some(left), Some(right)) => left.is_same(right),
            _ => false,
        }
    }
}

impl<T: SameTree> SameTree for Box<T> {
    fn is_same(&self, other: &Self) -> bool {
        self.get().is_same(other.get())
    }
}

impl<A: SameTree, B: SameTree> SameTree for (A, B) {
    fn is_same(&self, other: &Self) -> bool {
        self.0.is_same(&other.0) && self.1.is_same(&other.1)
    }
}

impl SameTree for Text {
    fn is_same(&self, other: &Self) -> bool {
        self.as_str() == other.as_str()
    }
}

impl SameTree for bool {
    fn is_same(&self, other: &Self) -> bool {
        self == other
    }
}

impl SameTree for u8 {
    fn is_same(&self, other: &Self) -> bool {
        self == other
    }
}

impl SameTree for usize {
    fn is_same(&self, other: &Self) -> bool {
        self == other
    }
}
