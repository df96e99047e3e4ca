//! Lists that are never empty: the links of a branch and the branches of a fork.

ghost use Rattle.std.specs.Prelude.{◌≡◌, [], ◌∷◌, ◌++◌, ◌<◌, length, IfOk};

use asn_memory::{List, Mem};
use std::alloc::Global;
use std::marker::Model;

/// A list of at least one item, seen by contracts as the list of its items. The calls of `ErrorTree` alone make them.
#[derive(Drop)]
pub struct AtLeastOne<T> {
    items: List<T>,
}

impl<T> Model for AtLeastOne<T> {
    ghost use Rattle.std.specs.Prelude.{List as Sequence, ◌<◌, length};
    ghost use Rattle.std.specs.Coded.{coded_list};

    ghost Value = { Sequence T };

    ghost coded = { coded_list T.code };

    ghost view = { λ l. l.items };

    ghost invariant = { λ l. 0 < length l.items };
}

impl<T> AtLeastOne<T> {
    /// The items.
    pub fn as_slice(&self) -> &[T]
        ensures items { result.now ≡ self.now }
        ensures at_least_one { 0 < length result.now }
    {
        self.items.as_slice()
    }
}

impl<T: Drop> AtLeastOne<T> {
    /// The list of one item. For want of memory the item is dropped.
    pub(crate) fn of(alloc: Global, item: T) -> Mem<AtLeastOne<T>>
        ensures { IfOk result (λ list. list ≡ item ∷ []) }
    {
        let items = List::of(alloc, item)?;
        Ok(AtLeastOne { items })
    }

    /// The list with `item` at its end. For want of memory both are dropped.
    pub(crate) fn with(self, item: T) -> Mem<AtLeastOne<T>>
        ensures { IfOk result (λ list. list ≡ self ++ item ∷ []) }
    {
        let AtLeastOne { mut items } = self;
        items.add(item)?;
        Ok(AtLeastOne { items })
    }

    /// The list with the items of `other` behind its own. For want of memory both are dropped.
    pub(crate) fn followed_by(self, other: AtLeastOne<T>) -> Mem<AtLeastOne<T>>
        ensures { IfOk result (λ list. list ≡ self ++ other) }
    {
        let AtLeastOne { mut items } = self;
        items.append(other.items)?;
        Ok(AtLeastOne { items })
    }
}

impl<T: PartialEq> PartialEq for AtLeastOne<T> {
    ghost use Rattle.std.specs.Cmp.Lexicographic.{pointwise, lists_per};

    ghost eq = { pointwise T.eq };

    ghost laws = { lists_per T.laws };

    fn eq(&self, other: &Self) -> bool {
        self.items == other.items
    }
}
