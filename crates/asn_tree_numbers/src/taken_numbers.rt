//! Numbers that are taken, which are looked up in few steps.

ghost use Rattle.asn_tree_numbers.specs.Enumeration.{has};
ghost use Rattle.std.specs.BTreeSet.{contains};
ghost use Rattle.std.specs.Ordering.{int_cmp};
ghost use Rattle.std.specs.Prelude.{◌≡◌, ℤ, IfOk};

use asn_memory::{List, Mem};
use std::alloc::Global;
use std::collections::BTreeSet;

/// Numbers, and the set of them.
#[derive(Drop)]
pub(crate) struct TakenNumbers {
    pub(crate) numbers: List<i128>,
    set: BTreeSet<i128>,
    ghost agrees: { (q : ℤ) → contains int_cmp set q ≡ has numbers q },
}

impl TakenNumbers {
    /// These numbers.
    pub(crate) fn new(alloc: Global, numbers: List<i128>) -> Mem<TakenNumbers>
        ensures { IfOk result (λ taken. taken.numbers ≡ numbers) }
    {
        let set = set_of(alloc, numbers.as_slice())?;
        Ok(TakenNumbers { numbers, set })
    }

    /// Whether the number is taken.
    pub(crate) fn has(&self, number: i128) -> bool
        ensures { result ≡ has self.now.numbers number }
    {
        self.set.contains(&number)
    }

    /// The numbers, in their order.
    pub(crate) fn into_numbers(self) -> List<i128>
        ensures { result ≡ self.numbers }
    {
        self.numbers
    }
}

fn set_of(alloc: Global, numbers: &[i128]) -> Mem<BTreeSet<i128>>
    ensures { IfOk result (λ set. (q : ℤ) → contains int_cmp set q ≡ has numbers.now q) }
{
    let mut set = BTreeSet::new(alloc);
    for number in numbers {
        set.insert(*number)?;
    }
    Ok(set)
}
