//! The elements of a set, as they stand in its tree (X.680 50.1).

ghost use Rattle.asn_meaning_ranges.specs.Chains.{shown_chain};
ghost use Rattle.asn_meaning.specs.Constraints.{chain_behind};
ghost use Rattle.asn_meaning.specs.Definitions.{Definitions};
ghost use Rattle.asn_meaning.specs.Judge.{meaning};
ghost use Rattle.asn_tree.specs.declared.constraints.SetOperation.{out-SetOperation};
ghost use Rattle.std.specs.Prelude.{◌≡◌, IfOk, Some, ℕ, ◌+◌};

use crate::chains::{Chain, Joined};
use asn_memory::{List, Mem, OutOfMemory};
use asn_tree::{ElementOrSetOperation, SetOperation};
use std::alloc::Global;

/// The chain with the operation's element and operator before it.
///
/// Err: want of memory.
fn chain_behind<'a>(alloc: Global, operation: &'a SetOperation, behind: Chain<'a>) -> Mem<Chain<'a>>
    ensures { IfOk result (λ chain. shown_chain chain ≡ chain_behind (out-SetOperation operation.now) (shown_chain behind.entry)) }
{
    let Chain { first, others } = behind;
    let mut all = List::of(
        alloc,
        Joined {
            operator: operation.operator,
            element: first,
        },
    )?;
    all.append(others)?;
    Ok(Chain {
        first: &operation.base,
        others: all,
    })
}

/// The elements of a set in order, within a number of steps; in the tree they group to the right.
///
/// Err: want of memory, also where the steps are used up.
#[tactic(auto, using(crate::proofs::Chaining::one_element, crate::proofs::Chaining::more_elements))]
pub fn chain<'a>(alloc: Global, steps: usize, set: &'a ElementOrSetOperation) -> Mem<Chain<'a>>
    ensures { (defs : Definitions) → IfOk result (λ found. (m : ℕ) → Some (shown_chain found) ≡ (meaning defs (steps + m)).chain set.now) }
{
    if steps == 0 {
        return Err(OutOfMemory);
    }
    match set {
        ElementOrSetOperation::Element(element) => Ok(Chain {
            first: element,
            others: List::new(alloc),
        }),
        ElementOrSetOperation::SetOperation(operation) => {
            let behind = chain(alloc, steps - 1, operation.operant.get())?;
            let found = chain_behind(alloc, operation, behind)?;
            Ok(found)
        }
    }
}
