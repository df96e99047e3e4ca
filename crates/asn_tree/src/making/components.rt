//! Sorting the components of a SEQUENCE or SET into its members and the names after `COMPONENTS OF`.
//!
//! The walk over the components knows only whether each is a member or a name, so that its proof goes through no tree.

ghost use Rattle.asn_tree.specs.MakingComponents.{nothing, part_of, with_components, with_part, with_parts};
ghost use Rattle.asn_tree.specs.declared.making.components.Part.{Part};
ghost use Rattle.std.specs.Prelude.{◌≡◌, IfOk, map};

use crate::types::{SequenceComponent, SequenceOrSetMember};
use asn_memory::{List, Mem, Text};
use std::alloc::Global;

/// What a component is.
#[derive(Drop)]
pub(super) enum Part<M> {
    Member(M),
    /// The name after `COMPONENTS OF`.
    Name(Text),
}

/// A component, of which only this is known.
trait Component<M>: Drop {
    ghost part: { Self → Part M };

    /// What the component is.
    fn part(self) -> Part<M>
        ensures { result ≡ part self };
}

impl Component<SequenceOrSetMember> for SequenceComponent {
    ghost part = { part_of };

    fn part(self) -> Part<SequenceOrSetMember> {
        match self {
            SequenceComponent::Member(member) => Part::Member(member),
            SequenceComponent::ComponentsOf(name) => Part::Name(name),
        }
    }
}

/// Components that have been sorted.
#[derive(Drop)]
pub(super) struct Sorted<M> {
    /// The members in order.
    pub members: List<M>,
    /// The names in order.
    pub names: List<Text>,
    /// For each name, how many members stand before it, and whether it stands among the additions.
    pub places: List<(usize, bool)>,
}

impl<M: Drop> Sorted<M> {
    /// No components.
    pub fn new(alloc: Global) -> Sorted<M>
        ensures { result ≡ nothing }
    {
        Sorted {
            members: List::new(alloc),
            names: List::new(alloc),
            places: List::new(alloc),
        }
    }

    /// These and one more.
    fn with(self, part: Part<M>, is_addition: bool) -> Mem<Sorted<M>>
        ensures { IfOk result (λ sorted. sorted ≡ with_part is_addition self part) }
    {
        let mut sorted = self;
        match part {
            Part::Member(member) => sorted.members.add(member)?,
            Part::Name(name) => {
                sorted.places.add((sorted.members.len(), is_addition))?;
                sorted.names.add(name)?;
            }
        }
        Ok(sorted)
    }
}

/// What has been sorted and, behind it, these components.
#[tactic(auto, using(crate::proofs::ComponentsInOrder::parts_are))]
pub(super) fn sorted_with(
    alloc: Global,
    sorted: Sorted<SequenceOrSetMember>,
    components: List<SequenceComponent>,
    are_additions: bool,
) -> Mem<Sorted<SequenceOrSetMember>>
    ensures { IfOk result (λ all. all ≡ with_components are_additions sorted components) }
{
    with_each(alloc, sorted, components, are_additions)
}

#[tactic(auto, using(crate::proofs::ComponentsInOrder::one_more_part))]
fn with_each<M: Drop, C: Component<M>>(
    alloc: Global,
    sorted: Sorted<M>,
    components: List<C>,
    are_additions: bool,
) -> Mem<Sorted<M>>
    ensures { IfOk result (λ all. all ≡ with_parts are_additions sorted (map C.part components)) }
{
    let mut sorted = sorted;
    for component in components.into_vec() {
        sorted = sorted.with(component.part(), are_additions)?;
    }
    Ok(sorted)
}
