//! Members and shapes, as all further steps have them (X.680 25).

ghost use Rattle.asn_meaning_heads.specs.Places.{shown_place};
ghost use Rattle.asn_meaning_heads.specs.Scopes.{shown};
ghost use Rattle.asn_meaning_shapes.specs.Answers.{known};
ghost use Rattle.asn_meaning_shapes.specs.Members.{shown_members};
ghost use Rattle.asn_meaning_shapes.specs.Trees.{shown_tree};
ghost use Rattle.asn_meaning.specs.Judge.{meaning};
ghost use Rattle.asn_meaning.specs.Members.{members_of};
ghost use Rattle.asn_tree.specs.declared.types.SequenceOrSet.{out-SequenceOrSet};
ghost use Rattle.std.specs.Option.{option_map};
ghost use Rattle.std.specs.Prelude.{◌≡◌, ◌+◌, ℕ, IfOk};

use crate::answers::Answer;
use crate::components::{members_over, struct_members_over};
use crate::fitting::fits_over;
use crate::members::Member;
use crate::trees::Tree;
use asn_meaning_heads::{Place, Scope, Span};
use asn_memory::{List, Mem};
use asn_names_index::Names;
use asn_tree::SequenceOrSet;
use std::alloc::Global;

/// The members of a SEQUENCE or SET: the written ones, with the root members of each COMPONENTS OF at its place (X.680 25.5).
/// They are found within these steps, and stay the same within more.
///
/// None: a name leads nowhere, or to a type of another kind, however many steps there are. Err: want of memory, also where the
/// steps are used up.
pub fn struct_members<'a>(
    alloc: Global,
    names: &Names<'a>,
    steps: usize,
    scope: &Scope<'a>,
    layer: &'a SequenceOrSet,
) -> Mem<Option<List<Member<'a>>>>
    ensures { IfOk result (λ found. (m : ℕ) → option_map shown_members found ≡ (meaning names.now.definitions.now (steps + m)).members (shown scope.now) (out-SequenceOrSet layer.now)) }
{
    let found = struct_members_over(alloc, names, Span::Further, steps, scope, layer)?;
    Ok(found)
}

/// The members of a head that is a SEQUENCE or SET.
///
/// None and Err: as `struct_members`; None for a head of another kind too.
pub fn members_of<'a>(
    alloc: Global,
    names: &Names<'a>,
    steps: usize,
    head: &Place<'a>,
) -> Mem<Option<List<Member<'a>>>>
    ensures { IfOk result (λ found. (m : ℕ) → option_map shown_members found ≡ members_of (meaning names.now.definitions.now (steps + m)) (shown_place head.now)) }
{
    let found = members_over(alloc, names, Span::Further, steps, head)?;
    Ok(found)
}

/// Whether a tree fits a type. It is found within these steps, and stays the same within more.
///
/// Unknown: a name leads nowhere, or to a type of another kind, however many steps there are. Err: want of memory, also where
/// the steps are used up.
pub fn fits<'a>(
    alloc: Global,
    names: &Names<'a>,
    steps: usize,
    place: &Place<'a>,
    tree: &Tree,
) -> Mem<Answer>
    ensures { IfOk result (λ answer. (m : ℕ) → known answer ≡ (meaning names.now.definitions.now (steps + m)).fits (shown_place place.now) (shown_tree tree.now)) }
{
    let answer = fits_over(alloc, names, Span::Further, steps, place, tree)?;
    Ok(answer)
}
