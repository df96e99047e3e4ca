//! Members within a number of steps and no more (X.680 25).

ghost use Rattle.asn_meaning_heads.specs.Scopes.{shown};
ghost use Rattle.asn_meaning_shapes.specs.Members.{shown_members};
ghost use Rattle.asn_meaning.specs.Judge.{meaning};
ghost use Rattle.asn_tree.specs.declared.types.SequenceOrSet.{out-SequenceOrSet};
ghost use Rattle.std.specs.Option.{option_map};
ghost use Rattle.std.specs.Prelude.{◌≡◌, IfOk};

use crate::components::struct_members_over;
use crate::members::Member;
use asn_meaning_heads::{Scope, Span};
use asn_memory::{List, Mem};
use asn_names_index::Names;
use asn_tree::SequenceOrSet;
use std::alloc::Global;

/// The members of a SEQUENCE or SET, as far as they are known within these steps: the written ones, with the root members of each
/// COMPONENTS OF at its place (X.680 25.5).
///
/// None: a name leads nowhere, to a type of another kind, or to no head within these steps. Err: want of memory.
pub fn struct_members_within<'a>(
    alloc: Global,
    names: &Names<'a>,
    steps: usize,
    scope: &Scope<'a>,
    layer: &'a SequenceOrSet,
) -> Mem<Option<List<Member<'a>>>>
    ensures { IfOk result (λ found. option_map shown_members found ≡ (meaning names.now.definitions.now steps).members (shown scope.now) (out-SequenceOrSet layer.now)) }
{
    let found = struct_members_over(alloc, names, Span::These, steps, scope, layer)?;
    Ok(found)
}
