//! Names of values that are followed one after the other, and the shapes that are wanted of what is denoted at their end.

ghost use Rattle.asn_meaning_values.specs.Denotation.{shown_denotation};
ghost use Rattle.asn_meaning_values.specs.inner.Following.{next_denoted, shaped_by};
ghost use Rattle.asn_meaning_heads.specs.Places.{shown_place};
ghost use Rattle.asn_meaning_heads.specs.Scopes.{shown};
ghost use Rattle.asn_meaning_heads.specs.Spans.{further};
ghost use Rattle.asn_meaning.specs.Denotes.{reference_denoted, shaped};
ghost use Rattle.asn_meaning.specs.Judge.{meaning};
ghost use Rattle.std.specs.Option.{option_copied};
ghost use Rattle.std.specs.Prelude.{◌≡◌, IfOk, ℕ, ◌+◌, ◌++◌, ◌∷◌, []};

use crate::denotation::{Denotation, provided};
use crate::making::opaque_tree;
use crate::reading::Read;
use crate::stands::{Stands, reference_stands};
use asn_meaning_heads::{Place, Scope, Span};
use asn_meaning_shapes::{Tree, fits_over};
use asn_memory::{List, Mem, Text};
use asn_names_index::Names;
use std::alloc::Global;

/// A shape that is wanted of what is denoted: that of a head, as it is known within a number of steps.
#[derive(Drop)]
pub struct Wanted<'a> {
    pub steps: usize,
    pub head: Place<'a>,
}

/// What a value denotes, or which value it names.
#[derive(Drop)]
pub enum Next<'a> {
    /// This is what it denotes.
    Known(Denotation<Tree>),
    /// What this value denotes, where it has the shape of the head.
    Further(Place<'a>, Read<'a>),
}

/// The shapes that are wanted, with one more at the end.
///
/// Err: want of memory.
pub fn with_wanted<'a>(
    wanted: List<Wanted<'a>>,
    steps: usize,
    head: Place<'a>,
) -> Mem<List<Wanted<'a>>>
    ensures { IfOk result (λ more. more ≡ wanted.entry ++ (record { steps = steps; head = head.entry }) ∷ []) }
{
    let mut wanted = wanted;
    wanted.add(Wanted { steps, head })?;
    Ok(wanted)
}

/// What is denoted, where it has the shape that is wanted here; else none.
///
/// Err: want of memory.
pub fn shaped<'a>(
    alloc: Global,
    names: &Names<'a>,
    span: Span,
    steps: usize,
    head: &Place<'a>,
    denotation: Denotation<Tree>,
) -> Mem<Denotation<Tree>>
    ensures { IfOk result (λ d. (m : ℕ) → shown_denotation d ≡ shaped (meaning names.now.definitions.now (steps + further span m)) (shown_place head.now) (shown_denotation denotation)) }
{
    match denotation {
        Denotation::Denoted(tree) => {
            let answer = fits_over(alloc, names, span, steps, head, &tree)?;
            Ok(provided(answer, tree))
        }
        Denotation::Nothing => Ok(Denotation::Nothing),
        Denotation::Unsure => Ok(Denotation::Unsure),
    }
}

/// What is denoted, where it has all the shapes that are wanted, the last first; else none.
///
/// Err: want of memory.
#[tactic(auto, using(crate::proofs::Chaining::shaped_last, crate::proofs::Chaining::shaped_begin, crate::proofs::Chaining::shaped_done))]
pub fn shaped_by<'a>(
    alloc: Global,
    names: &Names<'a>,
    span: Span,
    wanted: &[Wanted<'a>],
    denotation: Denotation<Tree>,
) -> Mem<Denotation<Tree>>
    ensures { IfOk result (λ d. (m : ℕ) → shown_denotation d ≡ shaped_by names.now.definitions.now (further span m) wanted.now (shown_denotation denotation)) }
{
    let mut denoted = denotation;
    for i in (0..wanted.len()).rev() {
        let shape = &wanted[i];
        denoted = shaped(alloc, names, span, shape.steps, &shape.head, denoted)?;
    }
    Ok(denoted)
}

/// Which value is named by a name, alone or behind the name of an object; else what the name denotes.
///
/// Err: want of memory.
#[tactic(auto, using(crate::proofs::Standing::stands_tree, crate::proofs::Standing::stands_read, crate::proofs::Standing::stands_open, crate::proofs::Standing::stands_lost))]
pub fn named_next<'a>(
    alloc: Global,
    names: &Names<'a>,
    span: Span,
    steps: usize,
    scope: &Scope<'a>,
    parent: Option<&'a Text>,
    name: &'a Text,
    head: &Place<'a>,
) -> Mem<Next<'a>>
    ensures { IfOk result (λ next. (m : ℕ) → next_denoted (meaning names.now.definitions.now (steps + further span m)) next ≡ reference_denoted names.now.definitions.now (meaning names.now.definitions.now (steps + further span m)) (shown scope.now) (shown_place head.now) (option_copied parent.entry) name.now) }
{
    match reference_stands(alloc, names, scope, head, parent, name)? {
        Stands::Tree(tree) => Ok(Next::Known(Denotation::Denoted(tree))),
        Stands::Read(read) => {
            let head = head.copy(alloc)?;
            Ok(Next::Further(head, read))
        }
        Stands::Open => {
            let opaque = Denotation::Denoted(opaque_tree());
            let denoted = shaped(alloc, names, span, steps, head, opaque)?;
            Ok(Next::Known(denoted))
        }
        Stands::Nothing => Ok(Next::Known(Denotation::Unsure)),
    }
}
