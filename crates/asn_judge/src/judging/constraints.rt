//! Constraints written one behind another, each on the type with those before it (X.680 49.6), and sets of elements.

ghost use Rattle.asn_meaning_heads.specs.Places.{shown_place};
ghost use Rattle.asn_meaning_heads.specs.Scopes.{shown};
ghost use Rattle.asn_judge.specs.inner.Judging.{element_holds};
ghost use Rattle.asn_meaning_ranges.specs.Chains.{shown_chain};
ghost use Rattle.asn_meaning_ranges.specs.Parents.{shown_parent};
ghost use Rattle.asn_meaning_ranges.specs.Sets.{shown_numbers};
ghost use Rattle.asn_meaning_shapes.specs.Answers.{known};
ghost use Rattle.asn_meaning_shapes.specs.Trees.{shown_tree};
ghost use Rattle.asn_meaning.specs.Answers.{both};
ghost use Rattle.asn_meaning.specs.Constraints.{all_hold, constraint_at, constraint_holds, part_holds, set_holds};
ghost use Rattle.asn_meaning.specs.Judge.{meaning};
ghost use Rattle.asn_meaning.specs.Numbers.{answers, ranked};
ghost use Rattle.asn_meaning.specs.Ranges.{all_constraints, narrowed_by_all};
ghost use Rattle.asn_tree.specs.declared.constraints.Constraint.{out-Constraint};
ghost use Rattle.std.specs.Option.{option_map};
ghost use Rattle.std.specs.Prelude.{◌≡◌, IfOk, ℕ, ◌+◌};

use crate::judging::elements::holds;
use crate::ranking::Ranking;
use asn_meaning_heads::{Place, Scope, constraints_in, head};
use asn_meaning_ranges::{Chain, Numbers, Parent, chain, is_free, narrowed, numbers};
use asn_meaning_shapes::{Answer, Tree};
use asn_memory::Mem;
use asn_names_index::Names;
use asn_tree::{Constraint, ElementOrSetOperation};
use std::alloc::Global;

/// Whether a tree is in a set.
#[cycle(judging)]
#[tactic(auto, using(crate::proofs::Holding::chained))]
pub(super) fn set_holds<'a>(
    alloc: Global,
    names: &Names<'a>,
    steps: usize,
    scope: &Scope<'a>,
    parent: Parent<'_, '_, 'a>,
    set: &'a ElementOrSetOperation,
    tree: &Tree,
) -> Mem<Answer>
    ensures { IfOk result (λ answer. (m : ℕ) → known answer ≡ set_holds (meaning names.now.definitions.now (steps + m)) (shown scope.now) (shown_parent parent.entry) set.now (shown_tree tree.now)) }
{
    let chain = chain(alloc, steps, set)?;
    let answer = chain_holds(alloc, names, steps, scope, parent, &chain, tree)?;
    Ok(answer)
}

/// Whether a tree is in the set that elements joined by operators are.
#[cycle(judging)]
#[tactic(auto, using(crate::proofs::Holding::chain_begun, crate::proofs::Holding::chain_next, crate::proofs::Holding::chain_done))]
fn chain_holds<'a>(
    alloc: Global,
    names: &Names<'a>,
    steps: usize,
    scope: &Scope<'a>,
    parent: Parent<'_, '_, 'a>,
    chain: &Chain<'a>,
    tree: &Tree,
) -> Mem<Answer>
    ensures { IfOk result (λ answer. (m : ℕ) → known answer ≡ ranked answers (element_holds (meaning names.now.definitions.now (steps + m)) (shown scope.now) (shown_parent parent.entry) (shown_tree tree.now)) (shown_chain chain.now)) }
{
    let first = holds(alloc, names, steps, scope, parent, chain.first, tree)?;
    let mut ranking = Ranking::of(first);
    let others = chain.others.as_slice();
    for joined in others {
        let one = holds(alloc, names, steps, scope, parent, joined.element, tree)?;
        ranking = ranking.with(joined.operator, one);
    }
    Ok(ranking.answer())
}

/// Whether a constraint holds of a tree. The root decides: extension markers change nothing. Content and table constraints, and
/// argument lists, count as true.
#[cycle(judging)]
fn constraint_at<'a>(
    alloc: Global,
    names: &Names<'a>,
    steps: usize,
    scope: &Scope<'a>,
    parent: Parent<'_, '_, 'a>,
    constraint: &'a Constraint,
    tree: &Tree,
) -> Mem<Answer>
    ensures { IfOk result (λ answer. (m : ℕ) → known answer ≡ constraint_at (meaning names.now.definitions.now (steps + m)) (shown scope.now) (shown_parent parent.entry) (shown_tree tree.now) (out-Constraint constraint.now)) }
{
    match constraint {
        Constraint::SubtypeConstraint(element_set) => {
            let set = &element_set.set;
            let answer = set_holds(alloc, names, steps, scope, parent, set, tree)?;
            Ok(answer)
        }
        Constraint::TableConstraint(_) => Ok(Answer::Yes),
        Constraint::Parameter(_) => Ok(Answer::Yes),
        Constraint::ContentConstraint(_) => Ok(Answer::Yes),
    }
}

/// Whether a constraint on a head holds of a tree, where the constraints before it leave these numbers.
#[cycle(judging)]
#[tactic(auto, using(crate::proofs::Holding::free, crate::proofs::Holding::bound))]
fn constraint_holds<'a>(
    alloc: Global,
    names: &Names<'a>,
    steps: usize,
    scope: &Scope<'a>,
    head: &Place<'a>,
    numbers: &Option<Numbers>,
    constraint: &'a Constraint,
    tree: &Tree,
) -> Mem<Answer>
    ensures { IfOk result (λ answer. (m : ℕ) → known answer ≡ constraint_holds (meaning names.now.definitions.now (steps + m)) (shown scope.now) (shown_place head.now) (option_map shown_numbers numbers.now) constraint.now (shown_tree tree.now)) }
{
    if is_free(head.ty) {
        return Ok(Answer::Yes);
    }
    let parent = Parent::Values { head, numbers };
    let answer = constraint_at(alloc, names, steps, scope, parent, constraint, tree)?;
    Ok(answer)
}

/// What constraints say of a tree, and the whole numbers that they leave.
#[derive(Drop)]
pub(super) struct Held {
    pub(super) answer: Answer,
    pub(super) numbers: Option<Numbers>,
}

/// Whether all constraints on a head hold of a tree, each on the type with those before it; and the numbers that they leave.
#[cycle(judging)]
#[tactic(auto, using(crate::proofs::Holding::constraint_next, crate::proofs::Holding::constraints_done, crate::proofs::Holding::narrowed_next, crate::proofs::Holding::narrowed_done))]
fn all_hold<'a>(
    alloc: Global,
    names: &Names<'a>,
    steps: usize,
    scope: &Scope<'a>,
    head: &Place<'a>,
    before: Option<Numbers>,
    constraints: &'a [Constraint],
    tree: &Tree,
) -> Mem<Held>
    ensures answer { IfOk result (λ held. (m : ℕ) → known held.answer ≡ all_hold (meaning names.now.definitions.now (steps + m)) (shown scope.now) (shown_place head.now) (option_map shown_numbers before) constraints.now (shown_tree tree.now)) }
    ensures numbers { IfOk result (λ held. (m : ℕ) → option_map shown_numbers held.numbers ≡ narrowed_by_all (meaning names.now.definitions.now (steps + m)) (shown scope.now) (shown_place head.now) (option_map shown_numbers before) constraints.now) }
{
    let mut numbers = before;
    let mut answer = Answer::Yes;
    for constraint in constraints {
        let one = constraint_holds(alloc, names, steps, scope, head, &numbers, constraint, tree)?;
        answer = answer.and(one);
        let left = narrowed(alloc, names, steps, scope, head, &numbers, constraint)?;
        numbers = left;
    }
    Ok(Held { answer, numbers })
}

/// What was held before and what the constraints of a type and of its place say of a tree, where the type has this head; and the whole
/// numbers that they leave.
#[cycle(judging)]
#[tactic(auto, using(crate::proofs::Holding::held_of_all, crate::proofs::Holding::left_of_all))]
pub(super) fn held_with<'a>(
    alloc: Global,
    names: &Names<'a>,
    steps: usize,
    place: &Place<'a>,
    head: &Place<'a>,
    before: Held,
    constraints: &'a [Constraint],
    tree: &Tree,
) -> Mem<Held>
    ensures answer { IfOk result (λ held. (m : ℕ) → known held.answer ≡ both (known before.answer) (all_hold (meaning names.now.definitions.now (steps + m)) (shown place.now.scope) (shown_place head.now) (option_map shown_numbers before.numbers) (all_constraints (shown_place place.now) constraints.now) (shown_tree tree.now))) }
    ensures numbers { IfOk result (λ held. (m : ℕ) → option_map shown_numbers held.numbers ≡ narrowed_by_all (meaning names.now.definitions.now (steps + m)) (shown place.now.scope) (shown_place head.now) (option_map shown_numbers before.numbers) (all_constraints (shown_place place.now) constraints.now)) }
{
    let scope = &place.scope;
    let own = constraints_in(place.ty);
    let Held { answer, numbers } = before;
    let first = all_hold(alloc, names, steps, scope, head, numbers, own, tree)?;
    let further = all_hold(
        alloc,
        names,
        steps,
        scope,
        head,
        first.numbers,
        constraints,
        tree,
    )?;
    let answer = answer.and(first.answer.and(further.answer));
    Ok(Held {
        answer,
        numbers: further.numbers,
    })
}

/// Whether further constraints on the type of a part hold of a tree; they are written in `scope`.
#[cycle(judging)]
#[tactic(auto, using(crate::proofs::Holding::part_headless, crate::proofs::Holding::part_headed))]
pub(super) fn part_holds<'a>(
    alloc: Global,
    names: &Names<'a>,
    steps: usize,
    scope: &Scope<'a>,
    place: &Place<'a>,
    constraints: &'a [Constraint],
    tree: &Tree,
) -> Mem<Answer>
    ensures { IfOk result (λ answer. (m : ℕ) → known answer ≡ part_holds (meaning names.now.definitions.now (steps + m)) (shown scope.now) (shown_place place.now) constraints.now (shown_tree tree.now)) }
{
    match head(alloc, names, steps, place)? {
        None => Ok(Answer::Unknown),
        Some(found) => {
            let before = numbers(alloc, names, steps, place, &[])?;
            let held = all_hold(
                alloc,
                names,
                steps,
                scope,
                &found,
                before,
                constraints,
                tree,
            )?;
            Ok(held.answer)
        }
    }
}
