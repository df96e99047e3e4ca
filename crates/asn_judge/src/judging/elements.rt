//! Whether an element of a constraint holds of a tree (X.680 51).

ghost use Rattle.asn_meaning_heads.specs.Places.{shown_place};
ghost use Rattle.asn_meaning_heads.specs.Scopes.{shown};
ghost use Rattle.asn_judge.specs.inner.Judging.{character_holds, characters_hold};
ghost use Rattle.asn_meaning_ranges.specs.Parents.{shown_parent};
ghost use Rattle.asn_meaning_ranges.specs.Sets.{shown_numbers};
ghost use Rattle.asn_meaning_shapes.specs.Answers.{known};
ghost use Rattle.asn_meaning_shapes.specs.Trees.{shown_tree, shown_trees};
ghost use Rattle.asn_meaning.specs.Constraints.{alphabet_holds, component_holds, holds_at, part_holds, set_holds, size_holds, sizes};
ghost use Rattle.asn_meaning.specs.Judge.{meaning};
ghost use Rattle.asn_meaning.specs.Shapes.{list_judged, trees_judged};
ghost use Rattle.asn_meaning.specs.ValueTrees.{WholeNumber};
ghost use Rattle.asn_tree.specs.declared.constraints.SubtypeElement.{out-SubtypeElement};
ghost use Rattle.std.specs.Prelude.{◌≡◌, IfOk, pos, ℕ, ◌+◌};

use crate::characters::{character_tree, characters_of, text_of};
use crate::judging::accepting::type_accepts;
use crate::judging::components::inner_holds;
use crate::judging::constraints::{part_holds, set_holds};
use crate::singles::{range_holds, single_holds};
use crate::sizes::{size_numbers, size_place, size_tree};
use crate::trees::counted;
use asn_meaning_heads::{Place, Scope};
use asn_meaning_ranges::{Numbers, Parent, codes_of};
use asn_meaning_shapes::{Answer, Tree, element_place, elements_of};
use asn_memory::{Mem, OutOfMemory};
use asn_names_index::Names;
use asn_tree::{Constraint, ElementOrSetOperation, SubtypeElement};
use std::alloc::Global;

/// Whether an element of a constraint, written in a scope, holds of a tree, within a number of steps.
///
/// Unknown: a name leads nowhere, however many steps there are. Err: want of memory, also where the steps are used up.
#[cycle(judging)]
#[tactic(auto, using(crate::proofs::Holding::holds_at_more))]
pub fn holds<'a>(
    alloc: Global,
    names: &Names<'a>,
    steps: usize,
    scope: &Scope<'a>,
    parent: Parent<'_, '_, 'a>,
    element: &'a SubtypeElement,
    tree: &Tree,
) -> Mem<Answer>
    ensures { IfOk result (λ answer. (m : ℕ) → known answer ≡ (meaning names.now.definitions.now (steps + m)).holds (shown scope.now) (shown_parent parent.entry) element.now (shown_tree tree.now)) }
{
    if steps == 0 {
        return Err(OutOfMemory);
    }
    let answer = holds_at(alloc, names, steps - 1, scope, parent, element, tree)?;
    Ok(answer)
}

/// Whether an element holds of a tree. One that does not fit the tree's kind says no. Pattern, user text and settings say yes.
#[cycle(judging)]
fn holds_at<'a>(
    alloc: Global,
    names: &Names<'a>,
    steps: usize,
    scope: &Scope<'a>,
    parent: Parent<'_, '_, 'a>,
    element: &'a SubtypeElement,
    tree: &Tree,
) -> Mem<Answer>
    ensures { IfOk result (λ answer. (m : ℕ) → known answer ≡ holds_at (meaning names.now.definitions.now (steps + m)) (shown scope.now) (shown_parent parent.entry) (shown_tree tree.now) (out-SubtypeElement element.now)) }
{
    match element {
        SubtypeElement::SingleValue {
            value,
            extensible: _,
        } => {
            let answer = single_holds(alloc, names, steps, scope, parent, value, tree)?;
            Ok(answer)
        }
        SubtypeElement::ContainedSubtype {
            subtype,
            extensible: _,
        } => {
            let answer = type_accepts(alloc, names, steps, scope, subtype, tree)?;
            Ok(answer)
        }
        SubtypeElement::ValueRange {
            min,
            max,
            min_open,
            max_open,
            extensible: _,
        } => {
            let answer = range_holds(
                alloc,
                names,
                steps,
                scope,
                parent,
                min.as_ref(),
                max.as_ref(),
                *min_open,
                *max_open,
                tree,
            )?;
            Ok(answer)
        }
        SubtypeElement::PermittedAlphabet(set) => {
            let set = set.get();
            let answer = alphabet_holds(alloc, names, steps, scope, parent, set, tree)?;
            Ok(answer)
        }
        SubtypeElement::SizeConstraint(set) => {
            let answer = size_holds(alloc, names, steps, scope, set.get(), tree)?;
            Ok(answer)
        }
        SubtypeElement::TypeConstraint(ty) => {
            let answer = type_accepts(alloc, names, steps, scope, ty, tree)?;
            Ok(answer)
        }
        SubtypeElement::SingleTypeConstraint(constraints) => {
            let constraints = constraints.as_slice();
            let answer = component_holds(alloc, names, steps, scope, parent, constraints, tree)?;
            Ok(answer)
        }
        SubtypeElement::MultipleTypeConstraints(inner) => {
            let answer = inner_holds(alloc, names, steps, scope, parent, inner, tree)?;
            Ok(answer)
        }
        SubtypeElement::PatternConstraint(_) => Ok(Answer::Yes),
        SubtypeElement::UserDefinedConstraint(_) => Ok(Answer::Yes),
        SubtypeElement::PropertySettings(_) => Ok(Answer::Yes),
    }
}

/// Whether a set after FROM has each character of a text alone (X.680 51.7).
#[cycle(judging)]
#[tactic(auto, using(crate::proofs::Holding::no_alphabet, crate::proofs::Holding::some_alphabet))]
fn alphabet_holds<'a>(
    alloc: Global,
    names: &Names<'a>,
    steps: usize,
    scope: &Scope<'a>,
    parent: Parent<'_, '_, 'a>,
    set: &'a ElementOrSetOperation,
    tree: &Tree,
) -> Mem<Answer>
    ensures { IfOk result (λ answer. (m : ℕ) → known answer ≡ alphabet_holds (meaning names.now.definitions.now (steps + m)) (shown scope.now) (shown_parent parent.entry) set.now (shown_tree tree.now)) }
{
    match text_of(tree) {
        None => Ok(Answer::No),
        Some(text) => {
            let codes = codes_of(alloc, parent)?;
            let characters = characters_of(alloc, text.as_str())?;
            let answer = characters_hold(alloc, names, steps, scope, &codes, set, &characters)?;
            Ok(answer)
        }
    }
}

/// Whether a set has each character, where the characters are of these codes.
#[cycle(judging)]
#[tactic(auto, using(crate::proofs::Holding::character_next, crate::proofs::Holding::characters_done))]
fn characters_hold<'a>(
    alloc: Global,
    names: &Names<'a>,
    steps: usize,
    scope: &Scope<'a>,
    codes: &Numbers,
    set: &'a ElementOrSetOperation,
    characters: &[char],
) -> Mem<Answer>
    ensures { IfOk result (λ answer. (m : ℕ) → known answer ≡ characters_hold (meaning names.now.definitions.now (steps + m)) (shown scope.now) (shown_numbers codes.now) set.now characters.now) }
{
    let mut answer = Answer::Yes;
    for character in characters {
        let one = character_holds(alloc, names, steps, scope, codes, set, *character)?;
        answer = answer.and(one);
    }
    Ok(answer)
}

/// Whether a set has a character, where the characters are of these codes.
#[cycle(judging)]
#[tactic(auto, using(crate::proofs::Holding::character_asked))]
fn character_holds<'a>(
    alloc: Global,
    names: &Names<'a>,
    steps: usize,
    scope: &Scope<'a>,
    codes: &Numbers,
    set: &'a ElementOrSetOperation,
    character: char,
) -> Mem<Answer>
    ensures { IfOk result (λ answer. (m : ℕ) → known answer ≡ character_holds (meaning names.now.definitions.now (steps + m)) (shown scope.now) (shown_numbers codes.now) set.now character) }
{
    let tree = character_tree(alloc, character)?;
    let parent = Parent::Characters(codes);
    let answer = set_holds(alloc, names, steps, scope, parent, set, &tree)?;
    Ok(answer)
}

/// Whether a set after SIZE has the number of bits, octets, characters or elements (X.680 51.5).
#[cycle(judging)]
#[tactic(auto, using(crate::proofs::Holding::no_size, crate::proofs::Holding::some_size))]
fn size_holds<'a>(
    alloc: Global,
    names: &Names<'a>,
    steps: usize,
    scope: &Scope<'a>,
    set: &'a ElementOrSetOperation,
    tree: &Tree,
) -> Mem<Answer>
    ensures { IfOk result (λ answer. (m : ℕ) → known answer ≡ size_holds (meaning names.now.definitions.now (steps + m)) (shown scope.now) set.now (shown_tree tree.now)) }
{
    match counted(tree) {
        None => Ok(Answer::No),
        Some(size) => {
            let answer = size_is_in(alloc, names, steps, scope, set, size)?;
            Ok(answer)
        }
    }
}

/// Whether a set has a size.
#[cycle(judging)]
#[tactic(auto, using(crate::proofs::Holding::size_asked))]
fn size_is_in<'a>(
    alloc: Global,
    names: &Names<'a>,
    steps: usize,
    scope: &Scope<'a>,
    set: &'a ElementOrSetOperation,
    size: usize,
) -> Mem<Answer>
    ensures { IfOk result (λ answer. (m : ℕ) → known answer ≡ set_holds (meaning names.now.definitions.now (steps + m)) (shown scope.now) sizes set.now (WholeNumber (pos size))) }
{
    let head = size_place();
    let numbers = size_numbers();
    let tree = size_tree(size);
    let parent = Parent::Values {
        head: &head,
        numbers: &numbers,
    };
    let answer = set_holds(alloc, names, steps, scope, parent, set, &tree)?;
    Ok(answer)
}

/// Whether the constraints after WITH COMPONENT hold of each element (X.680 51.8.5).
#[cycle(judging)]
#[tactic(auto, using(crate::proofs::Holding::no_component, crate::proofs::Holding::some_component))]
fn component_holds<'a>(
    alloc: Global,
    names: &Names<'a>,
    steps: usize,
    scope: &Scope<'a>,
    parent: Parent<'_, '_, 'a>,
    constraints: &'a [Constraint],
    tree: &Tree,
) -> Mem<Answer>
    ensures { IfOk result (λ answer. (m : ℕ) → known answer ≡ component_holds (meaning names.now.definitions.now (steps + m)) (shown scope.now) (shown_parent parent.entry) constraints.now (shown_tree tree.now)) }
{
    match parent {
        Parent::Characters(_) => Ok(Answer::No),
        Parent::Values { head, .. } => match element_place(alloc, head)? {
            None => Ok(Answer::No),
            Some(place) => {
                let answer = list_holds(alloc, names, steps, scope, &place, constraints, tree)?;
                Ok(answer)
            }
        },
    }
}

/// Whether a tree is a list, and constraints on the elements' type hold of each element.
#[cycle(judging)]
#[tactic(auto, using(asn_meaning_shapes::proofs::Judging::no_list, asn_meaning_shapes::proofs::Judging::list_known))]
fn list_holds<'a>(
    alloc: Global,
    names: &Names<'a>,
    steps: usize,
    scope: &Scope<'a>,
    place: &Place<'a>,
    constraints: &'a [Constraint],
    tree: &Tree,
) -> Mem<Answer>
    ensures { IfOk result (λ answer. (m : ℕ) → known answer ≡ list_judged (part_holds (meaning names.now.definitions.now (steps + m)) (shown scope.now) (shown_place place.now) constraints.now) (shown_tree tree.now)) }
{
    match elements_of(tree) {
        None => Ok(Answer::No),
        Some(elements) => {
            let answer = elements_hold(alloc, names, steps, scope, place, constraints, elements)?;
            Ok(answer)
        }
    }
}

/// Whether constraints on the elements' type hold of each element.
#[cycle(judging)]
#[tactic(auto, using(asn_meaning_shapes::proofs::Judging::element_next, asn_meaning_shapes::proofs::Judging::elements_done))]
fn elements_hold<'a>(
    alloc: Global,
    names: &Names<'a>,
    steps: usize,
    scope: &Scope<'a>,
    place: &Place<'a>,
    constraints: &'a [Constraint],
    elements: &[Tree],
) -> Mem<Answer>
    ensures { IfOk result (λ answer. (m : ℕ) → known answer ≡ trees_judged (part_holds (meaning names.now.definitions.now (steps + m)) (shown scope.now) (shown_place place.now) constraints.now) (shown_trees elements.now)) }
{
    let mut answer = Answer::Yes;
    for element in elements {
        let one = part_holds(alloc, names, steps, scope, place, constraints, element)?;
        answer = answer.and(one);
    }
    Ok(answer)
}
