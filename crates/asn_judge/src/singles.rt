//! Single values and ranges (X.680 51.2, 51.4).

ghost use Rattle.asn_meaning_values.specs.Denotation.{shown_denotation};
ghost use Rattle.asn_meaning_heads.specs.Places.{shown_place};
ghost use Rattle.asn_meaning_heads.specs.Scopes.{shown};
ghost use Rattle.asn_judge.specs.inner.Singles.{whole_in};
ghost use Rattle.asn_meaning_ranges.specs.Parents.{shown_parent};
ghost use Rattle.asn_meaning_ranges.specs.Sets.{shown_numbers};
ghost use Rattle.asn_meaning_shapes.specs.Answers.{known};
ghost use Rattle.asn_meaning_shapes.specs.Trees.{shown_tree};
ghost use Rattle.asn_meaning.specs.Constraints.{compared, is_value, number_asked, occurs, range_holds, side_holds, single_holds};
ghost use Rattle.asn_meaning.specs.Judge.{meaning};
ghost use Rattle.asn_meaning.specs.Ranges.{from_low, up_to_high, value_place};
ghost use Rattle.std.specs.Option.{option_copied, option_map};
ghost use Rattle.std.specs.Prelude.{◌≡◌, IfOk, ℕ, ◌+◌};

use crate::characters::{characters_of, occurs_among, only_character, text_of};
use crate::trees::same_tree;
use asn_meaning_heads::{Place, Scope, ValueForm};
use asn_meaning_ranges::{Numbers, Parent, from_low, up_to_high, value_place};
use asn_meaning_shapes::{Answer, Tree, View};
use asn_meaning_values::{Denotation, denotes, is_all};
use asn_memory::Mem;
use asn_names_index::Names;
use asn_tree::ASN1Value;
use std::alloc::Global;

/// Whether a text of one character occurs in a text.
///
/// Err: want of memory.
#[tactic(auto, using(crate::proofs::Singling::no_character, crate::proofs::Singling::nowhere, crate::proofs::Singling::somewhere))]
fn occurs(alloc: Global, tree: &Tree, text: &Tree) -> Mem<bool>
    ensures { IfOk result (λ answer. answer ≡ occurs (shown_tree tree.now) (shown_tree text.now)) }
{
    match only_character(alloc, tree)? {
        None => Ok(false),
        Some(character) => match text_of(text) {
            None => Ok(false),
            Some(text) => {
                let characters = characters_of(alloc, text.as_str())?;
                Ok(occurs_among(&characters, character))
            }
        },
    }
}

/// Whether a tree is the value's; in FROM, whether the character is one of the value's.
///
/// Err: want of memory.
fn is_value(alloc: Global, parent: Parent<'_, '_, '_>, tree: &Tree, value: &Tree) -> Mem<bool>
    ensures { IfOk result (λ answer. answer ≡ is_value (shown_parent parent.entry) (shown_tree tree.now) (shown_tree value.now)) }
{
    match parent {
        Parent::Values { .. } => Ok(same_tree(tree, value)),
        Parent::Characters(_) => {
            let answer = occurs(alloc, tree, value)?;
            Ok(answer)
        }
    }
}

/// What is said of a tree by what a value denotes.
///
/// Err: want of memory.
fn compared(
    alloc: Global,
    parent: Parent<'_, '_, '_>,
    tree: &Tree,
    denoted: &Denotation<Tree>,
) -> Mem<Answer>
    ensures { IfOk result (λ answer. known answer ≡ compared (shown_parent parent.entry) (shown_tree tree.now) (shown_denotation denoted.now)) }
{
    match denoted {
        Denotation::Denoted(value) => {
            let answer = is_value(alloc, parent, tree, value)?;
            Ok(Answer::of(answer))
        }
        Denotation::Nothing => Ok(Answer::No),
        Denotation::Unsure => Ok(Answer::Unknown),
    }
}

/// Whether a single value holds of a tree, where it is read under this type.
///
/// Err: want of memory.
#[tactic(auto, using(crate::proofs::Singling::single_all, crate::proofs::Singling::single_unknown, crate::proofs::Singling::single_compared))]
fn single_holds_under<'a>(
    alloc: Global,
    names: &Names<'a>,
    steps: usize,
    scope: &Scope<'a>,
    parent: Parent<'_, '_, 'a>,
    value: &'a ASN1Value,
    place: &Place<'a>,
    tree: &Tree,
) -> Mem<Answer>
    requires { shown_place place.now ≡ value_place (shown_parent parent) }
    ensures { IfOk result (λ answer. (m : ℕ) → known answer ≡ single_holds (meaning names.now.definitions.now (steps + m)) (shown scope.now) (shown_parent parent.entry) value.now (shown_tree tree.now)) }
{
    let form = ValueForm::Written(value);
    match is_all(alloc, names, steps, scope, form, place)? {
        Answer::Yes => Ok(Answer::Yes),
        Answer::Unknown => Ok(Answer::Unknown),
        Answer::No => {
            let denoted = denotes(alloc, names, steps, scope, form, place)?;
            let answer = compared(alloc, parent, tree, &denoted)?;
            Ok(answer)
        }
    }
}

/// Whether a single value holds of a tree: it denotes the tree under the constrained type; ALL holds of every tree (X.680 51.2).
///
/// Err: want of memory.
pub fn single_holds<'a>(
    alloc: Global,
    names: &Names<'a>,
    steps: usize,
    scope: &Scope<'a>,
    parent: Parent<'_, '_, 'a>,
    value: &'a ASN1Value,
    tree: &Tree,
) -> Mem<Answer>
    ensures { IfOk result (λ answer. (m : ℕ) → known answer ≡ single_holds (meaning names.now.definitions.now (steps + m)) (shown scope.now) (shown_parent parent.entry) value.now (shown_tree tree.now)) }
{
    let place = value_place(alloc, parent)?;
    let answer = single_holds_under(alloc, names, steps, scope, parent, value, &place, tree)?;
    Ok(answer)
}

/// The whole number that a tree is.
fn whole_of(tree: &Tree) -> Option<i128>
    ensures { result ≡ whole_in (shown_tree tree.now) }
{
    match tree.view() {
        View::Whole(number) => Some(number),
        View::Null => None,
        View::Truth(_) => None,
        View::Item(_) => None,
        View::Real(_) => None,
        View::Bits(_) => None,
        View::Octets(_) => None,
        View::Text(_) => None,
        View::Arcs(_) => None,
        View::Struct(_) => None,
        View::Elements(_) => None,
        View::Alternative(_, _) => None,
        View::Opaque => None,
    }
}

/// The whole number that a range is asked of; in FROM the code of a character.
///
/// Err: want of memory.
#[tactic(auto, using(crate::proofs::Singling::asked_of_values, crate::proofs::Singling::none_asked, crate::proofs::Singling::code_asked))]
fn number_asked(alloc: Global, parent: Parent<'_, '_, '_>, tree: &Tree) -> Mem<Option<i128>>
    ensures { IfOk result (λ number. number ≡ number_asked (shown_parent parent.entry) (shown_tree tree.now)) }
{
    match parent {
        Parent::Values { .. } => Ok(whole_of(tree)),
        Parent::Characters(_) => match only_character(alloc, tree)? {
            None => Ok(None),
            Some(character) => Ok(Some(character as i128)),
        },
    }
}

/// Whether a number lies on the side of an end that a range has, once the numbers of that side are known.
///
/// Err: want of memory.
#[tactic(auto, using(crate::proofs::Singling::side_known))]
fn side_holds(alloc: Global, side: Option<Numbers>, number: i128) -> Mem<Answer>
    ensures { IfOk result (λ answer. known answer ≡ side_holds (option_map shown_numbers side) number) }
{
    match side {
        None => Ok(Answer::Unknown),
        Some(set) => {
            let has = set.has(alloc, number)?;
            Ok(Answer::of(has))
        }
    }
}

/// Whether a range holds of a tree: it holds of the numbers from its lower end on and up to its upper one (X.680 51.4). Each end is
/// asked alone, so a number beyond one of them is out of the range, whatever the other is.
///
/// Err: want of memory, also where the steps are used up.
#[tactic(auto, using(crate::proofs::Singling::out_of_range, crate::proofs::Singling::between_ends))]
pub fn range_holds<'a>(
    alloc: Global,
    names: &Names<'a>,
    steps: usize,
    scope: &Scope<'a>,
    parent: Parent<'_, '_, 'a>,
    low: Option<&'a ASN1Value>,
    high: Option<&'a ASN1Value>,
    low_open: bool,
    high_open: bool,
    tree: &Tree,
) -> Mem<Answer>
    ensures { IfOk result (λ answer. (m : ℕ) → known answer ≡ range_holds (from_low (meaning names.now.definitions.now (steps + m)) (shown scope.now) (shown_parent parent.entry) low_open (option_copied low.entry)) (up_to_high (meaning names.now.definitions.now (steps + m)) (shown scope.now) (shown_parent parent.entry) high_open (option_copied high.entry)) (number_asked (shown_parent parent.entry) (shown_tree tree.now))) }
{
    match number_asked(alloc, parent, tree)? {
        None => Ok(Answer::No),
        Some(number) => {
            let from = from_low(alloc, names, steps, scope, parent, low_open, low)?;
            let above = side_holds(alloc, from, number)?;
            let to = up_to_high(alloc, names, steps, scope, parent, high_open, high)?;
            let below = side_holds(alloc, to, number)?;
            Ok(above.and(below))
        }
    }
}
