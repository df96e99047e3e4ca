//! The sizes of trees: whole numbers from 0 (X.680 51.5).

ghost use Rattle.asn_meaning_heads.specs.Places.{shown_place};
ghost use Rattle.asn_meaning_ranges.specs.Sets.{shown_numbers};
ghost use Rattle.asn_meaning_shapes.specs.Trees.{shown_tree};
ghost use Rattle.asn_meaning.specs.Numbers.{numbers_from};
ghost use Rattle.asn_meaning.specs.Ranges.{integer_named};
ghost use Rattle.asn_meaning.specs.ValueTrees.{WholeNumber};
ghost use Rattle.std.specs.Option.{option_map};
ghost use Rattle.std.specs.Prelude.{◌≡◌, None, Some, false, pos};

use asn_meaning_heads::{Place, Scope, TypeForm};
use asn_meaning_ranges::{Numbers, numbers_from};
use asn_meaning_shapes::Tree;

/// A size as a tree.
#[tactic(auto, using(asn_meaning_shapes::proofs::Showing::whole_shown))]
pub fn size_tree(size: usize) -> Tree
    ensures { shown_tree result ≡ WholeNumber (pos size) }
{
    Tree::Whole(size as i128)
}

/// The type of sizes.
#[tactic(auto, using(asn_meaning_heads::proofs::Scoping::shown_nothing))]
pub fn size_place<'a>() -> Place<'a>
    ensures { shown_place result ≡ integer_named None }
{
    Place {
        scope: Scope::Empty,
        ty: TypeForm::Integer(None),
    }
}

/// The numbers that sizes are.
pub fn size_numbers() -> Option<Numbers>
    ensures { option_map shown_numbers result ≡ Some (numbers_from false (pos 0)) }
{
    Some(numbers_from(false, 0))
}
