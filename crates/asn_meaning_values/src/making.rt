//! Trees made of their parts, each with the value tree that it stands for.

ghost use Rattle.asn_meaning_shapes.specs.Trees.{shown_field, shown_fields, shown_tree, shown_trees};
ghost use Rattle.asn_meaning.specs.Rows.{arc_tree};
ghost use Rattle.asn_meaning.specs.ValueTrees.{Alternative, Bits, Characters, Elements, ItemNumber, NullValue, ObjectIdentifierArcs, Octets, Opaque, RealNumber, Struct, TruthValue, WholeNumber};
ghost use Rattle.std.specs.Prelude.{◌≡◌, map};
ghost use Rattle.std.specs.Str.{chars};

use asn_meaning_shapes::{Field, Tree};
use asn_memory::{Box, List, Text};
use asn_tree::{ObjectIdentifierValue, RealValue};

/// The value of NULL.
#[tactic(auto, using(asn_meaning_shapes::proofs::Showing::null_shown))]
pub fn null_tree() -> Tree
    ensures { shown_tree result ≡ NullValue }
{
    Tree::Null
}

/// A truth value.
#[tactic(auto, using(asn_meaning_shapes::proofs::Showing::truth_shown))]
pub fn truth_tree(truth: bool) -> Tree
    ensures { shown_tree result ≡ TruthValue truth }
{
    Tree::Truth(truth)
}

/// A whole number.
#[tactic(auto, using(asn_meaning_shapes::proofs::Showing::whole_shown))]
pub fn whole_tree(number: i128) -> Tree
    ensures { shown_tree result ≡ WholeNumber number }
{
    Tree::Whole(number)
}

/// A real.
#[tactic(auto, using(asn_meaning_shapes::proofs::Showing::real_shown))]
pub fn real_tree(real: RealValue) -> Tree
    ensures { shown_tree result ≡ RealNumber real.mantissa real.base real.exponent }
{
    Tree::Real(real)
}

/// A string of bits.
#[tactic(auto, using(asn_meaning_shapes::proofs::Showing::bits_shown))]
pub fn bits_tree(bits: List<bool>) -> Tree
    ensures { shown_tree result ≡ Bits bits }
{
    Tree::Bits(bits)
}

/// A string of octets.
#[tactic(auto, using(asn_meaning_shapes::proofs::Showing::octets_shown))]
pub fn octets_tree(octets: List<u8>) -> Tree
    ensures { shown_tree result ≡ Octets octets }
{
    Tree::Octets(octets)
}

/// A text.
#[tactic(auto, using(asn_meaning_shapes::proofs::Showing::text_shown))]
pub fn text_tree(text: Text) -> Tree
    ensures { shown_tree result ≡ Characters (chars text) }
{
    Tree::Texted(text)
}

/// An object identifier.
#[tactic(auto, using(asn_meaning_shapes::proofs::Showing::arcs_shown))]
pub fn identifier_tree(identifier: ObjectIdentifierValue) -> Tree
    ensures { shown_tree result ≡ ObjectIdentifierArcs (map arc_tree identifier.0) }
{
    Tree::Oid(identifier)
}

/// A value of which nothing is known.
#[tactic(auto, using(asn_meaning_shapes::proofs::Showing::opaque_shown))]
pub fn opaque_tree() -> Tree
    ensures { shown_tree result ≡ Opaque }
{
    Tree::Opaque
}

/// The number of an item of an enumeration.
#[tactic(auto, using(asn_meaning_shapes::proofs::Showing::item_shown))]
pub fn item_tree(number: i128) -> Tree
    ensures { shown_tree result ≡ ItemNumber number }
{
    Tree::Item(number)
}

/// A struct of these fields.
#[tactic(auto, using(asn_meaning_shapes::proofs::Showing::struct_shown))]
pub fn struct_tree(fields: List<Field>) -> Tree
    ensures { shown_tree result ≡ Struct (shown_fields fields) }
{
    Tree::Struct(fields)
}

/// A list of these elements.
#[tactic(auto, using(asn_meaning_shapes::proofs::Showing::elements_shown))]
pub fn elements_tree(elements: List<Tree>) -> Tree
    ensures { shown_tree result ≡ Elements (shown_trees elements) }
{
    Tree::Elements(elements)
}

/// An alternative.
#[tactic(auto, using(asn_meaning_shapes::proofs::Showing::alternative_shown))]
pub fn alternative_tree(name: Text, tree: Box<Tree>) -> Tree
    ensures { shown_tree result ≡ Alternative name (shown_tree tree) }
{
    Tree::Alternative(name, tree)
}

/// A member that is present.
#[tactic(auto, using(asn_meaning_shapes::proofs::Showing::field_shown))]
pub fn made_field(name: Text, tree: Tree) -> Field
    ensures { shown_field result ≡ (name, shown_tree tree) }
{
    Field { name, tree }
}
