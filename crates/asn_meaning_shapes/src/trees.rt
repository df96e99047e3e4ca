//! Value trees: what values denote, whatever notation they are written in.

ghost use Rattle.asn_meaning_shapes.specs.Trees.{shown_fields, shown_tree, shown_trees, shown_view};
ghost use Rattle.asn_meaning.specs.ValueTrees.{field_named};
ghost use Rattle.std.specs.Prelude.{◌≡◌, MatchOption, None, Some};

use asn_memory::{Box, List, Text};
use asn_tree::{ObjectIdentifierArc, ObjectIdentifierValue, RealValue};

/// A value tree.
#[cycle(tree)]
pub enum Tree {
    /// The value of NULL (X.680 24).
    Null,
    /// A truth value (X.680 18).
    Truth(bool),
    /// A whole number (X.680 19).
    Whole(i128),
    /// The number of an item of an enumeration (X.680 20).
    Item(i128),
    /// A real by its mantissa, base and exponent (X.680 21).
    Real(RealValue),
    /// A string of bits, from the first (X.680 22).
    Bits(List<bool>),
    /// A string of octets (X.680 23).
    Octets(List<u8>),
    /// A text (X.680 41).
    Texted(Text),
    /// An object identifier by its arcs: an arc stands for its number where it has one, else for its name (X.680 32).
    Oid(ObjectIdentifierValue),
    /// The members that are present, of a SEQUENCE or SET: of several fields of one name the first stands (X.680 25, 27).
    Struct(Members),
    /// The elements of a SEQUENCE OF or SET OF, in order (X.680 26, 28).
    Elements(List<Tree>),
    /// An alternative of a CHOICE by its name (X.680 29).
    Alternative(Text, Box<Tree>),
    /// A value of which nothing is known.
    Opaque,
}

impl Drop for Tree {
    #[cycle(tree)]
    fn drop(self) {
        match self {
            Tree::Null => (),
            Tree::Truth(_) => (),
            Tree::Whole(_) => (),
            Tree::Item(_) => (),
            Tree::Real(_) => (),
            Tree::Bits(_) => (),
            Tree::Octets(_) => (),
            Tree::Texted(_) => (),
            Tree::Oid(_) => (),
            Tree::Struct(_) => (),
            Tree::Elements(_) => (),
            Tree::Alternative(_, _) => (),
            Tree::Opaque => (),
        }
    }
}

/// The members that are present: a map in which each name has the tree of its first field.
pub type Members = List<Field>;

/// A member that is present.
#[cycle(tree)]
pub struct Field {
    pub name: Text,
    pub tree: Tree,
}

impl Drop for Field {
    #[cycle(tree)]
    fn drop(self) {
        let Field { name: _, tree: _ } = self;
    }
}

/// One level of a value tree.
#[derive(Clone, Copy)]
pub enum View<'t> {
    Null,
    Truth(bool),
    Whole(i128),
    Item(i128),
    Real(RealValue),
    Bits(&'t [bool]),
    Octets(&'t [u8]),
    Text(&'t Text),
    Arcs(&'t [ObjectIdentifierArc]),
    Struct(&'t [Field]),
    Elements(&'t [Tree]),
    Alternative(&'t Text, &'t Tree),
    Opaque,
}

impl Tree {
    /// The tree's first level.
    #[tactic(auto, using(crate::proofs::Showing::null_shown, crate::proofs::Showing::truth_shown, crate::proofs::Showing::whole_shown, crate::proofs::Showing::item_shown, crate::proofs::Showing::real_shown, crate::proofs::Showing::bits_shown, crate::proofs::Showing::octets_shown, crate::proofs::Showing::text_shown, crate::proofs::Showing::arcs_shown, crate::proofs::Showing::struct_shown, crate::proofs::Showing::elements_shown, crate::proofs::Showing::alternative_shown, crate::proofs::Showing::opaque_shown))]
    pub fn view(&self) -> View<'_>
        ensures { shown_view result ≡ shown_tree self.now }
    {
        match self {
            Tree::Null => View::Null,
            Tree::Truth(truth) => View::Truth(*truth),
            Tree::Whole(number) => View::Whole(*number),
            Tree::Item(number) => View::Item(*number),
            Tree::Real(real) => View::Real(*real),
            Tree::Bits(bits) => View::Bits(bits.as_slice()),
            Tree::Octets(octets) => View::Octets(octets.as_slice()),
            Tree::Texted(text) => View::Text(text),
            Tree::Oid(identifier) => View::Arcs(identifier.0.as_slice()),
            Tree::Struct(fields) => View::Struct(fields.as_slice()),
            Tree::Elements(trees) => View::Elements(trees.as_slice()),
            Tree::Alternative(name, tree) => View::Alternative(name, tree.get()),
            Tree::Opaque => View::Opaque,
        }
    }
}

/// The tree of the first field of the name.
pub fn find_field<'t>(fields: &'t [Field], name: &str) -> Option<&'t Tree>
    ensures { MatchOption result (field_named (shown_fields fields.now) name.now ≡ None) (λ tree. field_named (shown_fields fields.now) name.now ≡ Some (shown_tree tree.now)) }
{
    for field in fields {
        if field.name.as_str() == name {
            return Some(&field.tree);
        }
    }
    None
}
