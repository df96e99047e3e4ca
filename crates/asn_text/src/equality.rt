//! `==` of what errors are made of: true exactly where both tell the same.

ghost use Rattle.std.specs.Prelude.{◌≡◌, map};
ghost use Rattle.asn_text.specs.Seen.{rank, forked, tree_seen, trees_eq};

use crate::errors::{Context, ErrorKind, ErrorLeaf, ErrorLink, ErrorTree, MiscError, NomKind};
use crate::fault::ParseFault;

impl PartialEq for NomKind {
    ghost use Rattle.std.specs.Cmp.{partial_equiv_from_equiv};
    ghost use Rattle.std.specs.Prelude.{◌≡◌, ◌↔◌, IsTrue};
    ghost use Rattle.asn_text.specs.Seen.{nom_eq};
    ghost use Rattle.asn_text.specs.Deciding.{nom_eq_equivalence};

    ghost eq = { nom_eq };

    ghost laws = { partial_equiv_from_equiv nom_eq_equivalence };

    /// Whether both tell the same.
    fn eq(&self, other: &Self) -> bool
        ensures gives { result ≡ nom_eq self.now other.now }
        ensures same { IsTrue result ↔ (self.now ≡ other.now) }
    {
        rank(*self) == rank(*other)
    }
}

impl Eq for NomKind {
    ghost use Rattle.asn_text.specs.Deciding.{nom_eq_equivalence};

    ghost laws = { nom_eq_equivalence };
}

/// The place of a kind in their order.
fn rank(kind: NomKind) -> u8
    ensures { result ≡ rank kind }
{
    match kind {
        NomKind::Alt => 0,
        NomKind::Eof => 1,
        NomKind::Tag => 2,
        NomKind::TakeUntil => 3,
        NomKind::Other => 4,
    }
}

impl PartialEq for ErrorKind {
    ghost use Rattle.std.specs.Cmp.{partial_equiv_from_equiv};
    ghost use Rattle.std.specs.Prelude.{◌≡◌, ◌↔◌, IsTrue};
    ghost use Rattle.asn_text.specs.Seen.{kind_eq, kind_seen};
    ghost use Rattle.asn_text.specs.Deciding.{kind_eq_equivalence};

    ghost eq = { kind_eq };

    ghost laws = { partial_equiv_from_equiv kind_eq_equivalence };

    /// Whether both tell the same.
    fn eq(&self, other: &Self) -> bool
        ensures gives { result ≡ kind_eq self.now other.now }
        ensures same { IsTrue result ↔ (kind_seen self.now ≡ kind_seen other.now) }
    {
        match (self, other) {
            (ErrorKind::Nom(one), ErrorKind::Nom(another)) => one == another,
            (ErrorKind::External(one), ErrorKind::External(another)) => one == another,
            _ => false,
        }
    }
}

impl Eq for ErrorKind {
    ghost use Rattle.asn_text.specs.Deciding.{kind_eq_equivalence};

    ghost laws = { kind_eq_equivalence };
}

impl PartialEq for Context {
    ghost use Rattle.std.specs.Cmp.{partial_equiv_from_equiv};
    ghost use Rattle.std.specs.Prelude.{◌≡◌, ◌↔◌, IsTrue};
    ghost use Rattle.asn_text.specs.Seen.{context_eq, context_seen};
    ghost use Rattle.asn_text.specs.Deciding.{context_eq_equivalence};

    ghost eq = { context_eq };

    ghost laws = { partial_equiv_from_equiv context_eq_equivalence };

    /// Whether both tell the same.
    fn eq(&self, other: &Self) -> bool
        ensures gives { result ≡ context_eq self.now other.now }
        ensures same { IsTrue result ↔ (context_seen self.now ≡ context_seen other.now) }
    {
        match (self, other) {
            (Context::Name(one), Context::Name(another)) => one == another,
            (Context::ErrorKind(one), Context::ErrorKind(another)) => one == another,
            _ => false,
        }
    }
}

impl Eq for Context {
    ghost use Rattle.asn_text.specs.Deciding.{context_eq_equivalence};

    ghost laws = { context_eq_equivalence };
}

impl PartialEq for ErrorLink<'_> {
    ghost use Rattle.std.specs.Cmp.{partial_equiv_from_equiv};
    ghost use Rattle.std.specs.Prelude.{◌≡◌, ◌↔◌, IsTrue};
    ghost use Rattle.asn_text.specs.Seen.{link_eq, link_seen};
    ghost use Rattle.asn_text.specs.Deciding.{link_eq_equivalence};

    ghost eq = { link_eq };

    ghost laws = { partial_equiv_from_equiv link_eq_equivalence };

    /// Whether both tell the same.
    fn eq(&self, other: &Self) -> bool
        ensures gives { result ≡ link_eq self.now other.now }
        ensures same { IsTrue result ↔ (link_seen self.now ≡ link_seen other.now) }
    {
        self.input == other.input && self.context == other.context
    }
}

impl Eq for ErrorLink<'_> {
    ghost use Rattle.asn_text.specs.Deciding.{link_eq_equivalence};

    ghost laws = { link_eq_equivalence };
}

impl PartialEq for ErrorLeaf<'_> {
    ghost use Rattle.std.specs.Cmp.{partial_equiv_from_equiv};
    ghost use Rattle.std.specs.Prelude.{◌≡◌, ◌↔◌, IsTrue};
    ghost use Rattle.asn_text.specs.Seen.{leaf_eq, leaf_seen};
    ghost use Rattle.asn_text.specs.Deciding.{leaf_eq_equivalence};

    ghost eq = { leaf_eq };

    ghost laws = { partial_equiv_from_equiv leaf_eq_equivalence };

    /// Whether both tell the same.
    fn eq(&self, other: &Self) -> bool
        ensures gives { result ≡ leaf_eq self.now other.now }
        ensures same { IsTrue result ↔ (leaf_seen self.now ≡ leaf_seen other.now) }
    {
        self.input == other.input && self.kind == other.kind
    }
}

impl Eq for ErrorLeaf<'_> {
    ghost use Rattle.asn_text.specs.Deciding.{leaf_eq_equivalence};

    ghost laws = { leaf_eq_equivalence };
}

impl PartialEq for MiscError {
    ghost use Rattle.std.specs.Cmp.{partial_equiv_from_equiv};
    ghost use Rattle.std.specs.Prelude.{◌≡◌, ◌↔◌, IsTrue};
    ghost use Rattle.asn_text.specs.Seen.{misc_eq, misc_seen};
    ghost use Rattle.asn_text.specs.Deciding.{misc_eq_equivalence};

    ghost eq = { misc_eq };

    ghost laws = { partial_equiv_from_equiv misc_eq_equivalence };

    /// Whether both tell the same.
    fn eq(&self, other: &Self) -> bool
        ensures gives { result ≡ misc_eq self.now other.now }
        ensures same { IsTrue result ↔ (misc_seen self.now ≡ misc_seen other.now) }
    {
        self.0 == other.0
    }
}

impl Eq for MiscError {
    ghost use Rattle.asn_text.specs.Deciding.{misc_eq_equivalence};

    ghost laws = { misc_eq_equivalence };
}

impl PartialEq for ErrorTree<'_> {
    ghost use Rattle.std.specs.Cmp.{partial_equiv_from_equiv};
    ghost use Rattle.std.specs.Prelude.{◌≡◌, ◌↔◌, IsTrue};
    ghost use Rattle.asn_text.specs.Seen.{tree_eq, tree_seen};
    ghost use Rattle.asn_text.specs.Deciding.{tree_eq_equivalence};

    ghost eq = { tree_eq };

    ghost laws = { partial_equiv_from_equiv tree_eq_equivalence };

    /// Whether both tell the same.
    #[tactic(auto, using(crate::specs::Deciding::tree_eq_decides))]
    fn eq(&self, other: &Self) -> bool
        ensures gives { result ≡ tree_eq self.now other.now }
        ensures same { IsTrue result ↔ (tree_seen self.now ≡ tree_seen other.now) }
    {
        same_tree(self, other)
    }
}

impl Eq for ErrorTree<'_> {
    ghost use Rattle.asn_text.specs.Deciding.{tree_eq_equivalence};

    ghost laws = { tree_eq_equivalence };
}

impl PartialEq for ParseFault<'_> {
    ghost use Rattle.std.specs.Cmp.{partial_equiv_from_equiv};
    ghost use Rattle.std.specs.Prelude.{◌≡◌, ◌↔◌, IsTrue};
    ghost use Rattle.asn_text.specs.Seen.{fault_eq, fault_seen};
    ghost use Rattle.asn_text.specs.Deciding.{fault_eq_equivalence};

    ghost eq = { fault_eq };

    ghost laws = { partial_equiv_from_equiv fault_eq_equivalence };

    /// Whether both tell the same.
    #[tactic(auto, using(crate::specs::Deciding::fault_eq_decides))]
    fn eq(&self, other: &Self) -> bool
        ensures gives { result ≡ fault_eq self.now other.now }
        ensures same { IsTrue result ↔ (fault_seen self.now ≡ fault_seen other.now) }
    {
        match self {
            ParseFault::Fail(tree) => match other {
                ParseFault::Fail(another) => tree == another,
                ParseFault::TooDeep => false,
                ParseFault::OutOfMemory => false,
            },
            ParseFault::TooDeep => match other {
                ParseFault::Fail(_) => false,
                ParseFault::TooDeep => true,
                ParseFault::OutOfMemory => false,
            },
            ParseFault::OutOfMemory => match other {
                ParseFault::Fail(_) => false,
                ParseFault::TooDeep => false,
                ParseFault::OutOfMemory => true,
            },
        }
    }
}

impl Eq for ParseFault<'_> {
    ghost use Rattle.asn_text.specs.Deciding.{fault_eq_equivalence};

    ghost laws = { fault_eq_equivalence };
}

/// Whether two trees tell the same.
#[cycle(same)]
fn same_tree(one: &ErrorTree<'_>, another: &ErrorTree<'_>) -> bool
    ensures { result ≡ trees_eq (tree_seen one.now) (tree_seen another.now) }
{
    match one {
        ErrorTree::Leaf { input, kind } => match another {
            ErrorTree::Leaf {
                input: place,
                kind: reason,
            } => input == place && kind == reason,
            ErrorTree::Branch { .. } => false,
            ErrorTree::Fork { .. } => false,
        },
        ErrorTree::Branch { tip, links } => match another {
            ErrorTree::Leaf { .. } => false,
            ErrorTree::Branch {
                tip: root,
                links: others,
            } => same_tree(tip.get(), root.get()) && links.as_slice() == others.as_slice(),
            ErrorTree::Fork { .. } => false,
        },
        ErrorTree::Fork { branches } => match another {
            ErrorTree::Leaf { .. } => false,
            ErrorTree::Branch { .. } => false,
            ErrorTree::Fork { branches: others } => {
                same_trees(branches.as_slice(), others.as_slice())
            }
        },
    }
}

/// Whether two lists of trees tell the same, one by one.
#[cycle(same)]
fn same_trees(some: &[ErrorTree<'_>], others: &[ErrorTree<'_>]) -> bool
    ensures { result ≡ trees_eq (forked (map tree_seen some.now)) (forked (map tree_seen others.now)) }
{
    if some.len() != others.len() {
        return false;
    }
    let mut i = 0;
    while i < some.len() {
        if !same_tree(&some[i], &others[i]) {
            return false;
        }
        i += 1;
    }
    true
}
