//! The tree of a text: a node for each rule that stands in it.
//!
//! The packrat table grows these, and the readers above ask them for their children.

ghost use Rattle.std.specs.Prelude.{◌≡◌, ◌<◌, ℕ, List as Sequence, map, IfOk, IfSome, IsSome};
ghost use Rattle.asn_rules.specs.Children.{AllAre, Is, StandsBy};
ghost use Rattle.asn_rules.specs.Expression.{Expression as Row};
ghost use Rattle.asn_rules.specs.declared.node.Node.{size-Node};
ghost use Rattle.std.specs.Option.{option_copied};
ghost use Rattle.asn_rules.specs.Nodes.{all_among, child_of, children_of, first_child_of, nth_among, nth_child_of};

use asn_memory::{List, Mem};
use std::alloc::Global;

/// A rule that stands in a text, and the rules that it called there, in the order of the text.
///
/// It stands from the byte at `start` up to the one at `end`, which is no longer of it, both counted from 0.
pub struct Node {
    pub rule: u8,
    pub start: usize,
    pub end: usize,
    pub children: List<Node>,
}

impl Drop for Node {
    fn drop(self) {
        let Node {
            rule: _,
            start: _,
            end: _,
            children: _,
        } = self;
    }
}

impl Node {
    /// The first child of this rule, or None.
    pub fn child(&self, rule: u8) -> Option<&Node>
        ensures value { option_copied result ≡ child_of self.now rule }
        ensures within { IfSome result (λ child. size-Node child.now < size-Node self.now) }
        ensures stands { (table : Sequence Row) (text : Sequence ℕ) → StandsBy table text self.now → IfSome result (λ child. Is table text rule child.now) }
    {
        self.found(rule)
    }

    fn found(&self, rule: u8) -> Option<&Node>
        ensures value { option_copied result ≡ child_of self.now rule }
        ensures within { IfSome result (λ child. size-Node child.now < size-Node self.now) }
    {
        self.children
            .as_slice()
            .iter()
            .find(|child| child.rule == rule)
    }

    /// The first child, where there is one.
    pub fn first_child(&self) -> &Node
        requires { IsSome (first_child_of self.now) }
        ensures value { first_child_of self.now ≡ Some result.now }
        ensures within { size-Node result.now < size-Node self.now }
        ensures stands { (table : Sequence Row) (text : Sequence ℕ) → StandsBy table text self.now → StandsBy table text result.now }
    {
        self.first_found()
    }

    fn first_found(&self) -> &Node
        requires { IsSome (first_child_of self.now) }
        ensures value { first_child_of self.now ≡ Some result.now }
        ensures within { size-Node result.now < size-Node self.now }
    {
        match self.children.as_slice() {
            [first, ..] => first,
            [] => unreachable!(),
        }
    }

    /// The child of this rule that has `before` others of it before it, or None.
    pub fn nth_child(&self, rule: u8, before: usize) -> Option<&Node>
        ensures value { option_copied result ≡ nth_child_of self.now rule before }
        ensures stands { (table : Sequence Row) (text : Sequence ℕ) → StandsBy table text self.now → IfSome result (λ child. Is table text rule child.now) }
    {
        nth_of(self.children.as_slice(), rule, before)
    }

    /// The child of this rule that has `before` others of it before it, where there is one.
    pub fn the_nth_child(&self, rule: u8, before: usize) -> &Node
        requires { IsSome (nth_child_of self.now rule before) }
        ensures value { nth_child_of self.now rule before ≡ Some result.now }
        ensures stands { (table : Sequence Row) (text : Sequence ℕ) → StandsBy table text self.now → Is table text rule result.now }
    {
        match self.nth_child(rule, before) {
            Some(child) => child,
            None => unreachable!(),
        }
    }

    /// All children of this rule, in order. Err where memory is wanting.
    pub fn children_of(&self, alloc: Global, rule: u8) -> Mem<List<&Node>>
        ensures value { IfOk result (λ found. map (λ child. child.now) found ≡ children_of self.now rule) }
        ensures stands { (table : Sequence Row) (text : Sequence ℕ) → StandsBy table text self.now → AllAre table text rule (children_of self.now rule) }
    {
        all_of(alloc, self.children.as_slice(), rule)
    }

    /// The first child of this rule, where there is one.
    pub fn the_child(&self, rule: u8) -> &Node
        requires { IsSome (child_of self.now rule) }
        ensures value { child_of self.now rule ≡ Some result.now }
        ensures within { size-Node result.now < size-Node self.now }
        ensures stands { (table : Sequence Row) (text : Sequence ℕ) → StandsBy table text self.now → Is table text rule result.now }
    {
        match self.child(rule) {
            Some(child) => child,
            None => unreachable!(),
        }
    }
}

fn all_of(alloc: Global, nodes: &[Node], rule: u8) -> Mem<List<&Node>>
    ensures { IfOk result (λ found. map (λ node. node.now) found ≡ all_among nodes.now rule) }
{
    let mut found = List::new(alloc);
    for node in nodes {
        if node.rule == rule {
            found.add(node)?;
        }
    }
    Ok(found)
}

fn nth_of(nodes: &[Node], rule: u8, before: usize) -> Option<&Node>
    ensures { option_copied result ≡ nth_among nodes.now rule before }
{
    let mut left = before;
    for node in nodes {
        if node.rule == rule {
            if left == 0 {
                return Some(node);
            }
            left -= 1;
        }
    }
    None
}
