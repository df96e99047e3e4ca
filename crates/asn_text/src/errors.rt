//! Why a reader fails: a tree of places and reasons, as parser combinators keep it.

ghost use Rattle.std.specs.Prelude.{◌≡◌, ◌++◌, Some, IfOk, option_map};
ghost use Rattle.asn_text.specs.Errors.{leaf, linked, appended, fork, branches_of, input_of, first_leaf, last_leaf, is_eof, reason_of, ReportsLeaf};

use crate::at_least_one::AtLeastOne;
use crate::input::Input;
use crate::report::ReportData;
use asn_memory::{Box, Mem};
use std::alloc::Global;
use thiserror::Error;

/// The kinds of failures that combinators tell.
#[derive(Clone, Copy, Debug)]
pub enum NomKind {
    Alt,
    Eof,
    Tag,
    TakeUntil,
    Other,
}

/// Why a place fails. Readers themselves give `External` with the name of their rule.
#[derive(Clone, Copy, Debug)]
pub enum ErrorKind {
    Nom(NomKind),
    External(&'static str),
}

/// What a reader was at when a part of it failed.
#[derive(Clone, Copy, Debug)]
pub enum Context {
    Name(&'static str),
    ErrorKind(ErrorKind),
}

/// A step on the way to a failure: where a reader began, and what it was at.
#[derive(Clone, Copy, Debug)]
pub struct ErrorLink<'a> {
    pub input: Input<'a>,
    pub context: Context,
}

/// A failure by itself: the place and the reason.
#[derive(Clone, Copy, Debug)]
pub struct ErrorLeaf<'a> {
    pub input: Input<'a>,
    pub kind: ErrorKind,
}

/// An error that is a text alone.
#[derive(Clone, Copy, Debug, Error)]
#[error("{0}")]
pub struct MiscError(pub &'static str);

/// The links of a branch, the innermost first: at least one.
pub type ErrorLinks<'a> = AtLeastOne<ErrorLink<'a>>;

/// The branches of a fork, in the order in which they were tried: at least one.
pub type ErrorBranches<'a> = AtLeastOne<ErrorTree<'a>>;

/// Why a reader fails.
#[derive(Drop)]
pub enum ErrorTree<'a> {
    /// A place and a reason.
    Leaf {
        input: Input<'a>,
        kind: ErrorKind,
    },
    /// A failure, and the readers that it failed, the innermost first.
    Branch {
        tip: Box<ErrorTree<'a>>,
        links: ErrorLinks<'a>,
    },
    /// The failures of alternatives.
    Fork {
        branches: ErrorBranches<'a>,
    },
}

impl<'a> ErrorTree<'a> {
    /// The failure of a reader by itself.
    pub fn leaf(input: Input<'a>, kind: ErrorKind) -> ErrorTree<'a>
        ensures { result ≡ leaf input.entry kind }
    {
        ErrorTree::Leaf { input, kind }
    }

    /// The tree with one more link, which tells that a combinator of this kind began at `input`. A fork under `Alt`
    /// is itself; a branch gets the link behind its others; any other tree becomes the tip of a branch.
    pub fn append(
        alloc: Global,
        input: Input<'a>,
        kind: NomKind,
        other: ErrorTree<'a>,
    ) -> Mem<ErrorTree<'a>>
        ensures { IfOk result (λ tree.
            tree ≡ appended other.entry (record { input = input.entry; context = Context.ErrorKind (ErrorKind.Nom kind) }) kind) }
    {
        match (kind, other) {
            (NomKind::Alt, ErrorTree::Fork { branches }) => Ok(ErrorTree::Fork { branches }),
            (kind, other) => {
                let context = Context::ErrorKind(ErrorKind::Nom(kind));
                with_link(alloc, other, ErrorLink { input, context })
            }
        }
    }

    /// The tree with one more link, which tells that what is called `context` began at `input`. A branch gets the link
    /// behind its others; any other tree becomes the tip of a branch.
    pub fn add_context(
        alloc: Global,
        input: Input<'a>,
        context: &'static str,
        other: ErrorTree<'a>,
    ) -> Mem<ErrorTree<'a>>
        ensures { IfOk result (λ tree.
            tree ≡ linked other.entry (record { input = input.entry; context = Context.Name context.entry })) }
    {
        let context = Context::Name(context);
        with_link(alloc, other, ErrorLink { input, context })
    }

    /// The fork of this tree's branches and then the other's. A tree that is no fork counts as one branch.
    pub fn or(self, alloc: Global, other: ErrorTree<'a>) -> Mem<ErrorTree<'a>>
        ensures { IfOk result (λ tree. tree ≡ fork (branches_of self.entry ++ branches_of other.entry)) }
    {
        let first = into_branches(alloc, self)?;
        let second = into_branches(alloc, other)?;
        let branches = first.followed_by(second)?;
        Ok(ErrorTree::Fork { branches })
    }

    /// The input of a leaf, of a branch's last link, of a fork's last branch.
    pub fn into_input(self) -> Input<'a>
        ensures { Some result ≡ input_of self.entry }
    {
        last_input(&self)
    }

    /// Whether the leaf, the tip of a branch or the last branch of a fork failed at the text's end: its kind is
    /// `Nom(Eof)`.
    pub fn is_eof_error(&self) -> bool
        ensures { option_map (λ failed. is_eof failed.kind) (last_leaf self.now) ≡ Some result }
    {
        matches!(find_last_leaf(self).kind, ErrorKind::Nom(NomKind::Eof))
    }
}

/// The tree with one more link.
fn with_link<'a>(alloc: Global, tree: ErrorTree<'a>, link: ErrorLink<'a>) -> Mem<ErrorTree<'a>>
    ensures { IfOk result (λ more. more ≡ linked tree.entry link.entry) }
{
    match tree {
        ErrorTree::Branch { tip, links } => {
            let links = links.with(link)?;
            Ok(ErrorTree::Branch { tip, links })
        }
        tree => {
            let tip = Box::new(alloc, tree)?;
            let links = AtLeastOne::of(alloc, link)?;
            Ok(ErrorTree::Branch { tip, links })
        }
    }
}

/// The branches of a fork; any other tree is one branch.
fn into_branches<'a>(alloc: Global, tree: ErrorTree<'a>) -> Mem<ErrorBranches<'a>>
    ensures { IfOk result (λ branches. branches ≡ branches_of tree.entry) }
{
    match tree {
        ErrorTree::Fork { branches } => Ok(branches),
        tree => AtLeastOne::of(alloc, tree),
    }
}

/// The input that `into_input` gives.
fn last_input<'a>(tree: &ErrorTree<'a>) -> Input<'a>
    ensures { Some result ≡ input_of tree.now }
{
    match tree {
        ErrorTree::Leaf { input, .. } => *input,
        ErrorTree::Branch { links, .. } => {
            let links = links.as_slice();
            links[links.len() - 1].input
        }
        ErrorTree::Fork { branches } => {
            let branches = branches.as_slice();
            last_input(&branches[branches.len() - 1])
        }
    }
}

/// The leaf by the tips of branches and the last branches of forks.
fn find_last_leaf<'a>(tree: &ErrorTree<'a>) -> ErrorLeaf<'a>
    ensures { Some result ≡ last_leaf tree.now }
{
    match tree {
        ErrorTree::Leaf { input, kind } => ErrorLeaf {
            input: *input,
            kind: *kind,
        },
        ErrorTree::Branch { tip, .. } => find_last_leaf(tip.get()),
        ErrorTree::Fork { branches } => {
            let branches = branches.as_slice();
            find_last_leaf(&branches[branches.len() - 1])
        }
    }
}

/// The leaf by the tips of branches and the first branches of forks.
pub(crate) fn find_first_leaf<'a>(tree: &ErrorTree<'a>) -> ErrorLeaf<'a>
    ensures { Some result ≡ first_leaf tree.now }
{
    match tree {
        ErrorTree::Leaf { input, kind } => ErrorLeaf {
            input: *input,
            kind: *kind,
        },
        ErrorTree::Branch { tip, .. } => find_first_leaf(tip.get()),
        ErrorTree::Fork { branches } => find_first_leaf(&branches.as_slice()[0]),
    }
}

impl<'a> From<ErrorTree<'a>> for ReportData {
    ghost use Rattle.std.specs.Prelude.{MatchOption};
    ghost use Rattle.asn_text.specs.Errors.{first_leaf, ReportsLeaf};

    ghost from_gives = { λ tree report. MatchOption (first_leaf tree) ⊥ (λ failed. ReportsLeaf report failed) };

    /// The place of the leaf, the tip of a branch or the first branch of a fork, in its context, with the text of
    /// `External` as the reason, or `parse failed`. Whether an unexpected end was found is whether no text is left there.
    fn from(tree: ErrorTree<'a>) -> ReportData {
        report_leaf(&find_first_leaf(&tree))
    }
}

/// The report of a leaf.
fn report_leaf(failed: &ErrorLeaf<'_>) -> ReportData
    ensures { ReportsLeaf result failed.now }
{
    let input = &failed.input;
    ReportData {
        context_start_line: input.context_start_line(),
        context_start_offset: input.context_start_offset(),
        line: input.line(),
        offset: input.offset(),
        column: input.column(),
        reason: reason_of(failed.kind),
        unexpected_eof: input.is_empty(),
    }
}

/// The reason that a kind tells.
fn reason_of(kind: ErrorKind) -> &'static str
    ensures { result.now ≡ reason_of kind }
{
    match kind {
        ErrorKind::Nom(_) => "parse failed",
        ErrorKind::External(reason) => reason,
    }
}
