//! Trees of errors, made by hand, since a reader by itself gives a leaf alone. `error links` has a branch, `error branches` a fork,
//! `error reports` what is reported of one, `error marks` what else readers answer.

use asn_memory::{Mem, Text};
use asn_text::{
    Context, ErrorKind, ErrorLink, ErrorTree, Input, LexerError, LexerErrorType, NomKind,
    OptionalMarker, ParseFault, ReportData,
};
use rows::{push_count, push_flag};
use std::alloc::Global;

fn leaf<'a>(text: &'a str, kind: ErrorKind) -> ErrorTree<'a> {
    ErrorTree::leaf(Input::from(text), kind)
}

fn eof<'a>(text: &'a str) -> ErrorTree<'a> {
    leaf(text, ErrorKind::Nom(NomKind::Eof))
}

/// A branch of two links over a failure in `b`.
fn branch<'a>(alloc: Global) -> Mem<ErrorTree<'a>> {
    let tree = ErrorTree::append(alloc, Input::from("c"), NomKind::Alt, eof("b"))?;
    ErrorTree::add_context(alloc, Input::from("d"), "outer", tree)
}

/// The fork of that branch and a failure in `e`.
fn fork<'a>(alloc: Global) -> Mem<ErrorTree<'a>> {
    branch(alloc)?.or(alloc, leaf("e", ErrorKind::External("e")))
}

// ---- how they are told

fn kind_word(kind: ErrorKind) -> &'static str {
    match kind {
        ErrorKind::External(name) => name,
        ErrorKind::Nom(NomKind::Alt) => "alternative",
        ErrorKind::Nom(NomKind::Eof) => "end",
        ErrorKind::Nom(NomKind::Tag) => "tag",
        ErrorKind::Nom(NomKind::TakeUntil) => "gap",
        ErrorKind::Nom(NomKind::Other) => "other",
    }
}

fn push_place(out: &mut Text, word: &str, input: &Input) -> Mem<()> {
    out.push_str(word)?;
    out.push_str(" in ")?;
    out.push_str(input.inner())
}

fn push_link(out: &mut Text, link: &ErrorLink) -> Mem<()> {
    out.push_str(", ")?;
    match link.context {
        Context::Name(name) => push_place(out, name, &link.input),
        Context::ErrorKind(kind) => push_place(out, kind_word(kind), &link.input),
    }
}

fn push_links(out: &mut Text, links: &[ErrorLink]) -> Mem<()> {
    for link in links {
        push_link(out, link)?;
    }
    Ok(())
}

#[cycle(errors)]
fn push_tree(out: &mut Text, tree: &ErrorTree) -> Mem<()> {
    match tree {
        ErrorTree::Leaf { input, kind } => push_place(out, kind_word(*kind), input),
        ErrorTree::Branch { tip, links } => {
            push_tree(out, tip.get())?;
            push_links(out, links.as_slice())
        }
        ErrorTree::Fork { branches } => push_branches(out, branches.as_slice()),
    }
}

#[cycle(errors)]
fn push_branches(out: &mut Text, branches: &[ErrorTree]) -> Mem<()> {
    for branch in branches {
        push_tree(out, branch)?;
        out.push_str("; ")?;
    }
    Ok(())
}

/// The tree, whether it failed at a text's end, and where it failed.
fn told_tree<'a>(alloc: Global, tree: ErrorTree<'a>) -> Mem<Text> {
    let mut out = Text::new(alloc, "")?;
    push_tree(&mut out, &tree)?;
    push_flag(&mut out, "; at the end", tree.is_eof_error())?;
    push_place(&mut out, "; failed", &tree.into_input())?;
    Ok(out)
}

// ---- rows

fn links(alloc: Global) -> Mem<Text> {
    told_tree(alloc, branch(alloc)?)
}

/// A fork under alternatives is itself, and under a tag it is not.
fn push_appended<'a>(alloc: Global, out: &mut Text, kind: NomKind) -> Mem<()> {
    let tree = ErrorTree::append(alloc, Input::from("x"), kind, fork(alloc)?)?;
    let same = tree == fork(alloc)?;
    push_flag(out, kind_word(ErrorKind::Nom(kind)), same)?;
    push_flag(out, " at the end", tree.is_eof_error())?;
    out.push_str("; ")
}

fn branches(alloc: Global) -> Mem<Text> {
    let mut out = Text::new(alloc, "same under ")?;
    push_appended(alloc, &mut out, NomKind::Alt)?;
    push_appended(alloc, &mut out, NomKind::Tag)?;
    let both = told_tree(alloc, fork(alloc)?.or(alloc, eof("f"))?)?;
    out.push_str(both.as_str())?;
    Ok(out)
}

fn push_report(alloc: Global, out: &mut Text, report: &ReportData) -> Mem<()> {
    out.push_str(report.reason)?;
    push_count(alloc, out, " in line ", report.line)?;
    push_count(alloc, out, " column ", report.column)?;
    push_count(alloc, out, " offset ", report.offset)?;
    push_count(alloc, out, ", from line ", report.context_start_line)?;
    push_count(alloc, out, " offset ", report.context_start_offset)?;
    push_flag(out, ", at the end", report.unexpected_eof)
}

fn same_error(report: ReportData, other: ReportData) -> bool {
    let error = LexerErrorType::MatchingError(report);
    LexerError { kind: error }.kind == LexerErrorType::MatchingError(other)
}

fn reports(alloc: Global) -> Mem<Text> {
    let mut out = Text::new(alloc, "")?;
    push_report(alloc, &mut out, &ReportData::from(fork(alloc)?))?;
    out.push_str("; ")?;
    let empty = ReportData::from(leaf("", ErrorKind::External("sp")));
    push_report(alloc, &mut out, &empty)?;
    let same = same_error(
        ReportData::from(fork(alloc)?),
        ReportData::from(fork(alloc)?),
    );
    push_flag(&mut out, "; same", same)?;
    Ok(out)
}

fn marks(alloc: Global) -> Mem<Text> {
    let mut out = Text::new(alloc, "same")?;
    let mark = OptionalMarker::from("OPTIONAL") == OptionalMarker();
    push_flag(&mut out, " mark", mark)?;
    let fault = ParseFault::Fail(eof("a")) == ParseFault::Fail(eof("a"));
    push_flag(&mut out, ", fault", fault)?;
    let other = ParseFault::TooDeep == ParseFault::OutOfMemory;
    push_flag(&mut out, ", other fault", other)?;
    Ok(out)
}

/// The line of a row of these fields; None where it is none of these.
pub(crate) fn line_of(alloc: Global, fields: &[Text]) -> Option<Mem<Text>> {
    match fields {
        [kind] => match kind.as_str() {
            "error links" => Some(links(alloc)),
            "error branches" => Some(branches(alloc)),
            "error reports" => Some(reports(alloc)),
            "error marks" => Some(marks(alloc)),
            _ => None,
        },
        _ => None,
    }
}
