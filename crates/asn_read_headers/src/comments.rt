//! The comments before a definition.

ghost use Rattle.asn_read_headers.specs.Comments.{comments_in, comments_of, joined_lines, with_line};
ghost use Rattle.asn_rules.specs.Children.{Is, StandsBy};
ghost use Rattle.asn_rules.specs.Whole.{whole_rules};
ghost use Rattle.asn_rules.specs.declared.names.TheConstants.{COMMENTS, ITEM_COMMENT};
ghost use Rattle.std.specs.Prelude.{◌≡◌, All, IfOk, Some};

use asn_memory::{List, Mem, Text};
use asn_read_nodes::children;
use asn_read_pieces::read_item_comment;
use asn_rules::{Node, names};
use std::alloc::Global;

/// The texts of the comments among the nodes.
#[tactic(auto, using(asn_read_nodes::proofs::Views::as_rule, asn_read_nodes::proofs::Equations::takes_next, asn_read_nodes::proofs::Equations::passes_next))]
fn read_each(alloc: Global, text: &[u8], nodes: &[Node]) -> Mem<List<Text>>
    requires { All (StandsBy whole_rules text.now) nodes.now }
    ensures { IfOk result (λ comments. comments_in text.now nodes.now ≡ Some comments) }
{
    let mut comments = List::new(alloc);
    for node in nodes {
        if node.rule == names::ITEM_COMMENT {
            comments.add(read_item_comment(alloc, text, node)?)?;
        }
    }
    Ok(comments)
}

/// The lines with a further one, behind a line feed.
fn with_line(alloc: Global, lines: Option<Text>, line: &str) -> Mem<Text>
    ensures { IfOk result (λ longer. with_line lines line.now ≡ Some longer) }
{
    match lines {
        Some(lines) => {
            let mut longer = lines;
            longer.push_str("\n")?;
            longer.push_str(line)?;
            Ok(longer)
        }
        None => Text::new(alloc, line),
    }
}

/// The lines joined by line feeds; None where there are none.
fn join(alloc: Global, lines: &[Text]) -> Mem<Option<Text>>
    ensures { IfOk result (λ joined. joined ≡ joined_lines lines.now) }
{
    let mut joined = None;
    for line in lines {
        joined = Some(with_line(alloc, joined, line.as_str())?);
    }
    Ok(joined)
}

/// The texts of the comments before a definition, joined by line feeds; empty without comments (X.680 12.6).
pub fn read_comments(alloc: Global, text: &[u8], node: &Node) -> Mem<Text>
    requires { Is whole_rules text.now COMMENTS node.now }
    ensures { IfOk result (λ comments. comments_of text.now node.now ≡ Some comments) }
{
    let comments = read_each(alloc, text, children(text, node))?;
    match join(alloc, comments.as_slice())? {
        Some(joined) => Ok(joined),
        None => Text::new(alloc, ""),
    }
}
