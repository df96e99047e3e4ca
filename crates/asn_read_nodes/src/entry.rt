//! The entries of all readers that build trees: the node of a rule where an input begins, and at an offset of a table.

ghost use Rattle.std.specs.Prelude.{◌≡◌, ◌≤◌, [], ◌∷◌, IfOk, IfErr};
ghost use Rattle.asn_rules.specs.Children.{Is};
ghost use Rattle.asn_rules.specs.Derives.{Derives};
ghost use Rattle.asn_rules.specs.Expression.{rule as rule_call};
ghost use Rattle.asn_rules.specs.Whole.{whole_rules};
ghost use Rattle.asn_rules.specs.declared.node.Node.TheViews.{out-Node};
ghost use Rattle.asn_text.specs.Fault.{FailsAt};
ghost use Rattle.asn_text.specs.Input.{part_of};
ghost use Rattle.asn_text.specs.Part.{shown};
ghost use Rattle.asn_read_nodes.specs.Reads.{StandsAt, IsFaultAt, Offers};

use asn_match::{MatchTable, derive_rule};
use asn_memory::Mem;
use asn_rules::{Grammar, MatchFault, Node, RuleId, ends_at_characters};
use asn_text::{ErrorKind, ErrorTree, Input, ParseFault, ParserResult};
use std::alloc::Global;

/// The fault of a reader of this name: a leaf with its input unchanged.
fn fails<'a>(input: Input<'a>, name: &'static str) -> ParseFault<'a>
    ensures { FailsAt input.entry name.now result }
{
    ParseFault::Fail(ErrorTree::leaf(input, ErrorKind::External(name)))
}

/// The node of the rule where the input begins, and the rest of the input where the node ends. Its offsets are in bytes
/// from the start of the input.
///
/// # Errors
///
/// Want of memory aside, `TooDeep` comes exactly where the height of the rule exceeds `depth`, and `Fail` exactly where it
/// does not and the rule fails: a leaf with the input unchanged and the name that was handed in.
pub fn read_node<'a>(
    alloc: Global,
    input: Input<'a>,
    depth: usize,
    rule: u8,
    name: &'static str,
) -> ParserResult<'a, Node>
    requires in_range { 1 ≤ rule }
    requires in_table { rule ≤ 190 }
    ensures ok { IfOk result (λ read. StandsAt rule depth (part_of input.entry) (part_of read.0) read.1) }
    ensures is { IfOk result (λ read. Is whole_rules (shown (part_of input.entry)) rule read.1) }
    ensures err { IfErr result (IsFaultAt rule name.now input.entry depth) }
{
    ends_at_characters();
    let text = input.inner();
    match derive_rule(alloc, Grammar::Whole, text, RuleId::new(rule), depth) {
        Ok(Some(node)) => Ok((input.slice_from(node.end), node)),
        Ok(None) => Err(fails(input, name)),
        Err(MatchFault::TooDeep) => Err(ParseFault::TooDeep),
        Err(MatchFault::OutOfMemory) => Err(ParseFault::OutOfMemory),
    }
}

/// The node of the rule at the offset, in bytes from the start of the text, by a table of the text in which it has ended.
pub fn node_at(alloc: Global, text: &str, table: &MatchTable, rule: u8, offset: usize) -> Mem<Node>
    requires in_range { 1 ≤ rule }
    requires in_table { rule ≤ 190 }
    requires offers { Offers text.now table.now rule offset }
    ensures derives { IfOk result (λ n. Derives whole_rules text.now (rule_call rule) offset (out-Node n).end (n ∷ [])) }
    ensures is { IfOk result (Is whole_rules text.now rule) }
{
    match asn_match::node_at(
        alloc,
        Grammar::Whole,
        text,
        table,
        RuleId::new(rule),
        offset,
    ) {
        Ok(node) => Ok(node),
        Err(fault) => Err(fault),
    }
}
