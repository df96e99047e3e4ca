//! What may stand before an item, and what stands behind it: blanks, comments, a word or a symbol.
//!
//! None of these takes memory. `TooDeep` comes exactly where the calls of the rule of blanks and comments nest deeper
//! than `depth`.

ghost use Rattle.std.specs.Prelude.{◌≡◌, ◌+◌, ◌≤◌, true, false, codes, length, drop, IfOk, IfErr, IsTrue, nat_eq};
ghost use Rattle.std.specs.List.{prefix_len, starts_with};
ghost use Rattle.std.specs.Str.{IsCharBoundary};
ghost use Rattle.asn_rules.specs.Expression.{bytes, word as whole_word};
ghost use Rattle.asn_rules_guards.specs.Lexical.{is_blank, stands};
ghost use Rattle.asn_text.specs.Input.{part_of};
ghost use Rattle.asn_text.specs.Part.{shown, part_from};
ghost use Rattle.asn_text.specs.Reads.{EndsAt, Finds, IsFaultOfFinding, IsGapFault, SkipsTo};
ghost use Rattle.asn_text.specs.inner.Parts.{sight_of};

use crate::fault::{ParseFault, ParserResult, fails};
use crate::input::Input;
use crate::readers::end_of;
use asn_rules::names::SP;
use asn_rules::{ByteClass, is_in_class, is_word_end};

/// The input behind its blanks: spaces, tabs, line feeds, carriage returns, vertical tabs and form feeds (X.680 12.1.6).
pub fn skip_ws<'a>(input: Input<'a>) -> Input<'a>
    ensures { let part = part_of input.entry in part_of result ≡ part_from (prefix_len is_blank (shown part)) part }
{
    input.slice_from(blanks(input.inner()))
}

/// How many blanks a text begins with.
fn blanks(text: &str) -> usize
    ensures count { result ≡ prefix_len is_blank text.now }
    ensures boundary { IsCharBoundary text.now result }
{
    let bytes = text.as_bytes();
    let mut count = 0;
    while count < bytes.len() {
        if !is_blank(bytes[count]) {
            return count;
        }
        count += 1;
    }
    count
}

fn is_blank(byte: u8) -> bool
    ensures { result ≡ is_blank byte }
{
    is_in_class(ByteClass::Blank, byte)
}

/// The input behind its blanks and comments. It never fails.
pub fn skip_ws_and_comments<'a>(input: Input<'a>, depth: usize) -> Result<Input<'a>, ParseFault<'a>>
    ensures ok { IfOk result (λ rest. SkipsTo depth (part_of input.entry) (part_of rest)) }
    ensures err { IfErr result (IsGapFault input.entry depth) }
{
    match gap_end(input, depth) {
        Ok(end) => Ok(input.slice_from(end)),
        Err(fault) => Err(fault),
    }
}

/// The whole word `text` behind blanks and comments: no letter, no digit, and no hyphen with one of them behind it
/// follows (X.680 12.38).
pub fn word<'a>(input: Input<'a>, depth: usize, text: &str) -> ParserResult<'a, &'a str>
    ensures ok { IfOk result (λ read. Finds (whole_word text.now) depth (part_of input.entry) (part_of read.0) read.1.now) }
    ensures err { IfErr result (IsFaultOfFinding (whole_word text.now) (codes "word") input.entry depth) }
{
    find(input, depth, text, Sought::Word, "word")
}

/// The bytes of `text` behind blanks and comments.
pub fn symbol<'a>(input: Input<'a>, depth: usize, text: &str) -> ParserResult<'a, &'a str>
    ensures ok { IfOk result (λ read. Finds (bytes text.now) depth (part_of input.entry) (part_of read.0) read.1.now) }
    ensures err { IfErr result (IsFaultOfFinding (bytes text.now) (codes "symbol") input.entry depth) }
{
    find(input, depth, text, Sought::Symbol, "symbol")
}

/// How a text is looked for: with the end of a word behind it, or as its bytes alone.
#[derive(Clone, Copy)]
enum Sought {
    Word,
    Symbol,
}

fn find<'a>(
    input: Input<'a>,
    depth: usize,
    text: &str,
    sought: Sought,
    name: &'static str,
) -> ParserResult<'a, &'a str>
    ensures ok { IfOk result (λ read. Finds (sight_of sought text.now) depth (part_of input.entry) (part_of read.0) read.1.now) }
    ensures err { IfErr result (IsFaultOfFinding (sight_of sought text.now) name.now input.entry depth) }
{
    match gap_end(input, depth) {
        Ok(start) => {
            let shown = input.inner();
            if stands_at(shown, start, text, sought) {
                let end = start + text.len();
                Ok((input.slice_from(end), &shown[start..end]))
            } else {
                Err(fails(input, name))
            }
        }
        Err(_) => Err(ParseFault::TooDeep),
    }
}

/// Where the blanks and comments end.
fn gap_end<'a>(input: Input<'a>, depth: usize) -> Result<usize, ParseFault<'a>>
    ensures ok { IfOk result (EndsAt (shown (part_of input.entry)) SP depth) }
    ensures boundary { IfOk result (IsCharBoundary (shown (part_of input.entry))) }
    ensures err { IfErr result (IsGapFault input.entry depth) }
{
    end_of(input, depth, SP, "sp")
}

/// Whether a text stands at a place, as a whole word or as its bytes.
fn stands_at(shown: &str, place: usize, text: &str, sought: Sought) -> bool
    requires { IsCharBoundary shown.now place }
    ensures stands { result ≡ stands (sight_of sought text.now) (drop place shown.now) }
    ensures within { IsTrue result → place + length text.now ≤ length shown.now }
    ensures boundary { IsTrue result → IsCharBoundary shown.now (place + length text.now) }
{
    if begins_with(shown, place, text) {
        match sought {
            Sought::Word => is_word_end(&shown.as_bytes()[place + text.len()..]),
            Sought::Symbol => true,
        }
    } else {
        false
    }
}

/// Whether the bytes of a text stand at a place.
fn begins_with(shown: &str, place: usize, text: &str) -> bool
    requires { IsCharBoundary shown.now place }
    ensures stands { result ≡ starts_with nat_eq (drop place shown.now) text.now }
    ensures within { result ≡ true → place + length text.now ≤ length shown.now }
    ensures boundary { result ≡ true → IsCharBoundary shown.now (place + length text.now) }
{
    shown.as_bytes()[place..].starts_with(text.as_bytes())
}
