//! Readers of whole numbers (X.680 12.8 and 19.1), for the sizes that a tree keeps them in.
//!
//! Blanks and comments may stand before a number, and between its sign and its digits. As the other lexical readers,
//! these take no memory, answer `TooDeep` exactly where the calls of their rule nest deeper than `depth`, and `Fail`
//! exactly where they do not and the rule fails, as it does for a number that the type does not hold.

ghost use Rattle.std.specs.Prelude.{◌≡◌, ◌≤◌, true, Some, codes, IfOk, IfErr, take};
ghost use Rattle.std.specs.Option.{is_some};
ghost use Rattle.asn_rules_guards.specs.Guards.{bare, natural, integer};
ghost use Rattle.asn_text.specs.Input.{part_of};
ghost use Rattle.asn_text.specs.Part.{shown};
ghost use Rattle.asn_text.specs.Reads.{Reads, IsFaultOf, IsNatural, IsWhole};
ghost use Rattle.asn_text.specs.inner.Parts.{IsTaken};

use crate::fault::ParserResult;
use crate::input::Input;
use crate::readers::end_of;
use asn_rules::names::{NUMBER_I32, NUMBER_I128, NUMBER_U64, NUMBER_U128};
use asn_rules::{natural_number, whole_number};

/// A number from 0 to 2^64 - 1.
#[tactic(auto, unfolding(asn_rules::specs::Whole::whole_rules, asn_rules::specs::LexicalRules::lexical_rules_before))]
pub fn number_u64<'a>(input: Input<'a>, depth: usize) -> ParserResult<'a, u64>
    ensures ok { IfOk result (λ read. Reads NUMBER_U64 depth (part_of input.entry) (part_of read.0) (IsNatural 64 (shown (part_of input.entry)) read.1)) }
    ensures err { IfErr result (IsFaultOf NUMBER_U64 (codes "number_u64") input.entry depth) }
{
    match taken(input, depth, NUMBER_U64, "number_u64") {
        Ok((rest, text)) => Ok((rest, u64_of(text))),
        Err(fault) => Err(fault),
    }
}

/// A number from 0 to 2^128 - 1.
#[tactic(auto, unfolding(asn_rules::specs::Whole::whole_rules, asn_rules::specs::LexicalRules::lexical_rules_before))]
pub fn number_u128<'a>(input: Input<'a>, depth: usize) -> ParserResult<'a, u128>
    ensures ok { IfOk result (λ read. Reads NUMBER_U128 depth (part_of input.entry) (part_of read.0) (IsNatural 128 (shown (part_of input.entry)) read.1)) }
    ensures err { IfErr result (IsFaultOf NUMBER_U128 (codes "number_u128") input.entry depth) }
{
    match taken(input, depth, NUMBER_U128, "number_u128") {
        Ok((rest, text)) => Ok((rest, u128_of(text))),
        Err(fault) => Err(fault),
    }
}

/// A number from -2^127 to 2^127 - 1.
#[tactic(auto, unfolding(asn_rules::specs::Whole::whole_rules, asn_rules::specs::LexicalRules::lexical_rules_before))]
pub fn number_i128<'a>(input: Input<'a>, depth: usize) -> ParserResult<'a, i128>
    ensures ok { IfOk result (λ read. Reads NUMBER_I128 depth (part_of input.entry) (part_of read.0) (IsWhole 127 (shown (part_of input.entry)) read.1)) }
    ensures err { IfErr result (IsFaultOf NUMBER_I128 (codes "number_i128") input.entry depth) }
{
    match taken(input, depth, NUMBER_I128, "number_i128") {
        Ok((rest, text)) => Ok((rest, i128_of(text))),
        Err(fault) => Err(fault),
    }
}

/// A number from -2^31 to 2^31 - 1.
#[tactic(auto, unfolding(asn_rules::specs::Whole::whole_rules, asn_rules::specs::LexicalRules::lexical_rules_before))]
pub fn number_i32<'a>(input: Input<'a>, depth: usize) -> ParserResult<'a, i32>
    ensures ok { IfOk result (λ read. Reads NUMBER_I32 depth (part_of input.entry) (part_of read.0) (IsWhole 31 (shown (part_of input.entry)) read.1)) }
    ensures err { IfErr result (IsFaultOf NUMBER_I32 (codes "number_i32") input.entry depth) }
{
    match taken(input, depth, NUMBER_I32, "number_i32") {
        Ok((rest, text)) => Ok((rest, i32_of(text))),
        Err(fault) => Err(fault),
    }
}

/// The bytes that a rule takes, blanks and comments included.
fn taken<'a>(
    input: Input<'a>,
    depth: usize,
    rule: u8,
    name: &'static str,
) -> ParserResult<'a, &'a str>
    requires in_range { 1 ≤ rule }
    requires in_table { rule ≤ 190 }
    ensures ok { IfOk result (λ read. Reads rule depth (part_of input.entry) (part_of read.0) (IsTaken (shown (part_of input.entry)) rule read.1.now)) }
    ensures err { IfErr result (IsFaultOf rule name.now input.entry depth) }
{
    match end_of(input, depth, rule, name) {
        Ok(end) => Ok((input.slice_from(end), input.slice_to(end).into_inner())),
        Err(fault) => Err(fault),
    }
}

#[tactic(auto, using(asn_rules_guards::proofs::Numbers::natural_below))]
fn u64_of(text: &str) -> u64
    requires { is_some (natural 64 (bare text.now)) ≡ true }
    ensures { natural 64 (bare text.now) ≡ Some result }
{
    match natural_number(text.as_bytes()) {
        Some(number) => number as u64,
        None => 0,
    }
}

fn u128_of(text: &str) -> u128
    requires { is_some (natural 128 (bare text.now)) ≡ true }
    ensures { natural 128 (bare text.now) ≡ Some result }
{
    match natural_number(text.as_bytes()) {
        Some(number) => number,
        None => 0,
    }
}

fn i128_of(text: &str) -> i128
    requires { is_some (integer 127 (bare text.now)) ≡ true }
    ensures { integer 127 (bare text.now) ≡ Some result }
{
    match whole_number(text.as_bytes()) {
        Some(number) => number,
        None => 0,
    }
}

#[tactic(auto, using(asn_rules_guards::proofs::Numbers::integer_narrowed))]
fn i32_of(text: &str) -> i32
    requires { is_some (integer 31 (bare text.now)) ≡ true }
    ensures { integer 31 (bare text.now) ≡ Some result }
{
    match whole_number(text.as_bytes()) {
        Some(number) => number as i32,
        None => 0,
    }
}
