//! What stands at an offset, by looks at single bytes.

ghost use Rattle.std.specs.Prelude.{◌≡◌, ◌≤◌, ◌+◌, ◌-◌, nat_eq, drop, length, slice_range, IfErr, IfOk, IsTrue, OnOk};
ghost use Rattle.asn_rules.specs.declared.run.MatchFault.TheVariants.{OutOfMemory};
ghost use Rattle.std.specs.List.{starts_with};
ghost use Rattle.asn_rules_guards.specs.Allows.{allows};
ghost use Rattle.asn_rules_guards.specs.Lexical.{is_alnum, sight, stands, width, word_ends};
ghost use Rattle.asn_match.specs.Looks.{looks};
ghost use Rattle.asn_rules.specs.Runs.{seen};
ghost use Rattle.asn_rules.specs.inner.Answer.{at_height};

use asn_probe::{Probe, Steps};
use asn_rules::{ByteClass, Guard, MatchFault, Outcome, Sight, is_in_class};
use std::sync::ledger::Ledger;

// Whether the bytes stand at the offset.
fn starts_at<L: Ledger>(text: &Probe, bytes: &[u8], offset: usize, steps: &mut Steps<L>) -> bool
    requires { offset ≤ length text.now }
    ensures value { result ≡ starts_with nat_eq (drop offset text.now) bytes.now }
    ensures within { IsTrue result → offset + length bytes.now ≤ length text.now }
    ensures cost { steps.new ≤ steps.old + length bytes.now }
{
    match bytes {
        [] => true,
        [byte, rest @ ..] => {
            if offset == text.len() {
                return false;
            }
            text.byte(offset, steps) == *byte && starts_at(text, rest, offset + 1, steps)
        }
    }
}

fn is_alnum(byte: u8) -> bool
    ensures { result ≡ is_alnum byte }
{
    is_in_class(ByteClass::Alnum, byte)
}

// Whether no letter, digit or hyphen with one of them behind it stands at the offset.
fn is_word_end<L: Ledger>(text: &Probe, offset: usize, steps: &mut Steps<L>) -> bool
    requires { offset ≤ length text.now }
    ensures value { result ≡ word_ends (drop offset text.now) }
    ensures cost { steps.new ≤ steps.old + 2 }
{
    if offset == text.len() {
        return true;
    }
    let byte = text.byte(offset, steps);
    if offset + 1 == text.len() {
        return !is_alnum(byte);
    }
    if is_alnum(byte) {
        return false;
    }
    if byte != b'-' {
        return true;
    }
    !is_alnum(text.byte(offset + 1, steps))
}

// Whether what is looked for stands at the offset.
fn stands_at<L: Ledger>(text: &Probe, look: &Sight, offset: usize, steps: &mut Steps<L>) -> bool
    requires { offset ≤ length text.now }
    ensures value { result ≡ stands (sight look.now) (drop offset text.now) }
    ensures within { IsTrue result → offset + width (sight look.now) ≤ length text.now }
    ensures cost { steps.new ≤ steps.old + looks (sight look.now) }
{
    let end = text.len();
    match look {
        Sight::Bytes(bytes) => starts_at(text, bytes, offset, steps),
        Sight::Word(word) => {
            starts_at(text, word, offset, steps) && is_word_end(text, offset + word.len(), steps)
        }
        Sight::OneOf(class) => offset < end && is_in_class(*class, text.byte(offset, steps)),
    }
}

fn width_of(look: &Sight) -> usize
    ensures { result ≡ width (sight look.now) }
{
    match look {
        Sight::Bytes(bytes) => bytes.len(),
        Sight::Word(word) => word.len(),
        Sight::OneOf(_) => 1,
    }
}

// What is seen at the offset.
pub(crate) fn see_at<L: Ledger>(
    text: &Probe,
    look: &Sight,
    offset: usize,
    steps: &mut Steps<L>,
) -> Outcome
    requires { offset ≤ length text.now }
    ensures value { result ≡ at_height (seen text.now (sight look.now) offset) 0 }
    ensures cost { steps.new ≤ steps.old + looks (sight look.now) }
{
    let _end = text.len();
    if stands_at(text, look, offset, steps) {
        Outcome::End {
            offset: offset + width_of(look),
            height: 0,
        }
    } else {
        Outcome::Fail { height: 0 }
    }
}

// The bytes from the one offset to the other, at a look each, in place of what the buffer held.
fn take<L: Ledger>(
    text: &Probe,
    offset: usize,
    end: usize,
    taken: &mut Vec<u8>,
    steps: &mut Steps<L>,
) -> Result<(), MatchFault>
    requires start { offset ≤ end }
    requires end { end ≤ length text.now }
    ensures value { OnOk result (taken.new.items ≡ slice_range text.now offset end) }
    ensures fault { IfErr result (λ fault. fault ≡ OutOfMemory) }
    ensures cost { steps.new ≤ steps.old + length text.now }
{
    taken.clear();
    for at in offset..end {
        match taken.push(text.byte(at, steps)) {
            Ok(()) => {}
            Err(_) => return Err(MatchFault::OutOfMemory),
        }
    }
    Ok(())
}

// Whether the guard lets pass what was taken from the one offset to the other, of which each byte is looked at once.
pub(crate) fn is_allowed_at<L: Ledger>(
    guard: Guard,
    text: &Probe,
    offset: usize,
    end: usize,
    taken: &mut Vec<u8>,
    steps: &mut Steps<L>,
) -> Result<bool, MatchFault>
    requires start { offset ≤ end }
    requires end { end ≤ length text.now }
    ensures value { IfOk result (λ allowed. allowed ≡ allows guard (slice_range text.now offset end)) }
    ensures fault { IfErr result (λ fault. fault ≡ OutOfMemory) }
    ensures cost { steps.new ≤ steps.old + length text.now }
{
    take(text, offset, end, taken, steps)?;
    Ok(asn_rules_guards::is_allowed(guard, taken.as_slice()))
}
