//! The bytes outside blanks and comments, in a list, and parts of them.

ghost use Rattle.std.specs.Prelude.{◌≡◌, ◌≤◌, length, drop, IfOk, true, Some};
ghost use Rattle.std.specs.Option.{is_some};
ghost use Rattle.asn_rules_guards.specs.Guards.{bare, before, behind, number};

use asn_memory::{List, Mem};
use asn_rules::{next_bare, whole_number};
use std::alloc::Global;

// What follows so many bytes.
fn behind(bytes: &[u8], count: usize) -> &[u8]
    requires { count ≤ length bytes.now }
    ensures { result.now ≡ drop count bytes.now }
{
    &bytes[count..]
}

/// The bytes outside blanks and comments.
pub(crate) fn bare_bytes(alloc: Global, bytes: &[u8]) -> Mem<List<u8>>
    ensures { IfOk result (λ found. found ≡ bare bytes.now) }
{
    let mut found = List::new(alloc);
    let mut rest = bytes;
    while let Some((byte, behind)) = next_bare(rest) {
        found.add(byte)?;
        rest = behind;
    }
    Ok(found)
}

/// What follows the first of this byte; nothing where there is none.
pub(crate) fn behind_byte(bytes: &[u8], mark: u8) -> &[u8]
    ensures { result.now ≡ behind mark bytes.now }
{
    let mut rest = bytes;
    while let [byte, ..] = rest {
        let further = behind(rest, 1);
        if *byte == mark {
            return further;
        }
        rest = further;
    }
    rest
}

/// The bytes before the first of this byte; all where there is none.
pub(crate) fn before_byte(alloc: Global, bytes: &[u8], mark: u8) -> Mem<List<u8>>
    ensures { IfOk result (λ found. found ≡ before mark bytes.now) }
{
    let mut found = List::new(alloc);
    for byte in bytes {
        if *byte == mark {
            return Ok(found);
        }
        found.add(*byte)?;
    }
    Ok(found)
}

/// The whole number that bytes outside blanks and comments spell.
#[tactic(auto, using(crate::proofs::BareNumbers::bare_number))]
pub(crate) fn bare_number(bytes: &[u8]) -> i128
    requires { is_some (number bytes.now) ≡ true }
    ensures { number bytes.now ≡ Some result }
{
    whole_number(bytes).unwrap()
}
