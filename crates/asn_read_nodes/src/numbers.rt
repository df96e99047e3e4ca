//! Whole numbers (X.680 12.8, 19.1), for the sizes that a tree keeps them in.

ghost use Rattle.asn_read_nodes.specs.Parts.{integer_of, natural_of, number_of, taken};
ghost use Rattle.asn_rules.specs.Children.{Is, StandsBy};
ghost use Rattle.asn_rules.specs.Whole.{whole_rules};
ghost use Rattle.asn_rules.specs.declared.names.TheConstants.{INTEGER_VALUE, NUMBER_I32, NUMBER_I128, NUMBER_U64, NUMBER_U128};
ghost use Rattle.asn_rules_guards.specs.Guards.{bare, integer, natural};
ghost use Rattle.std.specs.Option.{is_some};
ghost use Rattle.std.specs.Prelude.{◌≡◌, true, Some};

use asn_rules::{Node, names, natural_number, whole_number};

/// The bytes of a node.
pub(crate) fn bytes_of<'t>(text: &'t [u8], node: &Node) -> &'t [u8]
    requires { StandsBy whole_rules text.now node.now }
    ensures { result.now ≡ taken text.now node.now }
{
    &text[node.start..node.end]
}

/// A number from -2^127 to 2^127 - 1.
#[tactic(auto, using(crate::proofs::Views::i128_fits))]
pub fn read_i128(text: &[u8], node: &Node) -> i128
    requires { Is whole_rules text.now NUMBER_I128 node.now }
    ensures { integer_of 127 text.now node.now ≡ Some result }
{
    whole_number(bytes_of(text, node)).unwrap()
}

#[tactic(auto, using(asn_rules_guards::proofs::Numbers::integer_narrowed))]
fn i32_of(digits: &[u8]) -> i32
    requires { is_some (integer 31 (bare digits.now)) ≡ true }
    ensures { integer 31 (bare digits.now) ≡ Some result }
{
    match whole_number(digits) {
        Some(number) => number as i32,
        None => unreachable!(),
    }
}

/// A number from -2^31 to 2^31 - 1.
#[tactic(auto, using(crate::proofs::Views::i32_fits))]
pub fn read_i32(text: &[u8], node: &Node) -> i32
    requires { Is whole_rules text.now NUMBER_I32 node.now }
    ensures { integer_of 31 text.now node.now ≡ Some result }
{
    i32_of(bytes_of(text, node))
}

#[tactic(auto, using(asn_rules_guards::proofs::Numbers::natural_below))]
fn u64_of(digits: &[u8]) -> u64
    requires { is_some (natural 64 (bare digits.now)) ≡ true }
    ensures { natural 64 (bare digits.now) ≡ Some result }
{
    match natural_number(digits) {
        Some(number) => number as u64,
        None => unreachable!(),
    }
}

/// A number from 0 to 2^64 - 1.
#[tactic(auto, using(crate::proofs::Views::u64_fits))]
pub fn read_u64(text: &[u8], node: &Node) -> u64
    requires { Is whole_rules text.now NUMBER_U64 node.now }
    ensures { natural_of 64 text.now node.now ≡ Some result }
{
    u64_of(bytes_of(text, node))
}

/// A number from 0 to 2^128 - 1.
#[tactic(auto, using(crate::proofs::Views::u128_fits))]
pub fn read_u128(text: &[u8], node: &Node) -> u128
    requires { Is whole_rules text.now NUMBER_U128 node.now }
    ensures { natural_of 128 text.now node.now ≡ Some result }
{
    natural_number(bytes_of(text, node)).unwrap()
}

/// The number that a value of INTEGER is (X.680 19.9).
#[tactic(auto, using(crate::proofs::Views::integer_has_number))]
pub fn read_integer(text: &[u8], node: &Node) -> i128
    requires { Is whole_rules text.now INTEGER_VALUE node.now }
    ensures { number_of text.now node.now ≡ Some result }
{
    read_i128(text, node.the_child(names::NUMBER_I128))
}
