//! Words and marks that tell something by standing there.

ghost use Rattle.asn_read_pieces.specs.Words.{extensible_of, extension_of, high_open_of, low_open_of, operator_by, operator_of, optional_of, partial_of, presence_of, string_type_by, string_type_of, unique_of};
ghost use Rattle.asn_rules.specs.Children.{Is};
ghost use Rattle.asn_rules.specs.Whole.{whole_rules};
ghost use Rattle.asn_rules.specs.declared.names.TheConstants.{CHARACTER_STRING, SET_OPERATOR};
ghost use Rattle.std.specs.Option.{is_some};
ghost use Rattle.std.specs.Prelude.{◌≡◌, true, Some};

use asn_rules::{Node, names};
use asn_tree_kinds::{ComponentPresence, SetOperator};
use asn_tree_leaves::{CharacterStringType, ExtensionMarker, OptionalMarker};

/// The word OPTIONAL, where it stands (X.680 25.1).
pub fn read_optional(node: &Node) -> Option<OptionalMarker>
    ensures { result ≡ optional_of node.now }
{
    match node.child(names::MARK_OPTIONAL) {
        Some(_) => Some(OptionalMarker()),
        None => None,
    }
}

/// The `...` among the parts of a node, where it stands (X.680 20.1, 25.1, 29.1).
pub fn read_extension(node: &Node) -> Option<ExtensionMarker>
    ensures { result ≡ extension_of node.now }
{
    match node.child(names::EXTENSION_MARK) {
        Some(_) => Some(ExtensionMarker()),
        None => None,
    }
}

/// Whether the word UNIQUE stands behind a class's field (X.681 9.6).
pub fn is_unique(node: &Node) -> bool
    ensures { result ≡ unique_of node.now }
{
    match node.child(names::MARK_UNIQUE) {
        Some(_) => true,
        None => false,
    }
}

/// Whether `...` stands before the listed components, so that those not listed are free (X.680 51.8.6).
pub fn is_partial(node: &Node) -> bool
    ensures { result ≡ partial_of node.now }
{
    match node.child(names::MARK_PARTIAL) {
        Some(_) => true,
        None => false,
    }
}

/// Whether the lower end of a range is left out, which a mark behind it tells (X.680 51.4).
pub fn is_low_open(node: &Node) -> bool
    ensures { result ≡ low_open_of node.now }
{
    match node.child(names::MARK_LOW_OPEN) {
        Some(_) => true,
        None => false,
    }
}

/// Whether the upper end of a range is left out, which a mark before it tells (X.680 51.4).
pub fn is_high_open(node: &Node) -> bool
    ensures { result ≡ high_open_of node.now }
{
    match node.child(names::MARK_HIGH_OPEN) {
        Some(_) => true,
        None => false,
    }
}

/// Whether an extension marker stands behind a set of values (X.680 50.1).
pub fn is_extensible(node: &Node) -> bool
    ensures { result ≡ extensible_of node.now }
{
    match node.child(names::EXTENSION_TAIL) {
        Some(_) => true,
        None => false,
    }
}

/// What a listed component's word asks of its presence; unspecified without a word (X.680 51.8.9).
pub fn read_presence(node: &Node) -> ComponentPresence
    ensures { result ≡ presence_of node.now }
{
    if let Some(_) = node.child(names::MARK_PRESENT) {
        return ComponentPresence::Present;
    }
    if let Some(_) = node.child(names::MARK_ABSENT) {
        return ComponentPresence::Absent;
    }
    match node.child(names::MARK_OPTIONAL) {
        Some(_) => ComponentPresence::Optional,
        None => ComponentPresence::Unspecified,
    }
}

fn operator(leaf: u8) -> SetOperator
    requires { is_some (operator_by leaf) ≡ true }
    ensures { operator_by leaf ≡ Some result }
{
    match leaf {
        names::MARK_INTERSECTION => SetOperator::Intersection,
        names::MARK_UNION => SetOperator::Union,
        names::MARK_EXCEPT => SetOperator::Except,
        _ => unreachable!(),
    }
}

/// What joins two sets of values: a word, or a mark of the same meaning (X.680 50.1).
#[tactic(auto, using(crate::proofs::Views::operator_has_leaf, crate::proofs::Views::leaf_is_operator))]
pub fn read_operator(text: &[u8], node: &Node) -> SetOperator
    requires { Is whole_rules text.now SET_OPERATOR node.now }
    ensures { operator_of node.now ≡ Some result }
{
    operator(node.first_child().rule)
}

fn string_type(leaf: u8) -> CharacterStringType
    requires { is_some (string_type_by leaf) ≡ true }
    ensures { string_type_by leaf ≡ Some result }
{
    match leaf {
        names::MARK_IA5_STRING => CharacterStringType::IA5String,
        names::MARK_UTF8_STRING => CharacterStringType::UTF8String,
        names::MARK_NUMERIC_STRING => CharacterStringType::NumericString,
        names::MARK_VISIBLE_STRING => CharacterStringType::VisibleString,
        names::MARK_TELETEX_STRING => CharacterStringType::TeletexString,
        names::MARK_VIDEOTEX_STRING => CharacterStringType::VideotexString,
        names::MARK_GRAPHIC_STRING => CharacterStringType::GraphicString,
        names::MARK_GENERAL_STRING => CharacterStringType::GeneralString,
        names::MARK_UNIVERSAL_STRING => CharacterStringType::UniversalString,
        names::MARK_BMP_STRING => CharacterStringType::BMPString,
        names::MARK_PRINTABLE_STRING => CharacterStringType::PrintableString,
        _ => unreachable!(),
    }
}

/// The character string type that a node begins with the word of (X.680 41.1).
#[tactic(auto, using(crate::proofs::Views::string_type_has_leaf, crate::proofs::Views::leaf_is_string_type))]
pub fn read_string_type(text: &[u8], node: &Node) -> CharacterStringType
    requires { Is whole_rules text.now CHARACTER_STRING node.now }
    ensures { string_type_of node.now ≡ Some result }
{
    string_type(node.first_child().rule)
}
