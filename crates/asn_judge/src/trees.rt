//! Whether two trees are one, and the size of a tree.

ghost use Rattle.asn_judge.specs.inner.Trees.{arc_name, in_pairs, is_same_field, seen};
ghost use Rattle.asn_meaning_shapes.specs.Trees.{shown_fields, shown_tree, shown_trees};
ghost use Rattle.asn_meaning_shapes.specs.declared.trees.Field.{out-Field};
ghost use Rattle.asn_meaning.specs.Rows.{arc_tree};
ghost use Rattle.asn_meaning.specs.ValueTrees.{Alternative, Bits, Characters, Elements, ItemNumber, ObjectIdentifierArcs, Octets, RealNumber, Struct, TruthValue, WholeNumber, are_among, counted, field_names, is_among, same_arc, same_fields, same_number, same_tree, same_truth};
ghost use Rattle.std.specs.Prelude.{◌≡◌, ◌≤◌, ◌&&◌, [], length, map, nat_eq};
ghost use Rattle.std.specs.Str.{bytes_eq, chars};

use asn_meaning_shapes::{
    Field, Tree, View, alternative_of, elements_of, fields_of, find_field, is_null, is_opaque,
};
use asn_memory::{List, Text};
use asn_tree::{ObjectIdentifierArc, RealValue};

/// How many characters a text has.
#[tactic(auto, using(std::proofs::lemmas::Str::chars_from_encodes))]
fn character_count(text: &str) -> usize
    ensures { result ≡ length (chars text.now) }
{
    text.chars().count()
}

/// The size that SIZE counts: bits, octets, characters or elements (X.680 51.5).
#[tactic(auto, using(crate::proofs::Comparing::elements_counted))]
pub fn counted(tree: &Tree) -> Option<usize>
    ensures { result ≡ counted (shown_tree tree.now) }
{
    match tree.view() {
        View::Bits(bits) => Some(bits.len()),
        View::Octets(octets) => Some(octets.len()),
        View::Text(text) => Some(character_count(text.as_str())),
        View::Elements(elements) => Some(elements.len()),
        View::Null => None,
        View::Truth(_) => None,
        View::Whole(_) => None,
        View::Item(_) => None,
        View::Real(_) => None,
        View::Arcs(_) => None,
        View::Struct(_) => None,
        View::Alternative(_, _) => None,
        View::Opaque => None,
    }
}

/// Whether two truth values are one.
fn same_truth(left: bool, right: bool) -> bool
    ensures { result ≡ same_truth left right }
{
    if left { right } else { !right }
}

/// Whether a tree is this truth value.
fn is_truth(truth: bool, tree: &Tree) -> bool
    ensures { result ≡ same_tree (TruthValue truth) (shown_tree tree.now) }
{
    match tree.view() {
        View::Truth(other) => same_truth(truth, other),
        View::Null => false,
        View::Whole(_) => false,
        View::Item(_) => false,
        View::Real(_) => false,
        View::Bits(_) => false,
        View::Octets(_) => false,
        View::Text(_) => false,
        View::Arcs(_) => false,
        View::Struct(_) => false,
        View::Elements(_) => false,
        View::Alternative(_, _) => false,
        View::Opaque => false,
    }
}

/// Whether two numbers are one.
fn same_number(left: i128, right: i128) -> bool
    ensures { result ≡ same_number left right }
{
    left == right
}

/// Whether a tree is this whole number.
fn is_whole(number: i128, tree: &Tree) -> bool
    ensures { result ≡ same_tree (WholeNumber number) (shown_tree tree.now) }
{
    match tree.view() {
        View::Whole(other) => same_number(number, other),
        View::Null => false,
        View::Truth(_) => false,
        View::Item(_) => false,
        View::Real(_) => false,
        View::Bits(_) => false,
        View::Octets(_) => false,
        View::Text(_) => false,
        View::Arcs(_) => false,
        View::Struct(_) => false,
        View::Elements(_) => false,
        View::Alternative(_, _) => false,
        View::Opaque => false,
    }
}

/// Whether a tree is the number of this item.
fn is_item_number(number: i128, tree: &Tree) -> bool
    ensures { result ≡ same_tree (ItemNumber number) (shown_tree tree.now) }
{
    match tree.view() {
        View::Item(other) => same_number(number, other),
        View::Null => false,
        View::Truth(_) => false,
        View::Whole(_) => false,
        View::Real(_) => false,
        View::Bits(_) => false,
        View::Octets(_) => false,
        View::Text(_) => false,
        View::Arcs(_) => false,
        View::Struct(_) => false,
        View::Elements(_) => false,
        View::Alternative(_, _) => false,
        View::Opaque => false,
    }
}

/// Whether two reals have the same mantissa, base and exponent.
fn same_real(left: RealValue, right: RealValue) -> bool
    ensures { result ≡ same_number left.mantissa right.mantissa && nat_eq left.base right.base && same_number left.exponent right.exponent }
{
    let bases = left.base == right.base;
    let exponents = left.exponent == right.exponent;
    same_number(left.mantissa, right.mantissa) && bases && exponents
}

/// Whether a tree is this real.
fn is_the_real(real: RealValue, tree: &Tree) -> bool
    ensures { result ≡ same_tree (RealNumber real.mantissa real.base real.exponent) (shown_tree tree.now) }
{
    match tree.view() {
        View::Real(other) => same_real(real, other),
        View::Null => false,
        View::Truth(_) => false,
        View::Whole(_) => false,
        View::Item(_) => false,
        View::Bits(_) => false,
        View::Octets(_) => false,
        View::Text(_) => false,
        View::Arcs(_) => false,
        View::Struct(_) => false,
        View::Elements(_) => false,
        View::Alternative(_, _) => false,
        View::Opaque => false,
    }
}

/// Whether two strings of bits are one.
#[tactic(auto, using(crate::proofs::Comparing::pairs_next, crate::proofs::Comparing::pairs_uneven, crate::proofs::Comparing::pairs_differ, crate::proofs::Comparing::pairs_done))]
fn same_bits(left: &[bool], right: &[bool]) -> bool
    ensures { result ≡ in_pairs same_truth left.now right.now }
{
    if left.len() != right.len() {
        return false;
    }
    for number in 0..left.len() {
        if !same_truth(left[number], right[number]) {
            return false;
        }
    }
    true
}

/// Whether a tree is this string of bits.
#[tactic(auto, using(crate::proofs::Comparing::bits_in_pairs))]
fn has_bits(bits: &[bool], tree: &Tree) -> bool
    ensures { result ≡ same_tree (Bits bits.now) (shown_tree tree.now) }
{
    match tree.view() {
        View::Bits(others) => same_bits(bits, others),
        View::Null => false,
        View::Truth(_) => false,
        View::Whole(_) => false,
        View::Item(_) => false,
        View::Real(_) => false,
        View::Octets(_) => false,
        View::Text(_) => false,
        View::Arcs(_) => false,
        View::Struct(_) => false,
        View::Elements(_) => false,
        View::Alternative(_, _) => false,
        View::Opaque => false,
    }
}

/// Whether two strings of octets are one.
fn same_octets(left: &[u8], right: &[u8]) -> bool
    ensures { result ≡ bytes_eq left.now right.now }
{
    left == right
}

/// Whether a tree is this string of octets.
fn has_octets(octets: &[u8], tree: &Tree) -> bool
    ensures { result ≡ same_tree (Octets octets.now) (shown_tree tree.now) }
{
    match tree.view() {
        View::Octets(others) => same_octets(octets, others),
        View::Null => false,
        View::Truth(_) => false,
        View::Whole(_) => false,
        View::Item(_) => false,
        View::Real(_) => false,
        View::Bits(_) => false,
        View::Text(_) => false,
        View::Arcs(_) => false,
        View::Struct(_) => false,
        View::Elements(_) => false,
        View::Alternative(_, _) => false,
        View::Opaque => false,
    }
}

/// Whether two texts have the same characters.
#[tactic(auto, using(crate::proofs::Comparing::same_characters))]
fn same_text(left: &str, right: &str) -> bool
    ensures { result ≡ bytes_eq (chars left.now) (chars right.now) }
{
    left == right
}

/// Whether a tree is this text.
fn has_text(text: &str, tree: &Tree) -> bool
    ensures { result ≡ same_tree (Characters (chars text.now)) (shown_tree tree.now) }
{
    match tree.view() {
        View::Text(other) => same_text(text, other.as_str()),
        View::Null => false,
        View::Truth(_) => false,
        View::Whole(_) => false,
        View::Item(_) => false,
        View::Real(_) => false,
        View::Bits(_) => false,
        View::Octets(_) => false,
        View::Arcs(_) => false,
        View::Struct(_) => false,
        View::Elements(_) => false,
        View::Alternative(_, _) => false,
        View::Opaque => false,
    }
}

/// The name of an arc without a number.
fn arc_name(arc: &ObjectIdentifierArc) -> &str
    ensures { result.now ≡ arc_name arc.now }
{
    match &arc.name {
        Some(name) => name.as_str(),
        None => "",
    }
}

/// Whether two arcs are one: both have this number, or both have this name and no number (X.680 32.3).

fn same_arc(left: &ObjectIdentifierArc, right: &ObjectIdentifierArc) -> bool
    ensures { result ≡ same_arc (arc_tree left.now) (arc_tree right.now) }
{
    match (left.number, right.number) {
        (Some(number), Some(other)) => number == other,
        (None, None) => arc_name(left) == arc_name(right),
        (Some(_), None) => false,
        (None, Some(_)) => false,
    }
}

/// Whether two object identifiers are one.
#[tactic(auto, using(crate::proofs::Comparing::pairs_next, crate::proofs::Comparing::pairs_uneven, crate::proofs::Comparing::pairs_differ, crate::proofs::Comparing::pairs_done))]
fn same_arcs(left: &[ObjectIdentifierArc], right: &[ObjectIdentifierArc]) -> bool
    ensures { result ≡ in_pairs (λ a b. same_arc (arc_tree a) (arc_tree b)) left.now right.now }
{
    if left.len() != right.len() {
        return false;
    }
    for number in 0..left.len() {
        if !same_arc(&left[number], &right[number]) {
            return false;
        }
    }
    true
}

/// Whether a tree is this object identifier.
#[tactic(auto, using(crate::proofs::Comparing::arcs_in_pairs))]
fn has_arcs(arcs: &[ObjectIdentifierArc], tree: &Tree) -> bool
    ensures { result ≡ same_tree (ObjectIdentifierArcs (map arc_tree arcs.now)) (shown_tree tree.now) }
{
    match tree.view() {
        View::Arcs(others) => same_arcs(arcs, others),
        View::Null => false,
        View::Truth(_) => false,
        View::Whole(_) => false,
        View::Item(_) => false,
        View::Real(_) => false,
        View::Bits(_) => false,
        View::Octets(_) => false,
        View::Text(_) => false,
        View::Struct(_) => false,
        View::Elements(_) => false,
        View::Alternative(_, _) => false,
        View::Opaque => false,
    }
}

/// Whether a field has the name.
fn has_field(fields: &[Field], name: &str) -> bool
    ensures { result ≡ is_among (field_names (shown_fields fields.now)) name.now }
{
    for field in fields {
        if field.name.as_str() == name {
            return true;
        }
    }
    false
}

/// Whether each field has the name of one of these.
#[tactic(auto, using(asn_meaning_shapes::proofs::Shaping::fields_in, asn_meaning_shapes::proofs::Shaping::fields_out, asn_meaning_shapes::proofs::Shaping::fields_done))]
fn have_names(fields: &[Field], others: &[Field]) -> bool
    ensures { result ≡ are_among (field_names (shown_fields fields.now)) (shown_fields others.now) }
{
    for field in others {
        if !has_field(fields, field.name.as_str()) {
            return false;
        }
    }
    true
}

/// Whether one of so many fields, from the first, has the name.
fn is_seen(fields: &[Field], number: usize, name: &str) -> bool
    requires { number ≤ length fields.now }
    ensures { result ≡ is_among (seen fields.now number) name.now }
{
    let mut left = number;
    while left > 0 {
        if fields[left - 1].name.as_str() == name {
            return true;
        }
        left -= 1;
    }
    false
}

/// Whether two names are one.
pub fn same_name(left: &Text, right: &Text) -> bool
    ensures { result ≡ bytes_eq left.now right.now }
{
    left.as_str() == right.as_str()
}

/// Whether two trees are one: of structs, whether they are one map.
#[cycle(comparing)]
#[tactic(auto, using(crate::proofs::Comparing::null_same, crate::proofs::Comparing::truth_same, crate::proofs::Comparing::whole_same, crate::proofs::Comparing::item_same, crate::proofs::Comparing::real_same, crate::proofs::Comparing::bits_same, crate::proofs::Comparing::octets_same, crate::proofs::Comparing::text_same, crate::proofs::Comparing::arcs_same, crate::proofs::Comparing::struct_same, crate::proofs::Comparing::elements_same, crate::proofs::Comparing::alternative_same, crate::proofs::Comparing::opaque_same))]
pub fn same_tree(left: &Tree, right: &Tree) -> bool
    ensures { result ≡ same_tree (shown_tree left.now) (shown_tree right.now) }
{
    match left {
        Tree::Null => is_null(right),
        Tree::Truth(truth) => is_truth(*truth, right),
        Tree::Whole(number) => is_whole(*number, right),
        Tree::Item(number) => is_item_number(*number, right),
        Tree::Real(real) => is_the_real(*real, right),
        Tree::Bits(bits) => has_bits(bits.as_slice(), right),
        Tree::Octets(octets) => has_octets(octets.as_slice(), right),
        Tree::Texted(text) => has_text(text.as_str(), right),
        Tree::Oid(identifier) => has_arcs(identifier.0.as_slice(), right),
        Tree::Struct(fields) => same_struct(fields, right),
        Tree::Elements(elements) => same_list(elements, right),
        Tree::Alternative(name, tree) => same_alternative(name, tree.get(), right),
        Tree::Opaque => is_opaque(right),
    }
}

/// Whether a tree is this alternative.
#[cycle(comparing)]
#[tactic(auto, using(crate::proofs::Comparing::no_alternative, crate::proofs::Comparing::alternative_is))]
fn same_alternative(name: &Text, inner: &Tree, tree: &Tree) -> bool
    ensures { result ≡ same_tree (Alternative name.now (shown_tree inner.now)) (shown_tree tree.now) }
{
    match alternative_of(tree) {
        None => false,
        Some(other) => same_name(name, other.name) && same_tree(inner, other.tree),
    }
}

/// Whether a tree is a struct with these fields.
#[cycle(comparing)]
#[tactic(auto, using(crate::proofs::Comparing::no_struct, crate::proofs::Comparing::struct_is))]
fn same_struct(fields: &List<Field>, tree: &Tree) -> bool
    ensures { result ≡ same_tree (Struct (shown_fields fields.now)) (shown_tree tree.now) }
{
    match fields_of(tree) {
        None => false,
        Some(others) => same_fields(fields, others) && have_names(fields.as_slice(), others),
    }
}

/// Whether each field that stands, those of the names before it aside, is the same there.
#[cycle(comparing)]
#[tactic(auto, using(crate::proofs::Comparing::field_next, crate::proofs::Comparing::field_differs, crate::proofs::Comparing::fields_end))]
fn same_fields(fields: &List<Field>, others: &[Field]) -> bool
    ensures { result ≡ same_fields [] (shown_fields fields.now) (shown_fields others.now) }
{
    let fields = fields.as_slice();
    for number in 0..fields.len() {
        let field = &fields[number];
        let is_again = is_seen(fields, number, field.name.as_str());
        if !same_field(field, is_again, others) {
            return false;
        }
    }
    true
}

/// Whether the field is the same there, or its name was seen before.
#[cycle(comparing)]
#[tactic(auto, using(crate::proofs::Comparing::is_nowhere, crate::proofs::Comparing::is_there))]
fn same_field(field: &Field, is_again: bool, others: &[Field]) -> bool
    ensures { result ≡ is_same_field is_again (out-Field field.now).name (shown_tree (out-Field field.now).tree) (shown_fields others.now) }
{
    if is_again {
        return true;
    }
    match find_field(others, field.name.as_str()) {
        None => false,
        Some(tree) => same_tree(&field.tree, tree),
    }
}

/// Whether a tree is a list of these elements.
#[cycle(comparing)]
#[tactic(auto, using(crate::proofs::Comparing::no_list, crate::proofs::Comparing::list_is))]
fn same_list(elements: &List<Tree>, tree: &Tree) -> bool
    ensures { result ≡ same_tree (Elements (shown_trees elements.now)) (shown_tree tree.now) }
{
    match elements_of(tree) {
        None => false,
        Some(others) => same_elements(elements, others),
    }
}

/// Whether the elements are the same in order.
#[cycle(comparing)]
#[tactic(auto, using(crate::proofs::Comparing::pairs_next, crate::proofs::Comparing::pairs_uneven, crate::proofs::Comparing::pairs_differ, crate::proofs::Comparing::pairs_done))]
fn same_elements(elements: &List<Tree>, others: &[Tree]) -> bool
    ensures { result ≡ in_pairs (λ t u. same_tree (shown_tree t) (shown_tree u)) elements.now others.now }
{
    let elements = elements.as_slice();
    if elements.len() != others.len() {
        return false;
    }
    for number in 0..elements.len() {
        if !same_tree(&elements[number], &others[number]) {
            return false;
        }
    }
    true
}
