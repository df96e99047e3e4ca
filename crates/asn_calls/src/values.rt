//! Calls on values, and on the values of fields.

ghost use Rattle.asn_calls.specs.Constraints.{both, number_of};
ghost use Rattle.asn_calls.specs.Faults.{IsUnpackingError};
ghost use Rattle.asn_calls.specs.LentTypes.{value_row};
ghost use Rattle.asn_calls.specs.Values.{IfRefused, IfWanting, IsText, behind, chosen, chosen_number, chosen_text, entries_of, greater, is_elsewhere, keeps_first, lesser, lesser_of, number_in_set, place_in, text_of, with_behind};
ghost use Rattle.asn_tree_kinds.specs.contracts.values.StructLikeFieldValueOver.{the_row};
ghost use Rattle.std.specs.Borrow.{Lends, sem};
ghost use Rattle.std.specs.Option.{option_copied, option_map};
ghost use Rattle.std.specs.Prelude.{◌≡◌, IfErr, IfOk, IsOkUnless, None, Some};

use crate::constraints::{unpacking_error, whole_number};
use asn_memory::Text;
use asn_tree::{ASN1Value, GrammarError, LinkFault, StructLikeFieldValue};
use std::alloc::Global;
use std::collections::BTreeMap;

/// Calls on `ASN1Value`.
pub trait ASN1ValueCalls: Sized {
    /// The lesser of two values, in a new tree: of two whole numbers the lesser, whatever the set; of two texts of one
    /// byte the one whose character has the lesser number in the set, where the least of a character's numbers counts.
    /// On a tie it is this value.
    ///
    /// UnpackingError for any other two values, for texts without a set, and where the set has not both characters.
    /// Want of memory comes only where a text is copied.
    fn min(
        &self,
        alloc: Global,
        other: &ASN1Value,
        char_set: Option<&BTreeMap<usize, char>>,
    ) -> Result<ASN1Value, LinkFault>;

    /// `min` with the greater of both.
    fn max(
        &self,
        alloc: Global,
        other: &ASN1Value,
        char_set: Option<&BTreeMap<usize, char>>,
    ) -> Result<ASN1Value, LinkFault>;

    /// The whole number (X.680 19.9).
    ///
    /// UnpackingError where the value is none.
    fn unwrap_as_integer(&self) -> Result<i128, GrammarError>;

    /// Whether the value is a name that is defined elsewhere: that of a value, or of an item of an ENUMERATED.
    fn is_elsewhere_declared(&self) -> bool;
}

impl ASN1ValueCalls for ASN1Value {
    fn min(
        &self,
        alloc: Global,
        other: &ASN1Value,
        char_set: Option<&BTreeMap<usize, char>>,
    ) -> Result<ASN1Value, LinkFault>
        ensures ok { IfOk result (λ value. lesser self.now other.now (entries_of char_set.entry) ≡ Some value) }
        ensures refused { IfErr result (λ fault. IfRefused fault (λ _. lesser self.now other.now (entries_of char_set.entry) ≡ None)) }
        ensures kind { IfErr result (λ fault. IfRefused fault (λ refusal. IsUnpackingError refusal)) }
        ensures memory { IfErr result (λ fault. IfWanting fault (IsText (lesser self.now other.now (entries_of char_set.entry)))) }
    {
        chosen(alloc, Pick::Lesser, self, other, char_set)
    }

    fn max(
        &self,
        alloc: Global,
        other: &ASN1Value,
        char_set: Option<&BTreeMap<usize, char>>,
    ) -> Result<ASN1Value, LinkFault>
        ensures ok { IfOk result (λ value. greater self.now other.now (entries_of char_set.entry) ≡ Some value) }
        ensures refused { IfErr result (λ fault. IfRefused fault (λ _. greater self.now other.now (entries_of char_set.entry) ≡ None)) }
        ensures kind { IfErr result (λ fault. IfRefused fault (λ refusal. IsUnpackingError refusal)) }
        ensures memory { IfErr result (λ fault. IfWanting fault (IsText (greater self.now other.now (entries_of char_set.entry)))) }
    {
        chosen(alloc, Pick::Greater, self, other, char_set)
    }

    fn unwrap_as_integer(&self) -> Result<i128, GrammarError>
        ensures ok { IfOk result (λ number. number_of self.now ≡ Some number) }
        ensures none { IfErr result (λ _. number_of self.now ≡ None) }
        ensures kind { IfErr result (λ e. IsUnpackingError e) }
    {
        match whole_number(self) {
            Some(number) => Ok(number),
            None => Err(unpacking_error("the value is no whole number")),
        }
    }

    fn is_elsewhere_declared(&self) -> bool
        ensures { result ≡ is_elsewhere self.now }
    {
        matches!(
            self,
            ASN1Value::ElsewhereDeclaredValue { .. } | ASN1Value::EnumeratedValue { .. }
        )
    }
}

/// Calls on `StructLikeFieldValue`.
pub trait StructLikeFieldValueCalls {
    /// The value, whether it is written or the default.
    fn value(&self) -> &ASN1Value;

    /// The value, to be changed; a written one stays a written one, and a default a default.
    fn value_mut(&mut self) -> &mut ASN1Value;

    /// Takes the value out.
    fn into_value(self) -> ASN1Value;
}

impl StructLikeFieldValueCalls for StructLikeFieldValue {
    fn value(&self) -> &ASN1Value
        ensures { result.now ≡ behind self.now }
    {
        match self {
            StructLikeFieldValue::Explicit(value) => value.get(),
            StructLikeFieldValue::Implicit(value) => value.get(),
        }
    }

    fn value_mut(&mut self) -> &mut ASN1Value
        ensures* writes_back { sem 𝓛 (Lends (the_row value_row) value_row self.entry result (with_behind self.entry.now)) }
        ensures value { result.now ≡ behind self.old }
    {
        match self {
            StructLikeFieldValue::Explicit(value) => value.get_mut(),
            StructLikeFieldValue::Implicit(value) => value.get_mut(),
        }
    }

    fn into_value(self) -> ASN1Value
        ensures { result ≡ behind self }
    {
        self.into_held()
    }
}

/// Which of two values is asked for.
#[derive(Clone, Copy)]
pub(crate) enum Pick {
    Lesser,
    Greater,
}

fn text(value: &ASN1Value) -> Option<&Text>
    ensures { option_copied result ≡ text_of value.now }
{
    match value {
        ASN1Value::String(text) => Some(text),
        _ => None,
    }
}

fn both(left: Option<i128>, right: Option<i128>) -> Option<(i128, i128)>
    ensures { result ≡ both left right }
{
    Some((left?, right?))
}

// Whether the first of two is the one that is asked for, which it is on a tie.
fn keeps_first(pick: Pick, left: i128, right: i128) -> bool
    ensures { result ≡ keeps_first pick left right }
{
    match pick {
        Pick::Lesser => left <= right,
        Pick::Greater => right <= left,
    }
}

// The one of two values that is asked for.
fn chosen(
    alloc: Global,
    pick: Pick,
    left: &ASN1Value,
    right: &ASN1Value,
    char_set: Option<&BTreeMap<usize, char>>,
) -> Result<ASN1Value, LinkFault>
    ensures ok { IfOk result (λ value. chosen pick left.now right.now (entries_of char_set.entry) ≡ Some value) }
    ensures refused { IfErr result (λ fault. IfRefused fault (λ _. chosen pick left.now right.now (entries_of char_set.entry) ≡ None)) }
    ensures kind { IfErr result (λ fault. IfRefused fault (λ refusal. IsUnpackingError refusal)) }
    ensures memory { IfErr result (λ fault. IfWanting fault (IsText (chosen pick left.now right.now (entries_of char_set.entry)))) }
{
    match chosen_number(pick, left, right) {
        Some(number) => Ok(ASN1Value::Integer(number)),
        None => match chosen_text(pick, left, right, char_set) {
            Some(text) => copied(alloc, text),
            None => Err(LinkFault::Grammar(unpacking_error("the values can't be compared"))),
        },
    }
}

fn chosen_number(pick: Pick, left: &ASN1Value, right: &ASN1Value) -> Option<i128>
    ensures { result ≡ chosen_number pick left.now right.now }
{
    match both(whole_number(left), whole_number(right)) {
        Some((left, right)) if keeps_first(pick, left, right) => Some(left),
        Some((_, right)) => Some(right),
        None => None,
    }
}

fn copied(alloc: Global, text: &Text) -> Result<ASN1Value, LinkFault>
    ensures ok { IfOk result (λ value. value ≡ ASN1Value.String text.now) }
    ensures memory { IsOkUnless result LinkFault.OutOfMemory }
{
    match Text::new(alloc, text.as_str()) {
        Ok(text) => Ok(ASN1Value::String(text)),
        Err(_) => Err(LinkFault::OutOfMemory),
    }
}

fn chosen_text<'t>(
    pick: Pick,
    left: &'t ASN1Value,
    right: &'t ASN1Value,
    char_set: Option<&BTreeMap<usize, char>>,
) -> Option<&'t Text>
    ensures { option_copied result ≡ chosen_text pick left.now right.now (entries_of char_set.entry) }
{
    let left = text(left)?;
    let right = text(right)?;
    let (first, second) = both(place(char_set, left), place(char_set, right))?;
    Some(if keeps_first(pick, first, second) {
        left
    } else {
        right
    })
}

// The least number that the set gives the character that a text is.
fn place(char_set: Option<&BTreeMap<usize, char>>, text: &Text) -> Option<i128>
    ensures { result ≡ place_in (entries_of char_set.entry) text.now }
{
    match text.as_str().as_bytes() {
        [byte] => number_in_set(char_set?, char::from(*byte)),
        _ => None,
    }
}

fn number_in_set(set: &BTreeMap<usize, char>, character: char) -> Option<i128>
    ensures { result ≡ number_in_set character set.now.entries }
{
    let mut least = None;
    for (number, found) in set {
        if *found == character {
            least = Some(lesser_of(least, *number as i128));
        }
    }
    least
}

fn lesser_of(least: Option<i128>, number: i128) -> i128
    ensures { result ≡ lesser_of least number }
{
    match least {
        Some(least) => least.min(number),
        None => number,
    }
}
