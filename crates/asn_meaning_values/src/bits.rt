//! Bits that are told by the names of those that are set (X.680 22.9).

ghost use Rattle.asn_meaning_heads.specs.Written.{shown_written};
ghost use Rattle.asn_meaning_values.specs.Braces.{shown_values};
ghost use Rattle.asn_meaning_values.specs.Bits.{bits_of_names, bits_written, names_of_elements, number_of_name, shown_texts};
ghost use Rattle.asn_meaning.specs.Rows.{bit_number, bit_numbers, named_bits, names_written, numbers_of_names, reference_name, reference_names, set_bits};
ghost use Rattle.std.specs.List.{fold, list_any};
ghost use Rattle.std.specs.Option.{option_map};
ghost use Rattle.std.specs.Prelude.{◌≡◌, ◌++◌, ◌∷◌, [], IfOk, max, nat_eq};

use crate::braces::elements_written;
use asn_meaning_heads::{ValueForm, Written, number_named, value_written};
use asn_memory::{List, Mem, Text};
use asn_tree::DistinguishedValue;
use std::alloc::Global;

/// The name that a value is, with nothing before it.
fn reference_name<'a>(written: Written<'a>) -> Option<&'a Text>
    ensures { option_map (λ name. name.now) result ≡ reference_name (shown_written written.entry) }
{
    match written {
        Written::Name {
            parent: None,
            identifier,
        } => Some(identifier),
        Written::Name {
            parent: Some(_),
            ..
        } => None,
        Written::All => None,
        Written::Null => None,
        Written::Truth(_) => None,
        Written::Number(_) => None,
        Written::Real(_) => None,
        Written::Text(_) => None,
        Written::Bits(_) => None,
        Written::BitNames(_) => None,
        Written::Octets(_) => None,
        Written::Arcs(_) => None,
        Written::Item(_) => None,
        Written::Braces(_) => None,
        Written::Fields(_) => None,
        Written::Elements(_) => None,
        Written::Alternative { .. } => None,
        Written::Nested(_) => None,
    }
}

/// The names that values are. None where one is no name.
///
/// Err: want of memory.
#[tactic(auto, using(crate::proofs::Naming::names_begin, crate::proofs::Naming::names_next, crate::proofs::Naming::names_lost, crate::proofs::Naming::names_done))]
fn reference_names<'a>(alloc: Global, values: &[ValueForm<'a>]) -> Mem<Option<List<&'a Text>>>
    ensures { IfOk result (λ names. option_map shown_texts names ≡ reference_names (shown_values values.now)) }
{
    let mut names = List::new(alloc);
    for value in values {
        match reference_name(value_written(*value)) {
            None => return Ok(None),
            Some(name) => names = with_name(names, name)?,
        }
    }
    Ok(Some(names))
}

/// The names with one more at the end.
///
/// Err: want of memory.
#[tactic(auto, using(crate::proofs::Naming::one_name_more))]
fn with_name<'a>(names: List<&'a Text>, name: &'a Text) -> Mem<List<&'a Text>>
    ensures { IfOk result (λ more. shown_texts more ≡ shown_texts names.entry ++ name.now ∷ []) }
{
    let mut names = names;
    names.add(name)?;
    Ok(names)
}

/// The names of a list.
///
/// Err: want of memory.
#[tactic(auto, using(crate::proofs::Listing::item_next, crate::proofs::Listing::items_done))]
fn listed_names<'a>(alloc: Global, names: &'a [Text]) -> Mem<List<&'a Text>>
    ensures { IfOk result (λ listed. shown_texts listed ≡ names.now) }
{
    let mut listed = List::new(alloc);
    for name in names {
        listed = with_name(listed, name)?;
    }
    Ok(listed)
}

/// The names of the elements that are written.
///
/// Err: want of memory.
#[tactic(auto, using(crate::proofs::Naming::no_elements, crate::proofs::Naming::some_elements))]
fn element_names<'a>(alloc: Global, written: Written<'a>) -> Mem<Option<List<&'a Text>>>
    ensures { IfOk result (λ names. option_map shown_texts names ≡ names_of_elements (shown_written written.entry)) }
{
    match elements_written(alloc, written)? {
        None => Ok(None),
        Some(values) => {
            let names = reference_names(alloc, values.as_slice())?;
            Ok(names)
        }
    }
}

/// The names in braces, also one that was read as an arc.
///
/// Err: want of memory.
fn names_written<'a>(alloc: Global, written: Written<'a>) -> Mem<Option<List<&'a Text>>>
    ensures { IfOk result (λ names. option_map shown_texts names ≡ names_written (shown_written written.entry)) }
{
    match written {
        Written::BitNames(names) => {
            let names = listed_names(alloc, names.as_slice())?;
            Ok(Some(names))
        }
        Written::All => element_names(alloc, written),
        Written::Null => element_names(alloc, written),
        Written::Truth(_) => element_names(alloc, written),
        Written::Number(_) => element_names(alloc, written),
        Written::Real(_) => element_names(alloc, written),
        Written::Text(_) => element_names(alloc, written),
        Written::Bits(_) => element_names(alloc, written),
        Written::Octets(_) => element_names(alloc, written),
        Written::Arcs(_) => element_names(alloc, written),
        Written::Item(_) => element_names(alloc, written),
        Written::Name { .. } => element_names(alloc, written),
        Written::Braces(_) => element_names(alloc, written),
        Written::Fields(_) => element_names(alloc, written),
        Written::Elements(_) => element_names(alloc, written),
        Written::Alternative { .. } => element_names(alloc, written),
        Written::Nested(_) => element_names(alloc, written),
    }
}

/// The number of a bit, where it is one in bounds.
#[tactic(auto, unfolding(asn_meaning::specs::Rows::greatest_bit))]
fn bit_number(number: i128) -> Option<u32>
    ensures { result ≡ bit_number number }
{
    if number < 0 || number > 1_048_575 {
        None
    } else {
        Some(number as u32)
    }
}

/// The numbers of all named bits. None where one is out of bounds.
///
/// Err: want of memory.
#[tactic(auto, using(crate::proofs::Naming::numbers_begin, crate::proofs::Naming::numbers_next, crate::proofs::Naming::numbers_lost, crate::proofs::Naming::numbers_done))]
fn bit_numbers(alloc: Global, bits: &[DistinguishedValue]) -> Mem<Option<List<u32>>>
    ensures { IfOk result (λ numbers. numbers ≡ bit_numbers bits.now) }
{
    let mut numbers = List::new(alloc);
    for bit in bits {
        match bit_number(bit.value) {
            None => return Ok(None),
            Some(number) => numbers.add(number)?,
        }
    }
    Ok(Some(numbers))
}

/// The number of the bit of the name, where it is one in bounds.
#[tactic(auto, using(crate::proofs::Naming::no_number, crate::proofs::Naming::some_number))]
fn number_of_name(bits: &[DistinguishedValue], name: &Text) -> Option<u32>
    ensures { result ≡ number_of_name bits.now name.now }
{
    match number_named(bits, name.as_str()) {
        None => None,
        Some(number) => bit_number(number),
    }
}

/// The numbers of the bits that are named. None where a name is unknown or its number out of bounds.
///
/// Err: want of memory.
#[tactic(auto, using(crate::proofs::Naming::named_begin, crate::proofs::Naming::named_next, crate::proofs::Naming::named_lost, crate::proofs::Naming::named_done))]
fn numbers_of_names(
    alloc: Global,
    bits: &[DistinguishedValue],
    names: &[&Text],
) -> Mem<Option<List<u32>>>
    ensures { IfOk result (λ numbers. numbers ≡ numbers_of_names bits.now (shown_texts names.now)) }
{
    let mut numbers = List::new(alloc);
    for name in names {
        match number_of_name(bits, *name) {
            None => return Ok(None),
            Some(number) => numbers.add(number)?,
        }
    }
    Ok(Some(numbers))
}

/// The greatest of the numbers; 0 where there is none.
#[tactic(auto, using(crate::proofs::Naming::greatest_next, crate::proofs::Naming::greatest_done))]
fn greatest(numbers: &[u32]) -> u32
    ensures { result ≡ fold max 0 numbers.now }
{
    let mut greatest = 0;
    for number in numbers {
        if greatest < *number {
            greatest = *number;
        }
    }
    greatest
}

/// Whether the number is one of these.
#[tactic(auto, using(crate::proofs::Naming::listed_first))]
fn is_listed(numbers: &[u32], number: usize) -> bool
    ensures { result ≡ list_any (nat_eq number) numbers.now }
{
    for listed in numbers {
        if number == *listed as usize {
            return true;
        }
    }
    false
}

/// Bits 0 to the highest of the numbers, true where named.
///
/// Err: want of memory.
#[tactic(auto, using(crate::proofs::Naming::bits_next, crate::proofs::Naming::bits_done))]
fn set_bits(alloc: Global, numbers: &[u32], named: &[u32]) -> Mem<List<bool>>
    ensures { IfOk result (λ bits. bits ≡ set_bits numbers.now named.now) }
{
    let mut bits = List::new(alloc);
    for i in 0..greatest(numbers) as usize + 1 {
        bits.add(is_listed(named, i))?;
    }
    Ok(bits)
}

/// The bits of the names, of the named bits of a type. Without named bits there is a name for none.
///
/// Err: want of memory.
#[tactic(auto, using(crate::proofs::Naming::unnamed_none, crate::proofs::Naming::unnamed_some, crate::proofs::Naming::bits_unknown, crate::proofs::Naming::names_unknown, crate::proofs::Naming::bits_known))]
fn named_bits(
    alloc: Global,
    bits: &[DistinguishedValue],
    names: &[&Text],
) -> Mem<Option<List<bool>>>
    ensures { IfOk result (λ found. found ≡ named_bits bits.now (shown_texts names.now)) }
{
    if bits.is_empty() {
        return if names.is_empty() {
            Ok(Some(List::new(alloc)))
        } else {
            Ok(None)
        };
    }
    match bit_numbers(alloc, bits)? {
        None => Ok(None),
        Some(numbers) => match numbers_of_names(alloc, bits, names)? {
            None => Ok(None),
            Some(named) => {
                let found = set_bits(alloc, numbers.as_slice(), named.as_slice())?;
                Ok(Some(found))
            }
        },
    }
}

/// The bits of the names that are written.
///
/// Err: want of memory.
#[tactic(auto, using(crate::proofs::Naming::no_names, crate::proofs::Naming::some_names))]
fn bits_of_names(
    alloc: Global,
    bits: &[DistinguishedValue],
    written: Written<'_>,
) -> Mem<Option<List<bool>>>
    ensures { IfOk result (λ found. found ≡ bits_of_names bits.now (shown_written written.entry)) }
{
    match names_written(alloc, written)? {
        None => Ok(None),
        Some(names) => {
            let found = named_bits(alloc, bits, names.as_slice())?;
            Ok(found)
        }
    }
}

/// The bits once more.
///
/// Err: want of memory.
#[tactic(auto, using(crate::proofs::Listing::item_next, crate::proofs::Listing::items_done))]
fn copied_bits(alloc: Global, bits: &[bool]) -> Mem<List<bool>>
    ensures { IfOk result (λ copied. copied ≡ bits.now) }
{
    let mut copied = List::new(alloc);
    for bit in bits {
        copied.add(*bit)?;
    }
    Ok(copied)
}

/// The bits that are written, one by one or by names (X.680 22.9).
///
/// Err: want of memory.
pub fn bits_written(
    alloc: Global,
    bits: &[DistinguishedValue],
    written: Written<'_>,
) -> Mem<Option<List<bool>>>
    ensures { IfOk result (λ found. found ≡ bits_written bits.now (shown_written written.entry)) }
{
    match written {
        Written::Bits(bits) => {
            let copied = copied_bits(alloc, bits.as_slice())?;
            Ok(Some(copied))
        }
        Written::All => bits_of_names(alloc, bits, written),
        Written::Null => bits_of_names(alloc, bits, written),
        Written::Truth(_) => bits_of_names(alloc, bits, written),
        Written::Number(_) => bits_of_names(alloc, bits, written),
        Written::Real(_) => bits_of_names(alloc, bits, written),
        Written::Text(_) => bits_of_names(alloc, bits, written),
        Written::BitNames(_) => bits_of_names(alloc, bits, written),
        Written::Octets(_) => bits_of_names(alloc, bits, written),
        Written::Arcs(_) => bits_of_names(alloc, bits, written),
        Written::Item(_) => bits_of_names(alloc, bits, written),
        Written::Name { .. } => bits_of_names(alloc, bits, written),
        Written::Braces(_) => bits_of_names(alloc, bits, written),
        Written::Fields(_) => bits_of_names(alloc, bits, written),
        Written::Elements(_) => bits_of_names(alloc, bits, written),
        Written::Alternative { .. } => bits_of_names(alloc, bits, written),
        Written::Nested(_) => bits_of_names(alloc, bits, written),
    }
}
