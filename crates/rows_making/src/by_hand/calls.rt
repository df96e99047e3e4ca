//! Calls on trees that no text has: the constraints of CHOICE and ENUMERATED, fields that linking fills in, an item of an ENUMERATED under
//! its type, and a set of characters in which one has two numbers.

use crate::by_hand::comparing::push_rows;
use asn_calls::{ASN1ValueCalls, Constrainable, StructLikeFieldValueCalls};
use asn_memory::{Box, List, Mem, Text};
use asn_tree::{
    ASN1Type, ASN1Value, Choice, Constraint, ContentConstraint, Enumerated, LinkFault,
    StructLikeFieldValue,
};
use std::alloc::Global;
use std::collections::BTreeMap;

// ---- constraints

// The constraint `(CONTAINING NULL)` (X.682 11.1), which takes no memory.
fn containing_null() -> Constraint {
    Constraint::ContentConstraint(ContentConstraint::Containing(ASN1Type::Null))
}

// Whether it has no constraint before it is given one, and one behind that.
fn is_given_one<T: Constrainable + Drop>(mut ty: T) -> Mem<bool> {
    let before = ty.constraints().len();
    ty.constraints_mut().add(containing_null())?;
    Ok(before == 0 && ty.constraints().len() == 1)
}

fn is_choice_given_one(alloc: Global) -> Mem<bool> {
    is_given_one(Choice {
        extensible: None,
        options: List::new(alloc),
        constraints: List::new(alloc),
    })
}

fn is_enumerated_given_one(alloc: Global) -> Mem<bool> {
    is_given_one(Enumerated {
        members: List::new(alloc),
        extensible: None,
        constraints: List::new(alloc),
    })
}

// ---- values

fn boxed(alloc: Global, number: i128) -> Mem<Box<ASN1Value>> {
    Box::new(alloc, ASN1Value::Integer(number))
}

// Whether the value is this number, and 8 once it is changed where it lies.
fn is_changed(field: Mem<StructLikeFieldValue>, number: i128) -> Mem<bool> {
    let mut field = field?;
    let before = field.value().unwrap_as_integer().ok();
    *field.value_mut() = ASN1Value::Integer(8);
    let behind = field.into_value().unwrap_as_integer().ok();
    Ok(before == Some(number) && behind == Some(8))
}

fn written(alloc: Global) -> Mem<StructLikeFieldValue> {
    Ok(StructLikeFieldValue::Explicit(boxed(alloc, 4)?))
}

fn left_out(alloc: Global) -> Mem<StructLikeFieldValue> {
    Ok(StructLikeFieldValue::Implicit(boxed(alloc, 5)?))
}

fn is_item_elsewhere(alloc: Global) -> Mem<bool> {
    let enumerated = Text::new(alloc, "Colour")?;
    let enumerable = Text::new(alloc, "red")?;
    let item = ASN1Value::EnumeratedValue {
        enumerated,
        enumerable,
    };
    Ok(item.is_elsewhere_declared())
}

// Whether the text that is answered begins with this byte.
fn begins_with(answer: &Result<ASN1Value, LinkFault>, byte: u8) -> bool {
    match answer {
        Ok(ASN1Value::String(text)) => text.as_str().as_bytes().first() == Some(&byte),
        _ => false,
    }
}

// Whether `x` is less than `a` where it has the numbers 5 and 9 and `a` has 7: the least of a character's numbers counts.
fn is_least_counted(alloc: Global) -> Mem<bool> {
    let mut set = BTreeMap::new(alloc);
    for (number, character) in [(5, 'x'), (7, 'a'), (9, 'x')] {
        set.insert(number, character)?;
    }
    let left = Text::new(alloc, "a")?;
    let right = Text::new(alloc, "x")?;
    let lesser = ASN1Value::String(left).min(alloc, &ASN1Value::String(right), Some(&set));
    Ok(begins_with(&lesser, b'x'))
}

/// Writes whether each call answers what is wanted.
///
/// Err: want of memory.
pub(crate) fn write_rows(alloc: Global, out: &mut Text) -> Mem<()> {
    push_rows(
        out,
        &[
            ("a constraint for a CHOICE", is_choice_given_one(alloc)),
            (
                "a constraint for an ENUMERATED",
                is_enumerated_given_one(alloc),
            ),
            (
                "an explicit value that is changed",
                is_changed(written(alloc), 4),
            ),
            (
                "an implicit value that is changed",
                is_changed(left_out(alloc), 5),
            ),
            ("an item defined elsewhere", is_item_elsewhere(alloc)),
            ("a character with two numbers", is_least_counted(alloc)),
        ],
    )
}
