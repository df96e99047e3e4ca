//! What calls on trees answer, told in words: values so far as these calls tell them apart, refusals, and types that calls make.

use asn_memory::{Mem, OutOfMemory, Text};
use asn_tree::{ASN1Type, ASN1Value, GrammarError, GrammarErrorType, LinkFault};
use rows::push_number;
use std::alloc::Global;

fn refusal_word(kind: GrammarErrorType) -> &'static str {
    match kind {
        GrammarErrorType::UnpackingError => "unpacking error: ",
        GrammarErrorType::LinkerError => "linker error: ",
        GrammarErrorType::PerVisibleConstraintError => "visible constraint error: ",
        GrammarErrorType::NotYetInplemented => "not yet: ",
        GrammarErrorType::SyntaxMismatch => "syntax mismatch: ",
    }
}

/// Writes the kind and the words of a refusal.
///
/// Err: want of memory.
pub fn write_refusal(out: &mut Text, refusal: &GrammarError) -> Mem<()> {
    out.push_str(refusal_word(refusal.kind))?;
    out.push_str(refusal.details)
}

/// Writes a value, so far as the calls on values tell values apart.
///
/// Err: want of memory.
pub fn write_plain_value(alloc: Global, out: &mut Text, value: &ASN1Value) -> Mem<()> {
    match value {
        ASN1Value::Null => out.push_str("NULL"),
        ASN1Value::Boolean(true) => out.push_str("TRUE"),
        ASN1Value::Boolean(false) => out.push_str("FALSE"),
        ASN1Value::Integer(number) => push_number(alloc, out, *number),
        ASN1Value::String(text) => {
            out.push_str("\"")?;
            out.push_str(text.as_str())?;
            out.push_str("\"")
        }
        ASN1Value::ElsewhereDeclaredValue { identifier, .. } => out.push_str(identifier.as_str()),
        _ => out.push_str("another value"),
    }
}

/// Writes the number that a call found, or that there is none, and lets it go.
///
/// Err: want of memory.
pub fn write_found(alloc: Global, out: &mut Text, found: Option<ASN1Value>) -> Mem<()> {
    match found {
        Some(value) => write_plain_value(alloc, out, &value),
        None => out.push_str("no number"),
    }
}

/// Writes the value that a call answers, or its refusal, and lets it go.
///
/// Err: want of memory.
pub fn write_answer(
    alloc: Global,
    out: &mut Text,
    answer: Result<ASN1Value, LinkFault>,
) -> Mem<()> {
    match answer {
        Ok(value) => write_plain_value(alloc, out, &value),
        Err(LinkFault::Grammar(refusal)) => write_refusal(out, &refusal),
        Err(LinkFault::OutOfMemory) => Err(OutOfMemory),
    }
}

/// What is told of a type.
pub trait TellsType {
    /// Writes what is told of a type.
    ///
    /// Err: want of memory.
    fn tell(&self, alloc: Global, out: &mut Text, ty: &ASN1Type) -> Mem<()>;
}

/// Writes what is told of a type that a call made, and lets it go.
///
/// Err: want of memory.
pub fn tell_type<T: TellsType>(
    alloc: Global,
    out: &mut Text,
    made: Mem<ASN1Type>,
    teller: &T,
) -> Mem<()> {
    match made {
        Ok(ty) => teller.tell(alloc, out, &ty),
        Err(_) => Err(OutOfMemory),
    }
}
