//! Calls on INTEGER, and on the types that hold its values.

ghost use Rattle.asn_calls.specs.Integers.{earlier, first_holding, holds, is_unbounded, least_type, place, spans, type_of_all, word};
ghost use Rattle.std.specs.Prelude.{◌≡◌};

use crate::constraints::ConstraintCalls;
use asn_tree::{Integer, IntegerType};

/// Calls on `IntegerType`.
pub trait IntegerTypeCalls: Sized {
    /// The more restrictive of two types: the earlier in Uint8, Int8, Uint16, Int16, Uint32, Int32, Uint64, Int64,
    /// Unbounded.
    fn max_restrictive(self, rhs: Self) -> Self;

    /// Whether the type is Unbounded.
    fn is_unbounded(&self) -> bool;

    /// The type's name in Rust, `u8` to `i64`, or `Integer` for Unbounded.
    fn as_str(&self) -> &'static str;
}

impl IntegerTypeCalls for IntegerType {
    fn max_restrictive(self, rhs: IntegerType) -> IntegerType
        ensures { result ≡ earlier self rhs }
    {
        if place(self) <= place(rhs) { self } else { rhs }
    }

    fn is_unbounded(&self) -> bool
        ensures { result ≡ is_unbounded self.now }
    {
        matches!(self, IntegerType::Unbounded)
    }

    fn as_str(&self) -> &'static str
        ensures { result.now ≡ word self.now }
    {
        match self {
            IntegerType::Int8 => "i8",
            IntegerType::Uint8 => "u8",
            IntegerType::Int16 => "i16",
            IntegerType::Uint16 => "u16",
            IntegerType::Int32 => "i32",
            IntegerType::Uint32 => "u32",
            IntegerType::Int64 => "i64",
            IntegerType::Uint64 => "u64",
            IntegerType::Unbounded => "Integer",
        }
    }
}

// The place of the type, counted from the most restrictive.
fn place(ty: IntegerType) -> u8
    ensures { result ≡ place ty }
{
    match ty {
        IntegerType::Uint8 => 0,
        IntegerType::Int8 => 1,
        IntegerType::Uint16 => 2,
        IntegerType::Int16 => 3,
        IntegerType::Uint32 => 4,
        IntegerType::Int32 => 5,
        IntegerType::Uint64 => 6,
        IntegerType::Int64 => 7,
        IntegerType::Unbounded => 8,
    }
}

/// Calls on `Integer`.
pub trait IntegerCalls {
    /// The most restrictive of the types that its constraints give, Unbounded for none.
    fn int_type(&self) -> IntegerType;
}

impl IntegerCalls for Integer {
    fn int_type(&self) -> IntegerType
        ensures { result ≡ type_of_all self.now.constraints }
    {
        let mut ty = IntegerType::Unbounded;
        for constraint in self.constraints.as_slice() {
            ty = ty.max_restrictive(constraint.integer_constraints());
        }
        ty
    }
}

const UNSIGNED_TYPES: [IntegerType; 4] = [
    IntegerType::Uint8,
    IntegerType::Uint16,
    IntegerType::Uint32,
    IntegerType::Uint64,
];

const SIGNED_TYPES: [IntegerType; 4] = [
    IntegerType::Int8,
    IntegerType::Int16,
    IntegerType::Int32,
    IntegerType::Int64,
];

/// The least type that holds `low` and `high`, and so all numbers between them.
pub(crate) fn least_type(low: i128, high: i128) -> IntegerType
    ensures { result ≡ least_type low high }
{
    if low >= 0 {
        first_holding(low, high, &UNSIGNED_TYPES)
    } else {
        first_holding(low, high, &SIGNED_TYPES)
    }
}

// The first of the types that holds both numbers.
fn first_holding(low: i128, high: i128, types: &[IntegerType]) -> IntegerType
    ensures { result ≡ first_holding low high types.now }
{
    for ty in types {
        if spans(*ty, low, high) {
            return *ty;
        }
    }
    IntegerType::Unbounded
}

fn spans(ty: IntegerType, low: i128, high: i128) -> bool
    ensures { result ≡ spans ty low high }
{
    holds(ty, low) && holds(ty, high)
}

#[tactic(auto, unfolding(crate::specs::Integers::holds))]
fn holds(ty: IntegerType, number: i128) -> bool
    ensures { result ≡ holds ty number }
{
    match ty {
        IntegerType::Int8 => i8::try_from(number).is_ok(),
        IntegerType::Uint8 => u8::try_from(number).is_ok(),
        IntegerType::Int16 => i16::try_from(number).is_ok(),
        IntegerType::Uint16 => u16::try_from(number).is_ok(),
        IntegerType::Int32 => i32::try_from(number).is_ok(),
        IntegerType::Uint32 => u32::try_from(number).is_ok(),
        IntegerType::Int64 => i64::try_from(number).is_ok(),
        IntegerType::Uint64 => u64::try_from(number).is_ok(),
        IntegerType::Unbounded => true,
    }
}
