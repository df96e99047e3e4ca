//! How a value is written that is a literal.

/// The form of a literal, a value that holds neither a name nor another value; or any other.
#[derive(Clone, Copy, Debug, PartialEq, Eq)]
pub enum LiteralForm {
    /// NULL (X.680 24.3).
    Null,
    /// TRUE or FALSE (X.680 18.3).
    Truth,
    /// A whole number (X.680 19.9).
    Number,
    /// Bits (X.680 22.9).
    Bits,
    /// Octets (X.680 23.3).
    Octets,
    /// A character string (X.680 41.8).
    Text,
    /// Any other.
    Other,
}
