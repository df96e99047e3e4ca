//! Why a whole text has no reading.

use asn_text::LexerError;
use thiserror::Error;

/// Why a text has no reading.
#[derive(Clone, Copy, Debug, Error, PartialEq, Eq)]
pub enum SpecError {
    /// The text is none of the grammar, at a height within the depth: what is due, and where.
    #[error("{0}")]
    Lexer(LexerError),
    /// The height of the text's derivation exceeds the depth.
    #[error("the text nests deeper than is allowed")]
    TooDeep,
    /// Want of memory.
    #[error("out of memory")]
    OutOfMemory,
}
