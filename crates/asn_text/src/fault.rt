//! What a reader answers: the rest and what was read, or why there is nothing.

ghost use Rattle.asn_text.specs.Fault.{FailsAt};

use crate::errors::{ErrorKind, ErrorTree};
use crate::input::Input;

/// Why a reader gives nothing.
#[derive(Drop)]
pub enum ParseFault<'a> {
    /// The text is not what the reader reads.
    Fail(ErrorTree<'a>),
    /// The calls nest deeper than the depth that was given.
    TooDeep,
    /// Want of memory.
    OutOfMemory,
}

/// What a reader gives: the rest of its input, and what was read.
pub type ParserResult<'a, O> = Result<(Input<'a>, O), ParseFault<'a>>;

/// The fault of a reader of this name: a leaf with its input unchanged.
pub(crate) fn fails<'a>(input: Input<'a>, name: &'static str) -> ParseFault<'a>
    ensures { FailsAt input.entry name.now result }
{
    ParseFault::Fail(ErrorTree::leaf(input, ErrorKind::External(name)))
}
