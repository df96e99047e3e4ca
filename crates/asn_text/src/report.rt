//! What is told of a text that fails: the place, the context and the reason.

ghost use Rattle.std.specs.Prelude.{◌≤◌, length};
ghost use Rattle.asn_text.specs.Report.{IsReport};

use crate::place::place_of;
use thiserror::Error;

/// Where a text fails, and why. Offsets are in bytes from 0; lines and columns are counted from 1, columns in bytes.
#[derive(Clone, Copy, Debug, Error)]
#[error("{reason} at line {line}, column {column}")]
pub struct ReportData {
    /// The line where the context begins.
    pub context_start_line: usize,
    /// The offset where the context begins.
    pub context_start_offset: usize,
    pub line: usize,
    pub offset: usize,
    pub column: usize,
    pub reason: &'static str,
    /// Whether no text is left at the place.
    pub unexpected_eof: bool,
}

impl ReportData {
    /// The report of the byte at `place`, whose context begins at the one at `context`.
    pub fn at(text: &str, place: usize, context: usize, reason: &'static str) -> ReportData
        requires place_within { place ≤ length text.now }
        requires context_within { context ≤ length text.now }
        ensures { IsReport text.now place context reason.now result }
    {
        let bytes = text.as_bytes();
        let start = place_of(bytes, context);
        let failed = place_of(bytes, place);
        ReportData {
            context_start_line: start.line,
            context_start_offset: context,
            line: failed.line,
            offset: place,
            column: failed.column,
            reason,
            unexpected_eof: place == bytes.len(),
        }
    }
}

impl PartialEq for ReportData {
    ghost use Rattle.std.specs.Cmp.{partial_equiv_from_equiv};
    ghost use Rattle.std.specs.Prelude.{◌≡◌, ◌↔◌, IsTrue};
    ghost use Rattle.asn_text.specs.Report.{report_eq, told_by};
    ghost use Rattle.asn_text.specs.Equality.{report_eq_equivalence};

    ghost eq = { report_eq };

    ghost laws = { partial_equiv_from_equiv report_eq_equivalence };

    /// Whether both tell the same.
    fn eq(&self, other: &Self) -> bool
        ensures gives { result ≡ report_eq self.now other.now }
        ensures same { IsTrue result ↔ (told_by self.now ≡ told_by other.now) }
    {
        self.context_start_line == other.context_start_line
            && self.context_start_offset == other.context_start_offset
            && self.line == other.line
            && self.offset == other.offset
            && self.column == other.column
            && self.reason == other.reason
            && self.unexpected_eof == other.unexpected_eof
    }
}

impl Eq for ReportData {
    ghost use Rattle.asn_text.specs.Equality.{report_eq_equivalence};

    ghost laws = { report_eq_equivalence };
}

/// An error of reading a whole text.
#[derive(Clone, Copy, Debug, Error)]
#[error("{kind}")]
pub struct LexerError {
    pub kind: LexerErrorType,
}

impl PartialEq for LexerError {
    ghost use Rattle.std.specs.Cmp.{partial_equiv_from_equiv};
    ghost use Rattle.std.specs.Prelude.{◌≡◌, ◌↔◌, IsTrue};
    ghost use Rattle.asn_text.specs.Report.{error_eq, told_by_error};
    ghost use Rattle.asn_text.specs.Equality.{error_eq_equivalence};

    ghost eq = { error_eq };

    ghost laws = { partial_equiv_from_equiv error_eq_equivalence };

    /// Whether both tell the same.
    fn eq(&self, other: &Self) -> bool
        ensures gives { result ≡ error_eq self.now other.now }
        ensures same { IsTrue result ↔ (told_by_error self.now ≡ told_by_error other.now) }
    {
        self.kind == other.kind
    }
}

impl Eq for LexerError {
    ghost use Rattle.asn_text.specs.Equality.{error_eq_equivalence};

    ghost laws = { error_eq_equivalence };
}

/// The kinds of `LexerError`.
#[derive(Clone, Copy, Debug, Error)]
pub enum LexerErrorType {
    /// The text is none of the grammar.
    #[error("{0}")]
    MatchingError(ReportData),
}

impl PartialEq for LexerErrorType {
    ghost use Rattle.std.specs.Cmp.{partial_equiv_from_equiv};
    ghost use Rattle.std.specs.Prelude.{◌≡◌, ◌↔◌, IsTrue};
    ghost use Rattle.asn_text.specs.Report.{kind_eq, told_by_kind};
    ghost use Rattle.asn_text.specs.Equality.{kind_eq_equivalence};

    ghost eq = { kind_eq };

    ghost laws = { partial_equiv_from_equiv kind_eq_equivalence };

    /// Whether both tell the same.
    fn eq(&self, other: &Self) -> bool
        ensures gives { result ≡ kind_eq self.now other.now }
        ensures same { IsTrue result ↔ (told_by_kind self.now ≡ told_by_kind other.now) }
    {
        let LexerErrorType::MatchingError(one) = self;
        let LexerErrorType::MatchingError(another) = other;
        one == another
    }
}

impl Eq for LexerErrorType {
    ghost use Rattle.asn_text.specs.Equality.{kind_eq_equivalence};

    ghost laws = { kind_eq_equivalence };
}
