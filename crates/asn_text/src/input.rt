//! `Input`: a part of a source text that knows its place in it.

ghost use Rattle.std.specs.Prelude.{◌≡◌, ◌≤◌, length};
ghost use Rattle.std.specs.Str.{IsCharBoundary};
ghost use Rattle.asn_text.specs.Position.{line_at, column_at};

use crate::place::{Place, place_after};

/// A part of a source text with its position, and the start of the context that it is read in. Offsets are in bytes
/// from 0; lines and columns are counted from 1, columns in bytes.
#[derive(Clone, Copy, Debug)]
pub struct Input<'a> {
    source: &'a str,
    offset: usize,
    end: usize,
    line: usize,
    column: usize,
    context_start_line: usize,
    context_start_offset: usize,
    ghost ordered: { offset ≤ end },
    ghost start_on_boundary: { IsCharBoundary source.now offset },
    ghost end_on_boundary: { IsCharBoundary source.now end },
    ghost line_counted: { line ≡ line_at source.now offset },
    ghost column_counted: { column ≡ column_at source.now offset },
}

impl<'a> From<&'a str> for Input<'a> {
    ghost use Rattle.std.specs.Prelude.{◌≡◌};
    ghost use Rattle.asn_text.specs.Input.{part_of};
    ghost use Rattle.asn_text.specs.Part.{whole};

    ghost from_gives = { λ text input. part_of input ≡ whole text.now };

    /// The whole text, at line 1, column 1 and offset 0, where its context begins too.
    fn from(source: &'a str) -> Input<'a> {
        Input {
            source,
            offset: 0,
            end: source.len(),
            line: 1,
            column: 1,
            context_start_line: 1,
            context_start_offset: 0,
        }
    }
}

impl PartialEq for Input<'_> {
    ghost use Rattle.std.specs.Cmp.{partial_equiv_from_equiv};
    ghost use Rattle.std.specs.Prelude.{◌≡◌, ◌↔◌, IsTrue};
    ghost use Rattle.asn_text.specs.Input.{part_of, input_eq};
    ghost use Rattle.asn_text.specs.Equality.{input_eq_equivalence};

    ghost eq = { input_eq };

    ghost laws = { partial_equiv_from_equiv input_eq_equivalence };

    /// Whether both show the same part, with the same context.
    fn eq(&self, other: &Self) -> bool
        ensures gives { result ≡ input_eq self.now other.now }
        ensures same { IsTrue result ↔ (part_of self.now ≡ part_of other.now) }
    {
        self.source == other.source
            && self.offset == other.offset
            && self.end == other.end
            && self.context_start_line == other.context_start_line
            && self.context_start_offset == other.context_start_offset
    }
}

impl Eq for Input<'_> {
    ghost use Rattle.asn_text.specs.Equality.{input_eq_equivalence};

    ghost laws = { input_eq_equivalence };
}

impl<'a> Input<'a> {
    ghost use Rattle.std.specs.Prelude.{◌≡◌, ◌+◌, nat_eq, length, drop, take};
    ghost use Rattle.std.specs.Str.{IsCharBoundary};
    ghost use Rattle.asn_text.specs.Position.{line_at, column_at};
    ghost use Rattle.asn_text.specs.Input.{part_of};
    ghost use Rattle.asn_text.specs.Part.{shown, part_from, part_to, in_own_context};

    /// The bytes that the input shows.
    pub fn into_inner(self) -> &'a str
        ensures { result.now ≡ shown (part_of self.entry) }
    {
        &self.source[self.offset..self.end]
    }

    /// The bytes that the input shows.
    pub fn inner(&self) -> &'a str
        ensures { result.now ≡ shown (part_of self.now) }
    {
        &self.source[self.offset..self.end]
    }

    /// How many bytes the input shows.
    pub fn len(&self) -> usize
        ensures { result ≡ length (shown (part_of self.now)) }
    {
        self.end - self.offset
    }

    /// Whether the input shows no bytes.
    pub fn is_empty(&self) -> bool
        ensures { result ≡ nat_eq (length (shown (part_of self.now))) 0 }
    {
        self.offset == self.end
    }

    /// The line of the first byte, counted from 1.
    pub fn line(&self) -> usize
        ensures { let part = part_of self.now in result ≡ line_at part.source part.start }
    {
        self.line
    }

    /// The column of the first byte in its line, counted in bytes from 1.
    pub fn column(&self) -> usize
        ensures { let part = part_of self.now in result ≡ column_at part.source part.start }
    {
        self.column
    }

    /// The offset of the first byte in the source text, in bytes from 0.
    pub fn offset(&self) -> usize
        ensures { result ≡ (part_of self.now).start }
    {
        self.offset
    }

    /// The line where the context begins, counted from 1.
    pub fn context_start_line(&self) -> usize
        ensures { result ≡ (part_of self.now).context_line }
    {
        self.context_start_line
    }

    /// The offset in the source text where the context begins, in bytes from 0.
    pub fn context_start_offset(&self) -> usize
        ensures { result ≡ (part_of self.now).context_start }
    {
        self.context_start_offset
    }

    /// Begins the context here, at this input's line and offset.
    pub fn reset_context(&mut self)
        ensures { part_of self.new ≡ in_own_context (part_of self.old) }
    {
        self.context_start_line = self.line;
        self.context_start_offset = self.offset;
    }

    /// What follows the first `n` bytes, with its position, in the same context. `inner().is_char_boundary(n)` tells
    /// whether it may be asked for.
    pub fn slice_from(&self, n: usize) -> Input<'a>
        requires { IsCharBoundary (shown (part_of self.now)) n }
        ensures part { part_of result ≡ part_from n (part_of self.now) }
        ensures rest { shown (part_of result) ≡ drop n (shown (part_of self.now)) }
    {
        let first = Place {
            line: self.line,
            column: self.column,
        };
        let offset = self.offset + n;
        let place = place_after(self.source.as_bytes(), first, self.offset, offset);
        Input {
            source: self.source,
            offset,
            end: self.end,
            line: place.line,
            column: place.column,
            context_start_line: self.context_start_line,
            context_start_offset: self.context_start_offset,
        }
    }

    /// A law: what follows `first` bytes, and then `second` bytes of that, is what follows their sum.
    pub fn slice_from_adds(&self, first: usize, second: usize)
        requires first_within { IsCharBoundary (shown (part_of self.now)) first }
        requires second_within { IsCharBoundary (drop first (shown (part_of self.now))) second }
        ensures sum_within { IsCharBoundary (shown (part_of self.now)) (first + second) }
        ensures same { let part = part_of self.now in
            part_from second (part_from first part) ≡ part_from (first + second) part }
    {}

    /// The first `n` bytes, at this input's position and in its context. `inner().is_char_boundary(n)` tells whether
    /// they may be asked for.
    pub fn slice_to(&self, n: usize) -> Input<'a>
        requires { IsCharBoundary (shown (part_of self.now)) n }
        ensures part { part_of result ≡ part_to n (part_of self.now) }
        ensures first { shown (part_of result) ≡ take n (shown (part_of self.now)) }
    {
        let mut first = *self;
        first.end = self.offset + n;
        first
    }
}
