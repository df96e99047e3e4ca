//! Lines and columns, counted over the bytes of a text.
//!
//! `Input` and `ReportData` ask here; nothing here knows of either.

ghost use Rattle.std.specs.Prelude.{◌≡◌, ◌≤◌, length};
ghost use Rattle.asn_text.specs.Position.{line_at, column_at};

/// A place in a text: its line and its column, both counted from 1, the column in bytes.
#[derive(Clone, Copy, Debug)]
pub struct Place {
    pub line: usize,
    pub column: usize,
}

/// The place of the byte at `offset`.
pub fn place_of(text: &[u8], offset: usize) -> Place
    requires { offset ≤ length text.now }
    ensures line { result.line ≡ line_at text.now offset }
    ensures column { result.column ≡ column_at text.now offset }
{
    place_after(text, Place { line: 1, column: 1 }, 0, offset)
}

/// The place of the byte at `end`, counted on from the place `first` of the byte at `start`.
pub fn place_after(text: &[u8], first: Place, start: usize, end: usize) -> Place
    requires ordered { start ≤ end }
    requires within { end ≤ length text.now }
    requires line { first.line ≡ line_at text.now start }
    requires column { first.column ≡ column_at text.now start }
    ensures line { result.line ≡ line_at text.now end }
    ensures column { result.column ≡ column_at text.now end }
{
    let mut line = first.line;
    let mut column = first.column;
    for byte in &text[start..end] {
        if *byte == b'\n' {
            line += 1;
            column = 1;
        } else {
            column += 1;
        }
    }
    Place { line, column }
}
