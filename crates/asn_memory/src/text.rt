//! `Text`: an owned string, seen by contracts as the list of its bytes.

ghost use Rattle.std.specs.Cmp.Lexicographic.{pointwise, nat_list_cmp_total, nat_list_eq_equiv, slice_cmp, texts_po, texts_ties};
ghost use Rattle.std.specs.Cmp.{partial_equiv_from_equiv};
ghost use Rattle.std.specs.Ordering.{nat_cmp};
ghost use Rattle.std.specs.Prelude.{◌≡◌, ◌++◌, nat_eq, length, IfOk, OnOk, OnErr, Some, refl};
ghost use Rattle.std.specs.Str.Lossy.{utf8_lossy};

use crate::memory::Mem;
use std::alloc::{AllocError, Global};
use std::cmp::Ordering;
use std::fmt;
use std::marker::Model;

/// A `String` that contracts see as the list of its bytes. It keeps its allocator.
#[derive(Drop)]
pub struct Text {
    text: String,
}

impl Model for Text {
    ghost use Rattle.std.specs.Prelude.{List, ℕ, string_bytes};

    ghost Value = { List ℕ };

    ghost view = { λ t. string_bytes t.text };
}

impl Text {
    /// A text with the bytes of `s`.
    pub fn new(alloc: Global, s: &str) -> Mem<Text>
        ensures { IfOk result (λ t. t ≡ s.now) }
    {
        let mut text = String::new(alloc);
        text.push_str(s)?;
        Ok(Text { text })
    }

    /// The text that the bytes are in UTF-8. Bytes that are no UTF-8 become U+FFFD, as in `String::from_utf8_lossy`.
    pub fn from_bytes(alloc: Global, bytes: &[u8]) -> Mem<Text>
        ensures { IfOk result (λ t. t ≡ utf8_lossy bytes.now) }
    {
        Ok(Text {
            text: String::from_utf8_lossy(alloc, bytes)?,
        })
    }

    /// The text as a string slice.
    pub fn as_str(&self) -> &str
        ensures { result.now ≡ self.now }
    {
        self.text.as_str()
    }

    /// How many bytes the text has.
    pub fn len(&self) -> usize
        ensures { result ≡ length self.now }
    {
        self.text.len()
    }

    /// Whether the text has no bytes.
    pub fn is_empty(&self) -> bool
        ensures { result ≡ nat_eq (length self.now) 0 }
    {
        self.text.len() == 0
    }

    /// Adds `s` at the end. After a refusal the text is as before.
    pub fn push_str(&mut self, s: &str) -> Mem<()>
        ensures ok { OnOk result (self.new ≡ self.old ++ s.now) }
        ensures err { OnErr result (self.new ≡ self.old) }
    {
        self.text.push_str(s)?;
        Ok(())
    }
}

impl PartialEq for Text {
    ghost eq = { pointwise nat_eq };

    ghost laws = { partial_equiv_from_equiv nat_list_eq_equiv };

    fn eq(&self, other: &Self) -> bool {
        self.text.as_str() == other.text.as_str()
    }
}

impl Eq for Text {
    ghost laws = { nat_list_eq_equiv };
}

/// Byte order, as `str` has it.
impl PartialOrd for Text {
    ghost partial_cmp = { λ x y. Some (slice_cmp nat_cmp x y) };

    ghost laws = { texts_po };

    fn partial_cmp(&self, other: &Text) -> Option<Ordering> {
        Some(self.text.as_str().cmp(other.text.as_str()))
    }
}

impl Ord for Text {
    ghost cmp = { λ x y. slice_cmp nat_cmp x y };

    ghost total = { nat_list_cmp_total };

    ghost matches_partial_cmp = { λ x y. refl };

    ghost matches_eq = { λ x y. texts_ties x y };

    fn cmp(&self, other: &Text) -> Ordering {
        self.text.as_str().cmp(other.text.as_str())
    }
}

impl fmt::Debug for Text {
    fn fmt<W: fmt::Write>(&self, f: &mut fmt::Formatter<W>) -> fmt::Result {
        fmt::Debug::fmt(self.text.as_str(), f)
    }
}

impl Clone for Text {
    ghost is_clone = { λ s copy. copy ≡ s };

    fn clone(&self) -> Result<Text, AllocError> {
        let text = self.text.clone()?;
        Ok(Text { text })
    }
}
