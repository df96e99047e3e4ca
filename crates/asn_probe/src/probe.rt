//! A text that is seen one byte at a time, and a counter of looks.

ghost use Rattle.std.specs.Prelude.{◌≡◌, ◌+◌, ◌<◌, ℕ, List, length, slice_index};

use std::marker::Model;
use std::sync::ledger::{Blank, Book, Ledger, Share};

/// How many looks were taken. It takes no memory, and only `tick` changes it.
#[derive(Drop)]
pub struct Steps<L: Ledger> {
    book: Book<L>,
    share: Share<L>,
}

impl<L: Ledger> Model for Steps<L> {
    ghost Value = { ℕ };

    ghost view = { λ s. s.book.total };

    ghost invariant = { λ s. 0 < s.share.parts };
}

impl<L: Ledger> Steps<L> {
    /// A counter at nothing.
    pub fn new(blank: Blank) -> Steps<L>
        requires name { blank.name ≡ L.name }
        requires parts { blank.parts ≡ L.parts }
        requires some { 0 < blank.parts }
        ensures { result ≡ 0 }
    {
        let (book, share) = blank.open::<L>();
        Steps { book, share }
    }

    /// One more.
    pub fn tick(&mut self)
        ensures { self.new ≡ self.old + 1 }
    {
        self.book.add(&mut self.share, 1);
    }
}

/// A text that shows a byte at a look, and nothing else of itself but its length in bytes.
#[derive(Drop)]
pub struct Probe<'a> {
    text: &'a str,
}

impl<'a> Model for Probe<'a> {
    ghost Value = { List ℕ };

    ghost view = { λ p. p.text.now };
}

impl<'a> Probe<'a> {
    /// The text, of which nothing was seen yet.
    pub fn new(text: &'a str) -> Probe<'a>
        ensures { result ≡ text.now }
    {
        Probe { text }
    }

    /// How many bytes the text has.
    pub fn len(&self) -> usize
        ensures { result ≡ length self.now }
    {
        self.text.len()
    }

    /// The byte at this offset, counted from 0, at one look.
    pub fn byte<L: Ledger>(&self, i: usize, steps: &mut Steps<L>) -> u8
        requires { i < length self.now }
        ensures value { result ≡ slice_index self.now i }
        ensures tick { steps.new ≡ steps.old + 1 }
    {
        steps.tick();
        self.text.as_bytes()[i]
    }
}
