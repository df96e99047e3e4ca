//! A stack of numbers, seen by contracts as a list whose first number is the top.

ghost use Rattle.std.specs.Prelude.{◌≡◌, [], ◌∷◌, OnOk};
ghost use Rattle.asn_names_graph.specs.inner.State.{top_of, under};

use asn_memory::Mem;
use std::alloc::Global;
use std::marker::Model;

#[derive(Drop)]
pub(crate) struct Stack {
    items: Vec<usize>,
}

impl Model for Stack {
    ghost use Rattle.std.specs.Prelude.{List, ℕ, reverse};

    ghost Value = { List ℕ };

    ghost view = { λ s. reverse s.items.items };
}

impl Stack {
    // The empty stack.
    pub(crate) fn new(alloc: Global) -> Stack
        ensures { result ≡ [] }
    {
        Stack {
            items: Vec::new(alloc),
        }
    }

    // Puts a number on top.
    pub(crate) fn push(&mut self, number: usize) -> Mem<()>
        ensures { OnOk result (self.new ≡ number ∷ self.old) }
    {
        self.items.push(number)?;
        Ok(())
    }

    // The top; None of the empty stack.
    pub(crate) fn top(&self) -> Option<usize>
        ensures { result ≡ top_of self.now }
    {
        self.items.last().copied()
    }

    // Takes the top away.
    pub(crate) fn pop(&mut self)
        ensures { self.new ≡ under self.old }
    {
        let _ = self.items.pop();
    }
}
