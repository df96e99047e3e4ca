//! Room for the nodes of an instance.

ghost use Rattle.std.specs.Prelude.{◌≡◌, ◌+◌, OnErr, OnOk};

use asn_memory::{Mem, OutOfMemory};
use std::marker::Model;

/// How many more nodes an instance may have: types, members, options, constraints, element sets, elements and listed components.
#[derive(Drop)]
pub struct Room {
    left: usize,
}

impl Model for Room {
    ghost use Rattle.std.specs.Prelude.{ℕ};

    ghost Value = { ℕ };

    ghost view = { λ room. room.left };
}

impl Room {
    /// Room for so many nodes.
    pub fn new(limit: usize) -> Room
        ensures { result ≡ limit }
    {
        Room { left: limit }
    }

    /// Takes the room of one node.
    ///
    /// Err: no room is left.
    pub fn take(&mut self) -> Mem<()>
        ensures ok { OnOk result (self.old ≡ self.new + 1) }
        ensures err { OnErr result ((self.old ≡ 0) × (self.new ≡ 0)) }
    {
        if self.left == 0 {
            return Err(OutOfMemory);
        }
        self.left -= 1;
        Ok(())
    }
}
