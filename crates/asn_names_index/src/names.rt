//! `Names`: an index of definitions by their names.

ghost use Rattle.asn_names_index.specs.Index.{IsIndexOf};

use asn_memory::{List, Mem, OutOfMemory};
use asn_tree::ToplevelDefinition;
use std::alloc::Global;
use std::collections::BTreeMap;

/// Where the last definition of a name stands, and whether others of the name stand before it.
#[derive(Clone, Copy, Debug, PartialEq, Eq)]
pub struct LastPlace {
    /// Its number in the list, from 0.
    pub at: usize,
    pub is_repeated: bool,
}

/// An index of definitions by their names, which borrows them.
#[derive(Drop)]
pub struct Names<'t> {
    pub(crate) definitions: &'t List<ToplevelDefinition>,
    pub(crate) index: BTreeMap<String, LastPlace>,
    ghost is_index: { IsIndexOf definitions.now index },
}
