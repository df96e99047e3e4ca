//! The lines of the copy of a reading: of the header of each module and of each of its definitions, in the order of the text; or the line
//! of why nothing was read, as the program `link` tells it.

use asn_copy::copy_reading;
use asn_memory::{Mem, Text};
use asn_read_nodes::SpecError;
use asn_tree::Reading;
use rows_trees::{TellsModules, write_error, write_reading};
use std::alloc::Global;

/// What is told of copies.
#[derive(Clone, Copy)]
pub(crate) struct Copies;

impl TellsModules for Copies {
    fn tell(&self, alloc: Global, out: &mut Text, modules: &mut Reading) -> Mem<()> {
        write_reading(alloc, out, copy_reading(alloc, modules))
    }

    fn tell_error(&self, alloc: Global, out: &mut Text, error: &SpecError) -> Mem<()> {
        write_error(alloc, out, error)
    }
}
