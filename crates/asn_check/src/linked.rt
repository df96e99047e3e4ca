//! `Linked`: the answer of linking.

use asn_memory::List;
use asn_tree::{LinkerError, ModuleReference, ToplevelDefinition};

/// A linked answer.
#[derive(Drop)]
pub struct Linked {
    /// The headers of the modules, in order.
    pub modules: List<ModuleReference>,
    /// One definition for each name, in byte order of the names.
    pub definitions: List<ToplevelDefinition>,
    /// The warnings, in byte order of the names they are on; on one name Duplicate comes last.
    pub warnings: List<LinkerError>,
}
