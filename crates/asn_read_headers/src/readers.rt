//! The public reader of headers.

ghost use Rattle.asn_read_headers.specs.Headers.{header_of};
ghost use Rattle.asn_read_nodes.specs.Reads.{IsFaultAt, ReadsNode};
ghost use Rattle.asn_rules.specs.declared.names.TheConstants.{MODULE_REFERENCE};
ghost use Rattle.asn_text.specs.Input.{part_of};
ghost use Rattle.asn_text.specs.Part.{shown};
ghost use Rattle.std.specs.Prelude.{◌≡◌, codes, IfErr, IfOk, Some};

use crate::headers::read_header;
use asn_read_nodes::read_node;
use asn_rules::names;
use asn_text::{Input, ParseFault, ParserResult};
use asn_tree_headers::ModuleReference;
use std::alloc::Global;

/// The header of a module, up to its imports: name, identifier, defaults, exports and imports (X.680 13.1). Blanks and
/// comments may stand before it.
///
/// # Errors
///
/// Want of memory aside, `TooDeep` comes exactly where the height of the rule exceeds `depth`, and `Fail` exactly where it
/// does not and the rule fails: a leaf with the input unchanged and the reader's name.
pub fn module_reference<'a>(
    alloc: Global,
    input: Input<'a>,
    depth: usize,
) -> ParserResult<'a, ModuleReference>
    ensures ok { IfOk result (λ read. ReadsNode MODULE_REFERENCE depth (part_of input.entry) (part_of read.0) (λ n. header_of (shown (part_of input.entry)) n ≡ Some read.1)) }
    ensures err { IfErr result (IsFaultAt MODULE_REFERENCE (codes "module_reference") input.entry depth) }
{
    let text = input.inner().as_bytes();
    match read_node(
        alloc,
        input,
        depth,
        names::MODULE_REFERENCE,
        "module_reference",
    ) {
        Ok((rest, node)) => match read_header(alloc, text, &node) {
            Ok(header) => Ok((rest, header)),
            Err(_) => Err(ParseFault::OutOfMemory),
        },
        Err(fault) => Err(fault),
    }
}
