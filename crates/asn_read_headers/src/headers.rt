//! The headers of modules.

ghost use Rattle.asn_read_headers.specs.Headers.{header_of};
ghost use Rattle.asn_read_headers.specs.Identifiers.{definitive_of};
ghost use Rattle.asn_read_headers.specs.Symbols.{exports_of};
ghost use Rattle.asn_read_nodes.specs.Parts.{if_there};
ghost use Rattle.asn_rules.specs.Children.{Is};
ghost use Rattle.asn_rules.specs.Nodes.{child_of};
ghost use Rattle.asn_rules.specs.Whole.{whole_rules};
ghost use Rattle.asn_rules.specs.declared.names.TheConstants.{DEFINITIVE, EXPORTS, MODULE_REFERENCE};
ghost use Rattle.std.specs.Prelude.{◌≡◌, IfOk, Some};

use crate::defaults::read_environments;
use crate::identifiers::read_definitive;
use crate::imports::read_imports;
use crate::symbols::read_exports;
use asn_memory::Mem;
use asn_read_nodes::read_name;
use asn_rules::{Node, names};
use asn_tree_headers::{DefinitiveIdentifier, Exports, ModuleReference};
use std::alloc::Global;

/// The identifier of a module, where one stands.
fn read_identifier_in(alloc: Global, text: &[u8], node: &Node) -> Mem<Option<DefinitiveIdentifier>>
    requires { Is whole_rules text.now MODULE_REFERENCE node.now }
    ensures { IfOk result (λ identifier. if_there (child_of node.now DEFINITIVE) (definitive_of text.now) ≡ Some identifier) }
{
    match node.child(names::DEFINITIVE) {
        Some(identifier) => Ok(Some(read_definitive(alloc, text, identifier)?)),
        None => Ok(None),
    }
}

/// The exports of a module, where EXPORTS stands.
fn read_exports_in(alloc: Global, text: &[u8], node: &Node) -> Mem<Option<Exports>>
    requires { Is whole_rules text.now MODULE_REFERENCE node.now }
    ensures { IfOk result (λ exports. if_there (child_of node.now EXPORTS) (exports_of text.now) ≡ Some exports) }
{
    match node.child(names::EXPORTS) {
        Some(exports) => Ok(Some(read_exports(alloc, text, exports)?)),
        None => Ok(None),
    }
}

/// The header of a module: its name, its identifier, its defaults, its exports where EXPORTS stands, and its imports (X.680
/// 13.1).
#[tactic(auto, using(crate::proofs::Views::header_has_name, crate::proofs::Views::header_has_environments, asn_read_nodes::proofs::Views::identifier_has_blanks))]
pub fn read_header(alloc: Global, text: &[u8], node: &Node) -> Mem<ModuleReference>
    requires { Is whole_rules text.now MODULE_REFERENCE node.now }
    ensures { IfOk result (λ header. header_of text.now node.now ≡ Some header) }
{
    let name = read_name(alloc, text, node.the_child(names::IDENTIFIER))?;
    let module_identifier = read_identifier_in(alloc, text, node)?;
    let (encoding_reference_default, tagging_environment, extensibility_environment) =
        read_environments(alloc, text, node.the_child(names::ENVIRONMENTS))?;
    let exports = read_exports_in(alloc, text, node)?;
    let imports = read_imports(alloc, text, node)?;
    Ok(ModuleReference {
        name,
        module_identifier,
        encoding_reference_default,
        tagging_environment,
        extensibility_environment,
        imports,
        exports,
    })
}
