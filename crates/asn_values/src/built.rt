//! The trees of values at offsets of a packrat table.
//!
//! Each asks for a table of the text in which each entry is right and all that was tried for an entry has one, as
//! `match_rule` of asn_match answers it, and for an offset, in bytes from the start of the text, where its rule has ended. It
//! tries nothing.

ghost use Rattle.asn_read_nodes.specs.Identifiers.{arcs_of};
ghost use Rattle.asn_read_nodes.specs.Reads.{BuiltAt, Offers};
ghost use Rattle.asn_rules.specs.declared.names.TheConstants.{ASN1_VALUE, OBJECT_IDENTIFIER_VALUE};
ghost use Rattle.asn_values.specs.Braces.{value_of};
ghost use Rattle.std.specs.Prelude.{◌≡◌, IfOk, Some};

use crate::braces::read_value;
use asn_match::MatchTable;
use asn_memory::Mem;
use asn_read_nodes::{node_at, read_object_identifier};
use asn_rules::names;
use asn_tree::ASN1Value;
use asn_tree_headers::ObjectIdentifierValue;
use std::alloc::Global;

/// The value of any form that stands there (X.680 17.7).
pub fn asn1_value_at(alloc: Global, text: &str, table: &MatchTable, offset: usize) -> Mem<ASN1Value>
    requires { Offers text.now table.now ASN1_VALUE offset }
    ensures { IfOk result (λ made. BuiltAt ASN1_VALUE text.now offset (λ n. value_of text.now n ≡ Some made)) }
{
    match node_at(alloc, text, table, names::ASN1_VALUE, offset) {
        Ok(node) => match read_value(alloc, text.as_bytes(), &node) {
            Ok(made) => Ok(made),
            Err(fault) => Err(fault),
        },
        Err(fault) => Err(fault),
    }
}

/// The arcs of the object identifier that stands there (X.680 32.3).
pub fn object_identifier_value_at(
    alloc: Global,
    text: &str,
    table: &MatchTable,
    offset: usize,
) -> Mem<ObjectIdentifierValue>
    requires { Offers text.now table.now OBJECT_IDENTIFIER_VALUE offset }
    ensures { IfOk result (λ made. BuiltAt OBJECT_IDENTIFIER_VALUE text.now offset (λ n. arcs_of text.now n ≡ Some made.0)) }
{
    match node_at(alloc, text, table, names::OBJECT_IDENTIFIER_VALUE, offset) {
        Ok(node) => match read_object_identifier(alloc, text.as_bytes(), &node) {
            Ok(made) => Ok(made),
            Err(fault) => Err(fault),
        },
        Err(fault) => Err(fault),
    }
}
