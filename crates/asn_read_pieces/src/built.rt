//! The tag at an offset of a packrat table.
//!
//! Each asks for a table of the text in which each entry is right and all that was tried for an entry has one, as
//! `match_rule` of asn_match answers it, and for an offset, in bytes from the start of the text, where its rule has ended. It
//! tries nothing.

ghost use Rattle.asn_read_nodes.specs.Reads.{BuiltAt, Offers};
ghost use Rattle.asn_read_pieces.specs.Tags.{tag_of};
ghost use Rattle.asn_rules.specs.declared.names.TheConstants.{ASN_TAG};
ghost use Rattle.std.specs.Prelude.{◌≡◌, IfOk, Some};

use crate::tags::read_tag;
use asn_match::MatchTable;
use asn_memory::Mem;
use asn_read_nodes::node_at;
use asn_rules::names;
use asn_tree_headers::AsnTag;
use std::alloc::Global;

/// The tag that stands there: class, number and environment (X.680 31.2).
pub fn asn_tag_at(alloc: Global, text: &str, table: &MatchTable, offset: usize) -> Mem<AsnTag>
    requires { Offers text.now table.now ASN_TAG offset }
    ensures { IfOk result (λ made. BuiltAt ASN_TAG text.now offset (λ n. tag_of text.now n ≡ Some made)) }
{
    match node_at(alloc, text, table, names::ASN_TAG, offset) {
        Ok(node) => Ok(read_tag(text.as_bytes(), &node)),
        Err(fault) => Err(fault),
    }
}
