//! The readers of definitions, of modules and of whole texts.
//!
//! It stands on the readers of headers, types, values, constraints and objects, and reads no outcome: each reader is a
//! function of a node. The public readers read the rule of their name where an input begins; [`asn_spec`] reads a whole
//! text by the table of the whole of ASN.1.
#![tactic(auto)]

mod headings;
mod information;
mod modules;
mod readers;
mod types;
mod values;
mod whole;

pub use asn_read_headers::module_reference;
pub use asn_read_nodes::SpecError;
pub use readers::{
    asn_module, enumerated_value, top_level_information_declaration, top_level_type_declaration,
    top_level_value_declaration,
};
pub use whole::{asn_spec, one_reading};
