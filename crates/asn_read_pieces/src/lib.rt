//! The readers of what types, constraints and classes hold beside types, values and constraints: tags, words, named
//! numbers, items of enumerations, names of fields, relations, patterns, settings, and the syntax of a class.
//!
//! It stands on the nodes and what the smallest of them spell, and on the trees that lead to no type, so that it never
//! owns one of those. The readers of types above call the readers of nodes; those of `readers.rt` are called by name.
#![tactic(auto)]

mod built;
mod constraints;
mod enumerations;
mod fields;
mod numbers;
mod readers;
mod settings;
mod syntax;
mod tags;
mod types;
mod words;

pub use built::asn_tag_at;
pub use constraints::{read_brace_text, read_pattern, read_relations, read_user_defined};
pub use enumerations::{WrittenItem, read_item_comment, read_items};
pub use fields::{
    read_class_name, read_component_path, read_field, read_field_path, read_literal_word,
    read_syntax_literal,
};
pub use numbers::{read_distinguished, read_distinguished_values};
pub use readers::{
    asn_tag, distinguished_val, distinguished_values, optional_marker, set_operator,
};
pub use settings::read_settings;
pub use syntax::read_syntax;
pub use tags::read_tag;
pub use types::{read_group_name, read_selection};
pub use words::{
    is_extensible, is_high_open, is_low_open, is_partial, is_unique, read_extension, read_operator,
    read_optional, read_presence, read_string_type,
};
