//! What the notation says of a tree by itself: definitions, and no code.
//!
//! A room above the trees, for all rooms that cite these definitions: what types are called and which constraints they
//! have (specs/Types), paths of fields (specs/Paths), the characters of the character string types (specs/Strings), and
//! the own syntax of a class (specs/Syntax). The calls that compute them stand in asn_calls.
#![tactic(auto)]
