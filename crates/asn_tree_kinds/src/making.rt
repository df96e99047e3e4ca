//! Making of parts what the kinds of types, constraints and objects hold.

mod constraints;
mod objects;
mod types;
