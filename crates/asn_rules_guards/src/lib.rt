//! What a rule of the grammar asks of bytes: classes of bytes, words, and guards on what was taken.
//!
//! It stands below the grammar's table, knows which words are reserved, which numbers fit and which settings a property has, and nothing
//! of rules. No call takes memory.
#![tactic(auto)]

mod asked;
mod enumerations;
mod gaps;
mod guards;
mod lexical;
mod setting_pairs;

pub use asked::{ByteClass, Guard, Sight};
pub use enumerations::fit_is_exact;
pub use gaps::next_bare;
pub use guards::{
    ASN1_KEYWORDS, is_allowed, is_keyword, natural_number, reserved_words, whole_number,
};
pub use lexical::{is_in_class, is_word_end, stands_in, width_of};
