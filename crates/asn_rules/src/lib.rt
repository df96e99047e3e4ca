//! The ordered grammar of ASN.1 as a table of rules, and the interpreter that runs it over a text.
//!
//! It stands on `asn_memory` and `asn_rules_guards`, knows which bytes stand where, and nothing of what they mean. The interpreter
//! here is the plain one, which tries a rule anew wherever it is called and takes no memory: the lexical readers ask it. The
//! packrat table above stands on the same rows, and the readers read types and values off its nodes by the names of [`names`].
#![tactic(auto)]

mod constraint_rules;
mod definition_rules;
mod due;
mod expression;
mod forms;
mod grammar;
mod header_rules;
mod lexical_rules;
mod marks;
pub mod names;
mod node;
mod object_rules;
mod rule_names;
mod rules;
mod run;
mod type_rules;
mod value_rules;
mod whole;

pub use asn_rules_guards::{
    ASN1_KEYWORDS, ByteClass, Guard, Sight, fit_is_exact, is_in_class, is_keyword, is_word_end,
    natural_number, next_bare, reserved_words, whole_number,
};
pub use due::{DuePlace, ModulePart, Piece, due_where_it_fails, one_due_place, pieces};
pub use expression::Expression;
pub use grammar::{Grammar, rule_expression};
pub use marks::Mark;
pub use node::Node;
pub use rule_names::{numbers_are_those_of_names, reader_rule};
pub use rules::{
    RuleId, children_at_characters, ends_at_characters, nodes_stand, one_outcome, one_tree,
    outcome_of, try_rule,
};
pub use run::{MatchFault, Outcome, TooDeep};
