//! Rows of tests, the lines that tell what a row comes to, and what programs of rows share.
//!
//! Programs of rows stand on it: each takes rows or texts from standard input and writes an answer to each, and what they write is
//! compared with their file `stdout`. A row is data, so that a test more costs no proof. `programs` has what all of them do with
//! their input and their answers, `fields` the fields of a row, `answers` the beginning and the end of lines, `faults` the line of a
//! reader that gives nothing.
#![tactic(auto)]

mod answers;
mod faults;
mod fields;
mod programs;

pub use answers::{
    begun, ended, push_answer, push_count, push_decimal, push_flag, push_line, push_number,
};
pub use faults::{fault_line, fault_name};
pub use fields::fields_of;
pub use programs::{Answers, answer_rows, answer_text, answer_texts, question_of};
