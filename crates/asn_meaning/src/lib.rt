//! What the notation means: which definition a name stands for under a scope, what a value denotes under a type, and
//! which value trees a type accepts.
//!
//! It stands on the trees and rewrites nothing: names are looked up, one tree at a time is judged. The definitions
//! stand in specs/, where the layers above cite them; this crate has no code but the laws.
#![tactic(auto)]

mod laws;

pub use laws::{
    accepted_fits, bounds_exact, denoted_fits, denoted_stays, environments_change_tags, heads_stay,
    more_steps, numbers_agree, one_answer, retagged_types_mean_the_same, same_trees_judge_alike,
    shapes_stay, tags_denote_alike, tags_judge_alike, tags_keep_plain_form, tags_lead_alike,
};
