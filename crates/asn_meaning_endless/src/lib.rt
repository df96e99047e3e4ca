//! Look-ups that never settle: names that come back to themselves, so that no number of steps shows what they stand for, whatever
//! the arguments of a template are.
//!
//! What happens in a template before a dummy reference is asked for happens under all arguments (X.683 8.4, 9.7). So the template is
//! followed in the scope of its dummy references without arguments, and where its name is met again on the way, it is met again under
//! all arguments, also where these grow at each turn, as in `G {X} ::= W {G {SEQUENCE OF X}}`.
//!
//! It stands on what the notation means (asn_meaning) and on what is followed (asn_needs). Nothing stands on it yet. The definitions
//! stand in specs/; this crate has no code but the laws.
#![tactic(auto)]

mod laws;

pub use laws::{
    arrival_once_round, asked_again_treeless, comes_back_headless, comes_back_unhung,
    followed_once_round, includes_memberless, name_asks,
};
