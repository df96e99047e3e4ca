//! The instances of all definitions: what linking makes of each type definition without parameters, with fewer steps and levels for one
//! that leads to a circle, and nothing of one that is given as read.
//!
//! A room above the instance of one type (asn_link_types). Which of them can be linked together asn_link_closed tells.
#![tactic(auto)]

mod laws;
mod linked;
mod making;
mod tags;
mod ways;

pub use laws::made_are_instances;
pub use linked::{LinkedTypes, link_types};
pub use making::{Limits, make_types};
pub use ways::Way;
