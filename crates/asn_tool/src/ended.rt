//! `Ended`: what a run answers.

use crate::status::Status;
use asn_check::Linked;
use asn_tree::Reading;

/// What a run came to, with the trees that it made.
#[derive(Drop)]
pub struct Ended {
    pub status: Status,
    /// The reading of the text, where one was made and what was to be written is no error line.
    pub reading: Option<Reading>,
    /// The linked answer of that reading.
    pub linked: Option<Linked>,
}
