//! `Status`: what a run came to, as the number that the program ends with, and the lines of those that write one.

ghost use Rattle.asn_tool.specs.Status.{number, line};
ghost use Rattle.std.specs.Prelude.{◌≡◌, option_map};

/// What a run came to.
#[derive(Clone, Copy, Debug, PartialEq, Eq)]
pub enum Status {
    /// The listing was written, without a warning.
    Clean,
    /// The listing was written, with a warning.
    Warned,
    /// The text is no valid text.
    Matching,
    /// The text is nested deeper than the depth in force.
    TooDeep,
    /// The text is not UTF-8.
    NotUtf8,
    /// The text has more than 2,097,152 bytes.
    TooLong,
    /// The source failed.
    ReadFault,
    /// The sink failed.
    WriteFault,
    /// The words are of no form that the program has.
    Usage,
    /// Want of memory.
    OutOfMemory,
}

impl Status {
    /// The number that the program ends with, 0 to 9.
    pub fn number(self) -> u8
        ensures { result ≡ number self }
    {
        match self {
            Status::Clean => 0,
            Status::Warned => 1,
            Status::Matching => 2,
            Status::TooDeep => 3,
            Status::NotUtf8 => 4,
            Status::TooLong => 5,
            Status::ReadFault => 6,
            Status::WriteFault => 7,
            Status::Usage => 8,
            Status::OutOfMemory => 9,
        }
    }
}

/// The line that is written under a status, with its line feed; None where no one line stands for it: under Clean and
/// Warned the listing is written, under Matching and TooDeep a line with numbers in it ([`crate::matching_line`],
/// [`crate::depth_line`]), and under WriteFault nothing further.
pub fn error_line(status: Status) -> Option<&'static str>
    ensures { option_map (λ text. text.now) result ≡ line status }
{
    match status {
        Status::NotUtf8 => Some("error utf8\n"),
        Status::TooLong => Some("error long\n"),
        Status::ReadFault => Some("error read\n"),
        Status::Usage => Some("error usage\n"),
        Status::OutOfMemory => Some("error memory\n"),
        Status::Clean => None,
        Status::Warned => None,
        Status::Matching => None,
        Status::TooDeep => None,
        Status::WriteFault => None,
    }
}
