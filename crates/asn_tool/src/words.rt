//! The words that the program is given.

ghost use Rattle.asn_tool.specs.Words.{at_most_greatest, depth_of, spelled_depth, starts_above_zero};
ghost use Rattle.std.specs.Prelude.{◌≡◌};

/// How deep the calls of the grammar's rules may lie within each other, where the words name no depth.
pub(crate) const DEFAULT_DEPTH: usize = 512;

/// The greatest depth that the words may name.
pub(crate) const GREATEST_DEPTH: usize = 2000;

/// The depth that the words ask for: 512 for `link`, and N for `link --depth N` with N from 1 to 2000 in plain decimal
/// digits, without a sign or a leading zero. None for all other words.
pub(crate) fn depth_of(words: &[String]) -> Option<usize>
    ensures { result ≡ depth_of words.now }
{
    match words {
        [command] if command.as_str() == "link" => Some(DEFAULT_DEPTH),
        [command, option, number] if command.as_str() == "link" && option.as_str() == "--depth" => {
            spelled_depth(number.as_str())
        }
        _ => None,
    }
}

/// The depth that plain decimal digits spell. None where the word is anything else, or spells more than the greatest.
fn spelled_depth(word: &str) -> Option<usize>
    ensures { result ≡ spelled_depth word.now }
{
    if !starts_above_zero(word.as_bytes()) {
        return None;
    }
    match word.parse::<usize>() {
        Ok(depth) => at_most_greatest(depth),
        Err(_) => None,
    }
}

/// The depth, where it is not too great.
fn at_most_greatest(depth: usize) -> Option<usize>
    ensures { result ≡ at_most_greatest depth }
{
    if depth <= GREATEST_DEPTH {
        Some(depth)
    } else {
        None
    }
}

/// Whether the first byte is one of the digits 1 to 9.
fn starts_above_zero(bytes: &[u8]) -> bool
    ensures { result ≡ starts_above_zero bytes.now }
{
    match bytes {
        [first, ..] => b'1' <= *first && *first <= b'9',
        [] => false,
    }
}
