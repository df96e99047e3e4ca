//! The bits of a hexadecimal digit, of which a value in hexadecimal notation is made.

ghost use Rattle.std.specs.Prelude.{◌≡◌};
ghost use Rattle.asn_text.specs.Bits.{bits_of_digit, hex_value, bits_of};

/// The four bits of a capital hexadecimal digit, the highest first (X.680 22.10); four times false for any other
/// character.
pub fn hex_to_bools(c: char) -> [bool; 4]
    ensures { result ≡ bits_of_digit c }
{
    bits(value_of(c))
}

/// The number of a capital hexadecimal digit; 0 for any other character.
fn value_of(c: char) -> u8
    ensures { result ≡ hex_value c }
{
    match c {
        '0'..='9' => c as u8 - b'0',
        'A'..='F' => c as u8 - b'A' + 10,
        _ => 0,
    }
}

/// The four lowest bits of a number, the highest first.
fn bits(value: u8) -> [bool; 4]
    ensures { result ≡ bits_of value }
{
    [
        value / 8 % 2 == 1,
        value / 4 % 2 == 1,
        value / 2 % 2 == 1,
        value % 2 == 1,
    ]
}
