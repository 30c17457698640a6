//! The number that digits write.

ghost use Rattle.std.specs.Prelude.{◌≡◌, ◌≤◌};
ghost use Rattle.std.specs.Char.{digit_value};
ghost use Rattle.affine_text.specs.Feeding.{number_of};

/// A digit's value. As in the definition of the number that a text writes, a letter has the value
/// that bases above 10 give it, and any other byte 36.
fn digit_value(byte: u8) -> u64
    ensures value { result ≡ digit_value byte }
    ensures small { result ≤ 36 }
{
    if byte < b'0' {
        36
    } else if byte <= b'9' {
        (byte - b'0') as u64
    } else if byte < b'A' {
        36
    } else if byte <= b'Z' {
        (byte - b'A') as u64 + 10
    } else if byte < b'a' {
        36
    } else if byte <= b'z' {
        (byte - b'a') as u64 + 10
    } else {
        36
    }
}

/// The number that the digits write. None: it is above 2^31.
pub fn number_of(digits: &[u8]) -> Option<u64>
    ensures { result ≡ number_of digits.now }
{
    let mut number = 0u64;
    for digit in digits {
        number = number * 10 + digit_value(*digit);
        if number > 1 << 31 {
            return None;
        }
    }
    Some(number)
}
