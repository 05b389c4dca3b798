//! The number of a shift: 1 to 20 digits, up to the largest number of 64 bits.
ghost use Rattle.std.specs.Prelude.{◌≡◌};
ghost use Rattle.input.specs.Number.{with_digit, number};

/// The number with one digit more, or none where the byte is no digit or the number grows too large.
fn with_digit(value: u64, byte: u8) -> Option<u64>
    ensures { result ≡ with_digit value byte }
{
    match byte {
        b'0'..=b'9' => value.checked_mul(10)?.checked_add(u64::from(byte - b'0')),
        _ => None,
    }
}

/// The number that the digits write, or none where they write none: no `parse`, which takes a sign and more zeros.
pub fn read_number(digits: &[u8]) -> Option<u64>
    ensures { result ≡ number digits.now }
{
    if digits.is_empty() || digits.len() > 20 {
        return None;
    }
    let mut value = 0;
    for byte in digits {
        value = with_digit(value, *byte)?;
    }
    Some(value)
}
