// Numbers in decimal digits.
ghost use Rattle.std.specs.Prelude.{◌≡◌, ◌+◌, ◌-◌, ◌*◌, ◌^◌, ◌&&◌, if◌then◌else◌, Some, None, nat_lt};
ghost use Rattle.std.specs.Char.{is_ascii_digit};
ghost use Rattle.text.specs.Line.{number_of};

// The number with one more digit, if the byte is a digit and the number fits.
fn push_digit(value: u64, byte: u8) -> Option<u64>
    ensures { result ≡ (if is_ascii_digit byte && nat_lt (value * 10 + (byte - 48)) (2 ^ 64) then Some (value * 10 + (byte - 48)) else None) }
{
    if !byte.is_ascii_digit() {
        return None;
    }
    value.checked_mul(10)?.checked_add(u64::from(byte - b'0'))
}

// The number that a word of digits writes, if it is at most `limit`.
pub fn parse_number(word: &[u8], limit: u64) -> Option<u64>
    ensures { result ≡ number_of limit word.now }
{
    if word.is_empty() {
        return None;
    }
    // Digit by digit: the library's `parse` takes a sign, so a test of the digits and a `str` would come before it.
    let mut value = 0;
    for byte in word {
        value = push_digit(value, *byte)?;
    }
    if value <= limit { Some(value) } else { None }
}
