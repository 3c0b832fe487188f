ghost use Rattle.std.specs.Prelude.{◌≡◌, ◌-◌, ◌≤◌, length, if◌then◌else◌, Some, None};
ghost use Rattle.std.specs.Char.{is_ascii_digit};
ghost use Rattle.std.specs.List.{list_all};
ghost use Rattle.text.specs.Numbers.{decimal, numeral};

// Enough for every number of 32 bits.
const MOST_DIGITS: usize = 10;

// The value of an ASCII digit.
fn digit(byte: u8) -> Option<u8>
    ensures { result ≡ (if is_ascii_digit byte then Some (byte - 48) else None) }
{
    match byte {
        b'0'..=b'9' => Some(byte - b'0'),
        _ => None,
    }
}

// The value of a few digits; none where another byte is among them.
// By one loop: std's `parse` wants a text, and takes a sign, so that each byte would be looked at three times.
fn value(field: &[u8]) -> Option<u64>
    requires { length field.now ≤ 10 }
    ensures { result ≡ (if list_all is_ascii_digit field.now then Some (decimal 0 field.now) else None) }
{
    let mut value = 0;
    for byte in field {
        value = value * 10 + u64::from(digit(*byte)?);
    }
    Some(value)
}

// A number of 32 bits, written in one to ten decimal digits.
pub fn number(field: &[u8]) -> Option<u32>
    ensures { result ≡ numeral field.now }
{
    if field.is_empty() || field.len() > MOST_DIGITS {
        return None;
    }
    u32::try_from(value(field)?).ok()
}
