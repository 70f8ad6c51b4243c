//! Numbers in decimal.

ghost use Rattle.std.specs.Prelude.{◌≡◌, ◌<◌, ◌≤◌, ◌^◌, ◌&&◌, pos, true, length, option_map, IfSome};
ghost use Rattle.std.specs.Char.{is_ascii_digit};
ghost use Rattle.std.specs.List.{list_all};
ghost use Rattle.std.specs.Str.Parse.{digits_value};
ghost use Rattle.eos_base.specs.Decimals.{is_numeral, number_below};

/// The greatest number of digits of an offset.
const MAX_DIGITS: usize = 19;

/// A partition's number, in decimal and without leading zeros.
pub fn read_partition(text: &[u8]) -> Option<i32>
    ensures { result ≡ option_map pos (number_below (2 ^ 31) text.now) }
{
    let value = read_below(text, 1 << 31)?;
    Some(value as i32)
}

/// An offset, in decimal and without leading zeros.
pub fn read_offset(text: &[u8]) -> Option<i64>
    ensures { result ≡ option_map pos (number_below (2 ^ 63) text.now) }
{
    let value = read_below(text, 1 << 63)?;
    Some(value as i64)
}

/// A number below the limit.
fn read_below(text: &[u8], limit: u128) -> Option<u128>
    ensures value { result ≡ number_below limit text.now }
    ensures below { IfSome result (λ value. value < limit) }
{
    if !is_numeral(text) {
        return None;
    }
    let value = value_of_digits(text);
    if value >= limit {
        return None;
    }
    Some(value)
}

/// Whether these are one to 19 digits, of which the first is 0 only where it stands alone.
fn is_numeral(text: &[u8]) -> bool
    ensures { result ≡ is_numeral text.now }
{
    !text.is_empty()
        && text.len() <= MAX_DIGITS
        && are_digits(text)
        && (text.len() == 1 || text[0] != b'0')
}

/// Whether each byte is a decimal digit, as each of none is.
pub fn are_digits(text: &[u8]) -> bool
    ensures { result ≡ list_all is_ascii_digit text.now }
{
    text.iter().all(|byte| byte.is_ascii_digit())
}

/// The number that at most 20 digits write, whatever zeros stand in front.
pub fn value_of_digits(text: &[u8]) -> u128
    requires digits { list_all is_ascii_digit text.now ≡ true }
    requires short { length text.now ≤ 20 }
    ensures { result ≡ digits_value 10 text.now }
{
    let mut value = 0u128;
    for byte in text {
        value = value * 10 + u128::from(*byte - b'0');
    }
    value
}
