ghost use Rattle.std.specs.Prelude.{◌≡◌, ◌≤◌, ◌<◌, ◌^◌, ◌-◌, min, IfSome};
ghost use Rattle.std.specs.List.{list_all};
ghost use Rattle.iocm_values.specs.Digits as meaning;

fn are_hex_digits(text: &[u8]) -> bool
    ensures { result ≡ list_all meaning.is_hex_digit text.now }
{
    text.iter()
        .all(|byte| matches!(*byte, b'0'..=b'9' | b'A'..=b'F'))
}

fn are_decimal_digits(text: &[u8]) -> bool
    ensures { result ≡ list_all meaning.is_decimal_digit text.now }
{
    text.iter().all(|byte| byte.is_ascii_digit())
}

/// Whether `text` is a hexadecimal number: one digit or more, 0 to 9 and A to F in upper case.
pub fn is_hex_number(text: &[u8]) -> bool
    ensures { result ≡ meaning.is_number meaning.is_hex_digit text.now }
{
    !text.is_empty() && are_hex_digits(text)
}

/// Whether `text` is a decimal number: one digit or more.
pub fn is_decimal_number(text: &[u8]) -> bool
    ensures { result ≡ meaning.is_number meaning.is_decimal_digit text.now }
{
    !text.is_empty() && are_decimal_digits(text)
}

fn hex_digit(byte: u8) -> u64
    ensures value { result ≡ meaning.hex_digit byte }
    ensures range { result < 2 ^ 8 }
{
    if byte <= b'9' {
        u64::from(byte.saturating_sub(b'0'))
    } else {
        u64::from(byte.saturating_sub(b'A' - 10))
    }
}

/// The value of hexadecimal digits, or the largest value there is.
fn hex_value(text: &[u8]) -> u64
    ensures { result ≡ min (meaning.hex_value text.now) (2 ^ 64 - 1) }
{
    let mut value: u64 = 0;
    for byte in text {
        value = value.saturating_mul(16).saturating_add(hex_digit(*byte));
    }
    value
}

/// The value of decimal digits, or the largest value there is.
fn decimal_value(text: &[u8]) -> u64
    ensures { result ≡ min (meaning.decimal_value text.now) (2 ^ 64 - 1) }
{
    let mut value: u64 = 0;
    for byte in text {
        value = value
            .saturating_mul(10)
            .saturating_add(u64::from(byte.saturating_sub(b'0')));
    }
    value
}

fn up_to(limit: u32, value: u64) -> Option<u32>
    ensures { result ≡ meaning.up_to limit value }
{
    if value <= u64::from(limit) {
        Some(value as u32)
    } else {
        None
    }
}

/// The hexadecimal number that `text` writes: one digit to `digits` digits, 0 to 9 and A to F in
/// upper case, at most `limit`. `None` for any other text.
pub fn hex(limit: u32, digits: usize, text: &[u8]) -> Option<u32>
    ensures value { result ≡ meaning.hex_of limit digits text.now }
    ensures within { IfSome result (λ n. n ≤ limit) }
{
    if text.len() > digits {
        return None;
    }
    if is_hex_number(text) {
        up_to(limit, hex_value(text))
    } else {
        None
    }
}

/// The decimal number that `text` writes: one digit or more, with any number of leading zeros, at
/// most `limit`. `None` for any other text.
pub fn decimal(limit: u32, text: &[u8]) -> Option<u32>
    ensures value { result ≡ meaning.decimal_of limit text.now }
    ensures within { IfSome result (λ n. n ≤ limit) }
{
    if is_decimal_number(text) {
        up_to(limit, decimal_value(text))
    } else {
        None
    }
}
