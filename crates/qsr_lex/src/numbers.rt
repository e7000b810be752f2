//! The numbers of a text, without and with a sign.
ghost use Rattle.std.specs.Prelude.{◌≡◌, ◌<◌, ◌^◌, true, pos, ◌≤ℤ◌, IfSome, option_map};
ghost use Rattle.std.specs.Char.{is_ascii_digit};
ghost use Rattle.std.specs.List.{list_all, prefix_len};
ghost use Rattle.std.specs.Str.Parse.{digits_value};
ghost use Rattle.qsr_lex.specs.Bytes.{is_zero};
ghost use Rattle.qsr_lex.specs.Numbers.{are_digits, number_of, signed_of, whole_of, is_zero_fraction, is_no_fraction};

use crate::MOST_DIGITS;

/// The value of 1 to `MOST_DIGITS` decimal digits, of which the first may be zeros. Any other text has none.
pub fn number(text: &[u8]) -> Option<u64>
    ensures value { result ≡ number_of text.now }
    ensures bound { IfSome result (λ value. value < 10 ^ 18) }
{
    if are_digits(text) {
        Some(value(text))
    } else {
        None
    }
}

/// The value of an optional sign, 1 to `MOST_DIGITS` decimal digits, and optionally a dot with one or
/// more zeros. Any other text has none.
pub fn signed(text: &[u8]) -> Option<i64>
    ensures { result ≡ signed_of text.now }
{
    match text {
        [] => None,
        [b'-', rest @ ..] => Some(-whole(rest)?),
        [b'+', rest @ ..] => whole(rest),
        _ => whole(text),
    }
}

/// The value of the digits at the front, where only a dot with zeros may follow them.
fn whole(text: &[u8]) -> Option<i64>
    ensures value { result ≡ option_map pos (whole_of text.now) }
    ensures sign { IfSome result (λ value. pos 0 ≤ℤ value) }
{
    let (digits, rest) = text.split_at(digit_count(text));
    if !is_no_fraction(rest) {
        return None;
    }
    Some(number(digits)? as i64)
}

/// Whether a text is 1 to `MOST_DIGITS` digits.
fn are_digits(text: &[u8]) -> bool
    ensures { result ≡ are_digits text.now }
{
    !text.is_empty() && text.len() <= MOST_DIGITS && are_all_digits(text)
}

/// Whether each byte is a digit.
fn are_all_digits(text: &[u8]) -> bool
    ensures { result ≡ list_all is_ascii_digit text.now }
{
    text.iter().all(|byte| byte.is_ascii_digit())
}

/// The value of digits.
fn value(digits: &[u8]) -> u64
    requires { are_digits digits.now ≡ true }
    ensures value { result ≡ digits_value 10 digits.now }
    ensures bound { result < 10 ^ 18 }
{
    let mut value = 0;
    for digit in digits {
        value = value * 10 + u64::from(*digit - b'0');
    }
    value
}

/// How many digits a text begins with.
fn digit_count(text: &[u8]) -> usize
    ensures { result ≡ prefix_len is_ascii_digit text.now }
{
    text.iter().take_while(|byte| byte.is_ascii_digit()).count()
}

/// Whether a text is empty, or a dot with zeros.
fn is_no_fraction(text: &[u8]) -> bool
    ensures { result ≡ is_no_fraction text.now }
{
    text.is_empty() || is_zero_fraction(text)
}

/// Whether a text is a dot with one or more zeros.
fn is_zero_fraction(text: &[u8]) -> bool
    ensures { result ≡ is_zero_fraction text.now }
{
    match text {
        [] => false,
        [dot, zeros @ ..] => *dot == b'.' && !zeros.is_empty() && are_zeros(zeros),
    }
}

/// Whether each byte is the digit 0.
fn are_zeros(text: &[u8]) -> bool
    ensures { result ≡ list_all is_zero text.now }
{
    text.iter().all(|byte| *byte == b'0')
}
