//! Decimal numbers of 1 to 18 digits in header values.
ghost use Rattle.std.specs.Prelude.{◌≡◌, ◌≤◌, map, IsTrue};
ghost use Rattle.std.specs.Char.{is_ascii_digit, digit_value};
ghost use Rattle.std.specs.List.{list_all};
ghost use Rattle.std.specs.Str.Parse.{digits_value};
ghost use Rattle.httparse.specs.Spans.{span_bytes};
ghost use Rattle.lf_http.specs.Fields.{is_number, number, greater, greatest};
ghost use Rattle.lf_http.specs.Judge.{first_number};

use crate::field::{Values, bytes_of};

/// The most digits of a number, so that it is below 2^63.
const MOST_DIGITS: usize = 18;

// Whether all bytes are decimal digits.
fn are_digits(value: &[u8]) -> bool
    ensures { result ≡ list_all is_ascii_digit value.now }
{
    value.iter().all(|byte| byte.is_ascii_digit())
}

/// Whether the value is 1 to 18 decimal digits.
pub(crate) fn is_decimal(value: &[u8]) -> bool
    ensures { result ≡ is_number value.now }
{
    !value.is_empty() && value.len() <= MOST_DIGITS && are_digits(value)
}

// The value of a digit.
fn read_digit(byte: u8) -> u64
    requires { IsTrue (is_ascii_digit byte) }
    ensures value { result ≡ digit_value byte }
    ensures small { result ≤ 9 }
{
    u64::from(byte - b'0')
}

// The number that the digits are.
fn read_digits(digits: &[u8]) -> u64
    requires { IsTrue (is_number digits.now) }
    ensures { result ≡ digits_value 10 digits.now }
{
    let mut value: u64 = 0;
    for digit in digits {
        value = value * 10 + read_digit(*digit);
    }
    value
}

/// The number of a value of 1 to 18 decimal digits.
pub(crate) fn read_number(value: &[u8]) -> Option<u64>
    ensures { result ≡ number value.now }
{
    if is_decimal(value) {
        Some(read_digits(value))
    } else {
        None
    }
}

/// The first number of some values.
pub(crate) fn first_of(buf: &[u8], values: &Values) -> Option<u64>
    ensures { result ≡ first_number (map (span_bytes buf.now) values.now.items) }
{
    match values.as_slice() {
        [first, ..] => read_number(bytes_of(buf, *first)),
        [] => None,
    }
}

// The greater of two numbers, where there are any.
fn greater_of(first: Option<u64>, second: Option<u64>) -> Option<u64>
    ensures { result ≡ greater first second }
{
    match first {
        Some(n) => match second {
            Some(m) => Some(n.max(m)),
            None => first,
        },
        None => second,
    }
}

/// The greatest number among the values that are numbers.
pub(crate) fn greatest_of(buf: &[u8], values: &Values) -> Option<u64>
    ensures { result ≡ greatest (map (span_bytes buf.now) values.now.items) }
{
    let spans = values.as_slice();
    let mut best = None;
    for span in spans {
        best = greater_of(best, read_number(bytes_of(buf, *span)));
    }
    best
}
