//! Numbers: `0`, or digits without a leading zero, below 2 ^ 64.
ghost use Rattle.std.specs.Prelude.{◌≡◌, ◌≤◌, ◌+◌, ◌-◌, ◌*◌, ◌++◌, ◌^◌, ◌<◌, ℕ, Some, OnOk, OnErr, is_some, decimal};
ghost use Rattle.aw_spelling.specs.Spelling.{is_numeral, number_of, if_word};

use crate::name::{are_digits, is_digit};
use aw_list::Text;
use itoa::Buffer;
use std::alloc::AllocError;

fn is_numeral(b: &[u8]) -> bool
    ensures { result ≡ is_numeral b.now }
{
    match b {
        [] => false,
        [digit] => is_digit(*digit),
        [first, ..] => *first != b'0' && are_digits(b),
    }
}

fn with_digit(value: u64, digit: u8) -> Option<u64>
    requires { 48 ≤ digit }
    ensures { result ≡ if_word (value * 10 + (digit - 48)) }
{
    value.checked_mul(10)?.checked_add(u64::from(digit - b'0'))
}

/// The number that the bytes spell; `None` where they are no number, or one past 2 ^ 64 - 1.
pub fn number_value(b: &[u8]) -> Option<u64>
    ensures { result ≡ number_of b.now }
{
    if !is_numeral(b) {
        return None;
    }
    let mut value = 0;
    for digit in b {
        value = with_digit(value, *digit)?;
    }
    Some(value)
}

/// The most digits that always write a number below 2 ^ 64.
const SURE_DIGITS: usize = 19;

/// Whether the bytes spell a number.
pub fn is_number(b: &[u8]) -> bool
    ensures { result ≡ is_some (number_of b.now) }
{
    let len = b.len();
    if len > SURE_DIGITS {
        return number_value(b).is_some();
    }
    is_numeral(b)
}

/// Adds a number of several digits. An error changes nothing.
fn push_digits(text: &mut Text, n: u64) -> Result<(), AllocError>
    ensures ok { OnOk result (text.new ≡ text.old ++ decimal n) }
    ensures err { OnErr result (text.new ≡ text.old) }
{
    let mut buffer = Buffer::new();
    text.push_bytes(buffer.format(n).as_bytes())
}

/// Adds the number. An error changes nothing. One digit or two, as most numbers have, go a shorter way.
pub fn push_number(text: &mut Text, n: u64) -> Result<(), AllocError>
    ensures ok { OnOk result (text.new ≡ text.old ++ decimal n) }
    ensures err { OnErr result (text.new ≡ text.old) }
{
    if n < 10 {
        return text.push(b'0' + n as u8);
    }
    if n < 100 {
        return text.push_bytes(&[b'0' + (n / 10) as u8, b'0' + (n % 10) as u8]);
    }
    push_digits(text, n)
}

/// A number that is printed is read again.
pub fn printed_is_read()
    ensures { (n : ℕ) → n < 2 ^ 64 → number_of (decimal n) ≡ Some n }
{}
