//! Numbers and amounts as they are written.
ghost use Rattle.std.specs.Prelude.{◌≡◌, ◌+◌, ◌-◌, ◌*◌, ◌^◌, ◌≤◌, ◌<◌, IfSome};
ghost use Rattle.std.specs.List.{list_all};
ghost use Rattle.tpcc_money.specs.Numerals.{value_from, at_most, number_up_to, amount_of, amount_of_parts};
ghost use Rattle.tpcc_money.specs.Numerals as numerals;

use crate::cents::Cents;
use thiserror::Error;

/// Why bytes are no amount.
#[derive(Clone, Copy, Debug, PartialEq, Eq, Error)]
pub enum AmountFault {
    /// 1: not digits without a needless leading zero, a point and two digits.
    #[error("Shape")]
    Shape,
    /// 2: of that shape, and above 9,999,999,999.99.
    #[error("Range")]
    Range,
}

fn is_digit(byte: u8) -> bool
    ensures { result ≡ numerals.is_digit byte }
{
    b'0' <= byte && byte <= b'9'
}

fn are_digits(bytes: &[u8]) -> bool
    ensures { result ≡ list_all numerals.is_digit bytes.now }
{
    bytes.iter().all(|byte| is_digit(*byte))
}

fn is_decimal(bytes: &[u8]) -> bool
    ensures { result ≡ numerals.is_decimal bytes.now }
{
    match bytes.split_first() {
        None => false,
        Some((first, rest)) => is_digit(*first)
            && are_digits(rest)
            && (rest.is_empty() || *first != b'0'),
    }
}

fn is_cents(bytes: &[u8]) -> bool
    ensures { result ≡ numerals.is_cents bytes.now }
{
    match bytes {
        [point, tens, ones] => *point == b'.' && is_digit(*tens) && is_digit(*ones),
        _ => false,
    }
}

/// The number with one more digit.
fn with_digit(value: u64, digit: u8) -> u64
    requires { value < 2 ^ 59 }
    ensures { result ≡ 10 * value + (digit - 48) }
{
    10 * value + u64::from(digit.saturating_sub(b'0'))
}

/// The number that digits spell behind those of another number.
fn value_up_to(start: u64, digits: &[u8], most: u64) -> Option<u64>
    requires small { most < 2 ^ 59 }
    requires start { start ≤ most }
    ensures value { result ≡ at_most most (value_from start digits.now) }
    ensures within { IfSome result (λ n. n ≤ most) }
{
    let mut value = start;
    for digit in digits {
        value = with_digit(value, *digit);
        if value > most {
            return None;
        }
    }
    Some(value)
}

/// The number that decimal digits without a needless leading zero spell, at most so large.
#[tactic(auto, unfolding(crate::specs::Numerals::number_up_to))]
pub fn parse_number(bytes: &[u8], most: u64) -> Option<u64>
    requires { most < 2 ^ 59 }
    ensures value { result ≡ number_up_to most bytes.now }
    ensures within { IfSome result (λ n. n ≤ most) }
{
    if is_decimal(bytes) {
        value_up_to(0, bytes, most)
    } else {
        None
    }
}

/// The greatest amount that can be written, in cents: 9,999,999,999.99.
pub const GREATEST_AMOUNT: u64 = 999_999_999_999;

fn amount_of_parts(whole: &[u8], cents: &[u8]) -> Result<Cents, AmountFault>
    ensures { result ≡ amount_of_parts whole.now cents.now }
{
    if !(is_decimal(whole) && is_cents(cents)) {
        return Err(AmountFault::Shape);
    }
    let Some(units) = value_up_to(0, whole, GREATEST_AMOUNT) else {
        return Err(AmountFault::Range);
    };
    match value_up_to(units, &cents[1..], GREATEST_AMOUNT) {
        Some(value) => Ok(Cents::new(value as i64)),
        None => Err(AmountFault::Range),
    }
}

/// An amount: a number, a point and two digits.
#[tactic(auto, unfolding(crate::specs::Numerals::amount_of))]
pub fn parse_amount(bytes: &[u8]) -> Result<Cents, AmountFault>
    ensures { result ≡ amount_of bytes.now }
{
    let (whole, cents) = bytes.split_at(bytes.len().saturating_sub(3));
    amount_of_parts(whole, cents)
}
