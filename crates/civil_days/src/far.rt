// Dates of years that have a sign.
ghost use Rattle.std.specs.Prelude.{◌≡◌, ◌+◌, ◌++◌, ◌^◌, ◌<◌, ◌≤◌, ℤ, length, IfSome, Some};
ghost use Rattle.civil_days.specs.Calendar.{date_of_day};
ghost use Rattle.civil_days.specs.FarYear.{IsFarYear};
ghost use Rattle.civil_days.specs.Text.{year_text, text_of_day};
ghost use Rattle.civil_days.specs.inner.Far.{number_behind, are_wide, signed_year, far_year, has_tail};

use crate::date::day_of;
use crate::near::two_at;

// Returns the number that at most 12 digits spell, or `None` if they are no digits.
pub(crate) fn digits(text: &[u8]) -> Option<u64>
    requires { length text.now ≤ 12 }
    ensures value { result ≡ number_behind 0 text.now }
    ensures bound { IfSome result (λ n. n < 10 ^ 12) }
    ensures short { IfSome result (λ n. n < 10 ^ length text.now) }
{
    let mut number = 0u64;
    for byte in text {
        if !byte.is_ascii_digit() {
            return None;
        }
        number = number * 10 + u64::from(*byte - b'0');
    }
    Some(number)
}

fn are_wide(digits: &[u8]) -> bool
    ensures { result ≡ are_wide digits.now }
{
    digits.len() > 4 && digits[0] != b'0'
}

fn signed_year(sign: u8, digits: &[u8], number: u64) -> Option<i64>
    requires { number < 10 ^ 12 }
    ensures { result ≡ signed_year sign digits.now number }
{
    let wide = are_wide(digits);
    if sign == b'+' && wide {
        return Some(number as i64);
    }
    if sign == b'-' && (wide || (digits.len() == 4 && number > 0)) {
        return Some(-(number as i64));
    }
    None
}

fn far_year(text: &[u8]) -> Option<i64>
    requires low { 1 ≤ length text.now }
    requires high { length text.now ≤ 13 }
    ensures { result ≡ far_year text.now }
{
    match digits(&text[1..]) {
        Some(number) => signed_year(text[0], &text[1..], number),
        None => None,
    }
}

// Returns whether six bytes have the form of a month and a day with the dash before each.
fn has_tail(text: &[u8]) -> bool
    requires { length text.now ≡ 6 }
    ensures { result ≡ has_tail text.now }
{
    text[0] == b'-'
        && text[1].is_ascii_digit()
        && text[2].is_ascii_digit()
        && text[3] == b'-'
        && text[4].is_ascii_digit()
        && text[5].is_ascii_digit()
}

// Returns the day number that the text of a year and six more bytes spell, or `None` if they spell no date.
fn joined_date(year: &[u8], rest: &[u8]) -> Option<i64>
    requires low { 1 ≤ length year.now }
    requires high { length year.now ≤ 13 }
    requires rest { length rest.now ≡ 6 }
    ensures shown { IfSome result (λ z. year.now ++ rest.now ≡ text_of_day z) }
    ensures far { IfSome result (λ z. IsFarYear (date_of_day z).year) }
    ensures exact { (z : ℤ) → IsFarYear (date_of_day z).year → length (year_text (date_of_day z).year) ≡ length year.now
        → year.now ++ rest.now ≡ text_of_day z → result ≡ Some z }
{
    if !has_tail(rest) {
        return None;
    }
    match far_year(year) {
        Some(year) => day_of(year, two_at(rest, 1), two_at(rest, 4)),
        None => None,
    }
}

/// Returns the day number that a text spells, or `None` if it spells no date of a year with a sign.
#[inline(never)]
pub(crate) fn far_date(text: &[u8]) -> Option<i64>
    ensures shown { IfSome result (λ z. text.now ≡ text_of_day z) }
    ensures far { IfSome result (λ z. IsFarYear (date_of_day z).year) }
    ensures exact { (z : ℤ) → IsFarYear (date_of_day z).year → text.now ≡ text_of_day z → result ≡ Some z }
{
    if text.len() < 11 || text.len() > 19 {
        return None;
    }
    let (year, rest) = text.split_at(text.len() - 6);
    joined_date(year, rest)
}
