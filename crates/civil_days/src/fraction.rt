// Reads the digits behind a second.
ghost use Rattle.std.specs.Prelude.{◌≡◌, ◌+◌, ◌-◌, ◌*◌, ◌^◌, ◌<◌, ◌≤◌, length, IfSome};
ghost use Rattle.civil_days.specs.inner.TimeForm.{digit_run, units_in, fraction_of};

use crate::far::digits;

// Returns how many digits are at the beginning.
fn digit_run(text: &[u8]) -> usize
    ensures value { result ≡ digit_run text.now }
    ensures within { result ≤ length text.now }
{
    for i in 0..text.len() {
        if !text[i].is_ascii_digit() {
            return i;
        }
    }
    text.len()
}

// Returns a power of ten.
fn ten_to(places: usize) -> u32
    requires { places ≤ 9 }
    ensures { result ≡ 10 ^ places }
{
    match places {
        0 => 1,
        1 => 10,
        2 => 100,
        3 => 1_000,
        4 => 10_000,
        5 => 100_000,
        6 => 1_000_000,
        7 => 10_000_000,
        8 => 100_000_000,
        _ => 1_000_000_000,
    }
}

// Returns the units that the first digits spell, where a second has `places` digits behind it.
fn units_at(text: &[u8], count: usize, places: usize) -> Option<u32>
    requires count { count ≤ places }
    requires places { places ≤ 9 }
    requires within { count ≤ length text.now }
    ensures { result ≡ units_in places text.now count }
{
    match digits(&text[..count]) {
        Some(number) => Some(number as u32 * ten_to(places - count)),
        None => None,
    }
}

/// Returns the units that a point and the digits behind it spell, and how many bytes these take: none, if there is no
/// point.
pub(crate) fn fraction_at(text: &[u8], places: usize) -> Option<(u32, usize)>
    requires { places ≤ 9 }
    ensures value { result ≡ fraction_of places text.now }
    ensures within { IfSome result (λ f. f.1 ≤ length text.now) }
{
    if text.is_empty() || text[0] != b'.' {
        return Some((0, 0));
    }
    let count = digit_run(&text[1..]);
    if count == 0 || count > places {
        return None;
    }
    match units_at(&text[1..], count, places) {
        Some(units) => Some((units, count + 1)),
        None => None,
    }
}
