// Reads times.
ghost use Rattle.std.specs.Prelude.{◌≡◌, ◌≤◌, ℕ, ℤ, length, IfSome, Some};
ghost use Rattle.civil_days.specs.Calendar.{date_of_day};
ghost use Rattle.civil_days.specs.FarYear.{IsYear};
ghost use Rattle.civil_days.specs.Read.{time_in};
ghost use Rattle.civil_days.specs.TimeRead.{IsTime};
ghost use Rattle.civil_days.specs.inner.TimeForm.{date_length, behind_second, behind_date, behind_day, fraction_of};

use crate::clock::{clock_at, is_separator, zone_at};
use crate::fraction::fraction_at;
use crate::parse::parse_date;
use crate::zone::Zone;

// Returns the units behind a second, and the offset.
fn behind_second(second: u32, text: &[u8], places: usize) -> Option<(u32, u32, Zone)>
    requires { places ≤ 9 }
    ensures { result ≡ behind_second second text.now (fraction_of places text.now) }
{
    match fraction_at(text, places) {
        Some((units, len)) => match zone_at(&text[len..]) {
            Some(zone) => Some((second, units, zone)),
            None => None,
        },
        None => None,
    }
}

// Returns the second of the day, the units behind it, and the offset.
fn behind_date(text: &[u8], places: usize) -> Option<(u32, u32, Zone)>
    requires long { 9 ≤ length text.now }
    requires places { places ≤ 9 }
    ensures { result ≡ behind_date places text.now }
{
    let (clock, rest) = text.split_at(9);
    match clock_at(clock) {
        Some(second) => behind_second(second, rest, places),
        None => None,
    }
}

// Returns the same, or midnight if there is nothing.
fn behind_day(text: &[u8], places: usize) -> Option<(u32, u32, Zone)>
    requires { places ≤ 9 }
    ensures { result ≡ behind_day places text.now }
{
    if text.is_empty() {
        return Some((0, 0, Zone::Unzoned));
    }
    if text.len() < 9 {
        return None;
    }
    behind_date(text, places)
}

// Returns how many bytes are before the first T or space.
fn date_length(text: &[u8]) -> usize
    ensures value { result ≡ date_length text.now }
    ensures within { result ≤ length text.now }
{
    for i in 0..text.len() {
        if is_separator(text[i]) {
            return i;
        }
    }
    text.len()
}

/// What the text of a time says: the day, the second of the day, the units behind it, and the offset.
#[derive(Clone, Copy, Debug)]
pub struct ReadTime {
    pub day: i64,
    pub second: u32,
    pub units: u32,
    pub zone: Zone,
}

fn read_time(text: &[u8], places: usize) -> Option<ReadTime>
    requires { places ≤ 9 }
    ensures { result ≡ time_in places text.now }
{
    let (date, rest) = text.split_at(date_length(text));
    let Some(day) = parse_date(date) else {
        return None;
    };
    match behind_day(rest, places) {
        Some((second, units, zone)) => Some(ReadTime {
            day,
            second,
            units,
            zone,
        }),
        None => None,
    }
}

/// Reads a time, or a date as its midnight, where a second has `places` digits behind it. Years have at most twelve digits.
pub fn parse_time(text: &[u8], places: usize) -> Option<ReadTime>
    requires { places ≤ 9 }
    ensures value { result ≡ time_in places text.now }
    ensures shown { IfSome result (λ r. IsTime places text.now r.day r.second r.units r.zone) }
    ensures exact { (day : ℤ) (second units : ℕ) (zone : Zone) → IsYear (date_of_day day).year → IsTime places text.now day second units zone
        → result ≡ Some (record { day = day; second = second; units = units; zone = zone }) }
{
    read_time(text, places)
}
