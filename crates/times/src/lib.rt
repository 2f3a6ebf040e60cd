// Times, as numbers YYYYMMDDHHMMSS.
#![tactic(auto)]

ghost use Rattle.std.specs.Prelude.{◌≡◌, ◌≤◌, length};
ghost use Rattle.der.specs.Forms.{paper};
ghost use Rattle.times.specs.Times.{figures, real_number, time_of, moment_of, in_order, time_at};
ghost use Rattle.times.specs.Pairs.{PairOf, YearOf};

use calendar::month_length;
use elements::{Element, contents, element_tagged};

// UTCTime YYMMDDHHMMSSZ, or GeneralizedTime YYYYMMDDHHMMSSZ for 2050 on.
pub fn time_of(item: &[u8], e: Element) -> Option<u64>
    ensures { result ≡ time_of item.now e }
{
    let c = contents(item, e);
    let year = year_of(e.tag, c)?;
    let from = c.len() - 11;
    within(year, &c[from..from + 10])
}

// The year at the front of a time, with ten octets and a Z after it.
fn year_of(tag: usize, c: &[u8]) -> Option<u64>
    ensures { YearOf tag c.now result }
{
    match tag {
        0x17 => short_year(c),
        0x18 => full_year(c),
        _ => None,
    }
}

// Two digits: 00 to 49 mean 2000 to 2049, 50 to 99 mean 1950 to 1999.
fn short_year(c: &[u8]) -> Option<u64>
    ensures { YearOf 0x17 c.now result }
{
    if c.len() != 13 || c[12] != b'Z' {
        return None;
    }
    let year = pair(c[0], c[1])?;
    if year < 50 {
        Some(2000 + year)
    } else {
        Some(1900 + year)
    }
}

// Four digits, 2050 or more.
fn full_year(c: &[u8]) -> Option<u64>
    ensures { YearOf 0x18 c.now result }
{
    if c.len() != 15 || c[14] != b'Z' {
        return None;
    }
    let century = pair(c[0], c[1])?;
    let rest = pair(c[2], c[3])?;
    let year = century * 100 + rest;
    if year < 2050 {
        return None;
    }
    Some(year)
}

// The time in a year that ten digits write: month, day, hour, minute and second.
fn within(year: u64, c: &[u8]) -> Option<u64>
    requires { (year ≤ 9999) × (length c.now ≡ 10) }
    ensures { result ≡ real_number (figures year c.now) }
{
    let month = pair(c[0], c[1])?;
    let day = pair(c[2], c[3])?;
    if 12 < month || day < 1 || month_length(year, month) < day {
        return None;
    }
    let hour = pair(c[4], c[5])?;
    let minute = pair(c[6], c[7])?;
    let second = pair(c[8], c[9])?;
    if 23 < hour || 59 < minute || 59 < second {
        return None;
    }
    let date = (year * 100 + month) * 100 + day;
    Some(((date * 100 + hour) * 100 + minute) * 100 + second)
}

// The number that two digits write.
fn pair(a: u8, b: u8) -> Option<u64>
    ensures { PairOf a b result }
{
    if !a.is_ascii_digit() || !b.is_ascii_digit() {
        return None;
    }
    Some((a - b'0') as u64 * 10 + (b - b'0') as u64)
}

// The moment of a time, 0 of what is none.
pub fn moment(time: Option<u64>) -> u64
    ensures { result ≡ moment_of time }
{
    time.unwrap_or(0)
}

// Two times that are times, the first not after the second.
pub fn in_order(start: Option<u64>, end: Option<u64>) -> bool
    ensures { result ≡ in_order start end }
{
    match (start, end) {
        (Some(a), Some(b)) => a <= b,
        _ => false,
    }
}

// The element at `from`, if it has the tag of a UTCTime or a GeneralizedTime.
pub fn time_at(item: &[u8], from: usize, end: usize) -> Option<Element>
    ensures { result ≡ time_at paper item.now from end }
{
    match element_tagged(item, from, end, 0x17) {
        Some(e) => Some(e),
        None => element_tagged(item, from, end, 0x18),
    }
}
