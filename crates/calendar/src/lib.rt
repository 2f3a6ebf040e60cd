// Real days and moments, and the signed number of days from one day to another.
#![tactic(auto)]

mod months;

ghost use Rattle.std.specs.Prelude.{◌≡◌, cond, Some, None};
ghost use Rattle.calendar.specs.Days.{leap, month_length, month_of, real_day, real_moment};
ghost use Rattle.calendar.specs.Number.{day_number};
ghost use Rattle.calendar.specs.Difference.{difference_of};

use refusal::Refusal;

// Whether a number YYYYMMDD is a real day of 1950 to 2099. Every month has 28 days, so only a later day asks how many it has.
pub fn real_day(day: u64) -> bool
    ensures { result ≡ real_day 1950 2099 day }
{
    if day < 19500000 || 20999999 < day {
        return false;
    }
    let month = month_of(day);
    let of_month = day % 100;
    if month < 1 || 12 < month || of_month < 1 {
        return false;
    }
    of_month <= 28 || of_month <= month_length(day / 10000, month)
}

// Whether a number YYYYMMDDHHMMSS is a real moment of 1950 to 2099.
#[tactic(auto, unfolding(crate::specs::Days::real_moment))]
pub fn real_moment(moment: u64) -> bool
    ensures { result ≡ real_moment 1950 2099 moment }
{
    real_day(moment / 1000000)
        && moment / 10000 % 100 <= 23
        && moment / 100 % 100 <= 59
        && moment % 100 <= 59
}

// The number of days from the first day to the second, negative when the second is earlier.
pub fn day_difference(first: u64, second: u64) -> Result<i64, Refusal>
    ensures { result ≡ difference_of first second }
{
    let from = ordinal(first).ok_or(Refusal::Argument)?;
    let to = ordinal(second).ok_or(Refusal::Argument)?;
    Ok(to as i64 - from as i64)
}

// The number of a real day, counted from 0 for 19500101. One function tests the day and counts it, so that its year and month are
// worked out once; what the tests leave tells the compiler which rows of the table there are.
fn ordinal(day: u64) -> Option<u64>
    ensures { result ≡ cond (real_day 1950 2099 day) (Some (day_number day)) None }
{
    if !real_day(day) {
        return None;
    }
    Some(months::days_before(day / 10000, month_of(day)) + day % 100 - 1)
}

// The month of a day, by the division that gives its year.
fn month_of(day: u64) -> u64
    ensures { result ≡ month_of day }
{
    day / 100 - day / 10000 * 100
}

#[tactic(auto, unfolding(crate::specs::Days::leap))]
fn leap_year(year: u64) -> bool
    ensures { result ≡ leap year }
{
    year % 4 == 0 && (year % 100 != 0 || year % 400 == 0)
}

// The days of a month of a year, 0 for a month that is none.
#[tactic(auto, unfolding(crate::specs::Days::month_length, crate::specs::Days::february))]
pub fn month_length(year: u64, month: u64) -> u64
    ensures { result ≡ month_length year month }
{
    match month {
        2 if leap_year(year) => 29,
        2 => 28,
        4 | 6 | 9 | 11 => 30,
        1..=12 => 31,
        _ => 0,
    }
}
