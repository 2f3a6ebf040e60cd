// Questions about days and moments.
use crate::say;
use refusal::Refusal;
use std::io;
use std::io::Print;

pub(crate) fn real_day<R: Print>(rt: &R, day: u64) -> io::Result<()> {
    real(rt, calendar::real_day(day))
}

pub(crate) fn real_moment<R: Print>(rt: &R, moment: u64) -> io::Result<()> {
    real(rt, calendar::real_moment(moment))
}

pub(crate) fn difference<R: Print>(rt: &R, first: u64, second: u64) -> io::Result<()> {
    tell(rt, calendar::day_difference(first, second))
}

pub(crate) fn tell<R: Print>(rt: &R, answer: Result<i64, Refusal>) -> io::Result<()> {
    match answer {
        Ok(days) => {
            say::signed(rt, days)?;
            say::text(rt, b" days")
        }
        Err(refusal) => say::refused(rt, refusal),
    }
}

fn real<R: Print>(rt: &R, is_real: bool) -> io::Result<()> {
    if is_real {
        say::text(rt, b"real")
    } else {
        say::text(rt, b"not real")
    }
}
