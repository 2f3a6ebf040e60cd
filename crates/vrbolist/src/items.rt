// Items, and days.
ghost use Rattle.std.specs.Prelude.{◌≡◌};
ghost use Rattle.calendar.specs.Difference.{difference_of};
ghost use Rattle.crl.specs.Age.{age_of};
ghost use Rattle.der.specs.Forms.{paper};
ghost use Rattle.der.specs.Integer.{integer_of};
ghost use Rattle.der.specs.Walk.{walk_of};
ghost use Rattle.vrbolist.specs.Told.{walk_told, integer_told, days_told};

use refusal::Refusal;

// In every answer `number` is 0 for a pass, else the refusal's, and `detail` what it tells beside.
#[repr(C)]
#[derive(Clone, Copy)]
pub struct WalkAnswer {
    pub number: u64,
    pub detail: u64,
    pub count: u64,
}

#[repr(C)]
#[derive(Clone, Copy)]
pub struct IntegerAnswer {
    pub number: u64,
    pub detail: u64,
    pub value: i64,
}

#[repr(C)]
#[derive(Clone, Copy)]
pub struct DaysAnswer {
    pub number: u64,
    pub detail: u64,
    pub days: i64,
}

#[unsafe(no_mangle)]
pub extern "C" fn vrbolist_walk(item: &[u8]) -> WalkAnswer
    ensures { result ≡ walk_told (walk_of paper item.now) }
{
    match der::walk(item) {
        Ok(count) => WalkAnswer {
            number: 0,
            detail: 0,
            count: count as u64,
        },
        Err(refusal) => WalkAnswer {
            number: refusal::number(refusal),
            detail: refusal::detail(refusal),
            count: 0,
        },
    }
}

#[unsafe(no_mangle)]
pub extern "C" fn vrbolist_integer(item: &[u8]) -> IntegerAnswer
    ensures { result ≡ integer_told (integer_of paper item.now) }
{
    match der::integer(item) {
        Ok(value) => IntegerAnswer {
            number: 0,
            detail: 0,
            value,
        },
        Err(refusal) => IntegerAnswer {
            number: refusal::number(refusal),
            detail: refusal::detail(refusal),
            value: 0,
        },
    }
}

#[unsafe(no_mangle)]
pub extern "C" fn vrbolist_day_difference(first: u64, second: u64) -> DaysAnswer
    ensures { result ≡ days_told (difference_of first second) }
{
    days_told(calendar::day_difference(first, second))
}

#[unsafe(no_mangle)]
pub extern "C" fn vrbolist_crl_age(item: &[u8], day: u64) -> DaysAnswer
    ensures { result ≡ days_told (age_of item.now day) }
{
    days_told(crl::age(item, day))
}

fn days_told(difference: Result<i64, Refusal>) -> DaysAnswer
    ensures { result ≡ days_told difference }
{
    match difference {
        Ok(days) => DaysAnswer {
            number: 0,
            detail: 0,
            days,
        },
        Err(refusal) => DaysAnswer {
            number: refusal::number(refusal),
            detail: refusal::detail(refusal),
            days: 0,
        },
    }
}
