// The fast path for a time, which takes its octets eight and four at a time.
ghost use Rattle.std.specs.Prelude.{◌≡◌, true, ◌+◌, ◌*◌, ◌≤◌, length};
ghost use Rattle.calendar.specs.Days.{month_length};
ghost use Rattle.crl.specs.Entries.{is_time};
ghost use Rattle.crl.specs.FastTimes.{UsualDate, UsualTime, Later};
ghost use Rattle.times.specs.Times.{time_in};

use calendar::month_length;

// Whether 15 octets are a GeneralizedTime with a day that every year has; false where it does not tell.
pub(crate) fn usual_full(c: &[u8]) -> bool
    requires { length c.now ≡ 15 }
    ensures { result ≡ true → is_time (time_in 0x18 c.now) ≡ true }
{
    if !later(c[0], c[1], c[2]) {
        return false;
    }
    usual_utc(&c[2..15])
}

// Whether the first three octets of a GeneralizedTime start a year from 2050 on.
fn later(a: u8, b: u8, c: u8) -> bool
    ensures { result ≡ true → Later a b c }
{
    matches!(a, 50..=57) && matches!(b, 48..=57) && (50 < a || 48 < b || 53 <= c)
}

// Whether 13 octets are a UTCTime with a day that every year has; false where it does not tell. Minute and second are
// tested as the date is, and their tens are held to 5 by adding 10.
#[inline(always)]
pub(crate) fn usual_utc(c: &[u8]) -> bool
    requires { length c.now ≡ 13 }
    ensures { result ≡ true → UsualTime c.now }
{
    if !usual_date(c) {
        return false;
    }
    let octets = four(c[8], c[9], c[10], c[11]);
    if octets & 0xf0f0_f0f0 != 0x3030_3030 {
        return false;
    }
    if (octets + 0x060a_060a) & 0xf0f0_f0f0 != 0x3030_3030 {
        return false;
    }
    c[12] == 90
}

// Whether the first eight octets write year, month, day and hour. They are digits if each has 3 as its upper half, by
// itself and with 6 added; then pairs of them are made and held to their ranges at once, days to 28.
fn usual_date(c: &[u8]) -> bool
    requires { length c.now ≡ 13 }
    ensures { result ≡ true → UsualDate c.now }
{
    let octets = four(c[0], c[1], c[2], c[3]) + four(c[4], c[5], c[6], c[7]) * 0x1_0000_0000;
    if octets & 0xf0f0_f0f0_f0f0_f0f0 != 0x3030_3030_3030_3030 {
        return false;
    }
    if (octets + 0x0606_0606_0606_0606) & 0xf0f0_f0f0_f0f0_f0f0 != 0x3030_3030_3030_3030 {
        return false;
    }
    let digits = octets - 0x3030_3030_3030_3030;
    let pairs = digits * 10 + digits / 256;
    if (pairs + 0x0068_0063_0073_0000) & 0x0080_0080_0080_0080 != 0 {
        if !late(
            pairs / 0x1_0000 % 256,
            pairs / 0x1_0000_0000 % 256,
            pairs / 0x1_0000_0000_0000 % 256,
        ) {
            return false;
        }
    }
    if pairs / 0x1_0000 % 256 == 0 {
        return false;
    }
    pairs / 0x1_0000_0000 % 256 != 0
}

// Whether every year has that day in that month, and the day that hour.
fn late(month: u64, day: u64, hour: u64) -> bool
    ensures { result ≡ true → (day ≤ month_length 1 month) × (hour ≤ 23) }
{
    hour <= 23 && day <= month_length(1, month)
}

// Four octets as one number, the first lowest.
pub(crate) fn four(a: u8, b: u8, c: u8, d: u8) -> u64
    ensures { result ≡ ((d * 256 + c) * 256 + b) * 256 + a }
{
    a as u64 + b as u64 * 256 + c as u64 * 0x1_0000 + d as u64 * 0x100_0000
}
