// Whether the time of an entry is a time.
ghost use Rattle.std.specs.Prelude.{◌≡◌, ◌+◌, ◌≤◌, length};
ghost use Rattle.times.specs.Times.{time_of};
ghost use Rattle.crl.specs.Entries.{is_time};
ghost use Rattle.crl.specs.FastEntries.{stamp_at};

use crate::fast::{usual_full, usual_utc};
use elements::Element;
use times::time_of;

// Whether the UTCTime of 13 octets at an offset is a time.
pub(crate) fn is_utc(item: &[u8], at: usize) -> bool
    requires { at + 2 + 13 ≤ length item.now }
    ensures { result ≡ is_time (time_of item.now (stamp_at 0x17 13 at)) }
{
    let contents = at + 2;
    let end = contents + 13;
    if usual_utc(&item[contents..end]) {
        return true;
    }
    let e = Element {
        tag: 0x17,
        at,
        contents,
        end,
    };
    is_time(item, e)
}

// Whether the GeneralizedTime of 15 octets at an offset is a time.
pub(crate) fn is_full(item: &[u8], at: usize) -> bool
    requires { at + 2 + 15 ≤ length item.now }
    ensures { result ≡ is_time (time_of item.now (stamp_at 0x18 15 at)) }
{
    let contents = at + 2;
    let end = contents + 15;
    if usual_full(&item[contents..end]) {
        return true;
    }
    let e = Element {
        tag: 0x18,
        at,
        contents,
        end,
    };
    is_time(item, e)
}

#[tactic(auto, unfolding(crate::specs::Entries::is_time))]
pub(crate) fn is_time(item: &[u8], time: Element) -> bool
    ensures { result ≡ is_time (time_of item.now time) }
{
    time_of(item, time).is_some()
}
