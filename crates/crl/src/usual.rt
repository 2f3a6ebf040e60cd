// The fast path for an entry whose lengths are in the short form.
ghost use Rattle.std.specs.Prelude.{◌≡◌, true, ◌<◌, IfSome};
ghost use Rattle.der.specs.Heading.{identifier_good};
ghost use Rattle.times.specs.Times.{time_tag};
ghost use Rattle.crl.specs.FastEntries.{stamp_at, Usual, Opening};

use crate::fast::four;
use crate::reasons::calm_list;

// The offset of the time of the entry at `at` if the entry is a serial, a time with that tag and so many octets, and no
// critical extension, each length in the short form.
pub(crate) fn usual_time(item: &[u8], at: usize, end: usize, tag: u8, octets: u8) -> Option<usize>
    requires { (time_tag tag ≡ true) × (identifier_good tag ≡ true) × (octets < 128) }
    ensures { IfSome result (λ time. Usual item.now at end (stamp_at tag octets time)) }
{
    if !opens(item, at, end) {
        return None;
    }
    let size = item[at + 3] as usize;
    let whole = item[at + 1] as usize;
    let long = octets as usize + 2;
    let time = at + 4 + size;
    if whole != size + 2 + long {
        if !calm_list(item, time + long, at + 2 + whole) {
            return None;
        }
    }
    if four(item[time], item[time + 1], 0, 0) != four(tag, octets, 0, 0) {
        return None;
    }
    Some(time)
}

// Whether a SEQUENCE with a length in the short form stands at `at`, and an INTEGER opens it.
pub(crate) fn opens(item: &[u8], at: usize, end: usize) -> bool
    ensures { result ≡ true → Opening item.now at end }
{
    if item.len() < end || end < 4 || end - 4 < at {
        return false;
    }
    if item[at] != 0x30 || item[at + 2] != 0x02 {
        return false;
    }
    let size = item[at + 1] as usize;
    size < 128 && size <= end - at - 2
}
