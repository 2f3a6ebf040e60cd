// The fast path for the extensions of an entry: most often a reason code alone, or none.
ghost use Rattle.std.specs.Prelude.{◌≡◌, true, ◌+◌, ◌≤◌, ◌<◌, length};
ghost use Rattle.crl.specs.FastEntries.{Mild, Reason};

use crate::fast::four;
use elements::{Element, fills};
use extensions::outline_of;

// Whether a SEQUENCE with a length in the short form goes from `from` to `end`, and holds extensions none of which is
// critical.
pub(crate) fn calm_list(item: &[u8], from: usize, end: usize) -> bool
    requires { (0 < end) × (end ≤ length item.now) × (from ≤ end + 512) }
    ensures { result ≡ true → Mild item.now from end }
{
    if end == from + 14 {
        if is_reason(&item[from..end]) {
            return true;
        }
    }
    if end == from + 2 {
        return four(item[from], item[from + 1], 0, 0) == 0x0030;
    }
    if !fills(item, from, end, 0x30) {
        return false;
    }
    let list = Element {
        tag: 0x30,
        at: from,
        contents: from + 2,
        end,
    };
    let seen = outline_of(item, list);
    !seen.marked && seen.shaped
}

// Whether 14 octets are a list of one extension, 2.5.29.21, with a value of three octets.
fn is_reason(c: &[u8]) -> bool
    requires { length c.now ≡ 14 }
    ensures { result ≡ true → Reason c.now }
{
    if four(c[0], c[1], c[2], c[3]) != 0x0a30_0c30 {
        return false;
    }
    if four(c[4], c[5], c[6], c[7]) != 0x1d55_0306 {
        return false;
    }
    four(c[8], c[9], c[10], 0) == 0x0003_0415
}
