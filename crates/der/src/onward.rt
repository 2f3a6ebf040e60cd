// Where the reader of a list goes on without a call, when the fast path did not take the next element: behind a primitive, or behind the
// header of an element that ends where the list ends and is read as the rest of the list, one deeper.
ghost use Rattle.std.specs.Prelude.{◌≡◌, ◌+◌, ◌^◌, ◌≤◌, ◌<◌, length, IfSome};
ghost use Rattle.der.specs.Onward.{Onward, Sole};

use crate::contents::contents_good;
use crate::heading::{Heading, header};
use crate::limits::Limits;
use crate::place::Place;

// The place after the element at `place`, or after its header.
pub(crate) fn onward(limits: Limits, s: &[u8], place: Place) -> Option<Place>
    requires { (place.at < length s.now) × (length s.now < 2 ^ 32) }
    ensures { IfSome result (λ to. Onward limits s.now place.at place.left place.count to.at to.left to.count) }
{
    let Place { at, left, count } = place;
    let Heading { tag, skip, size } = header(limits, &s[at..])?;
    if left == 0 || limits.most <= count {
        return None;
    }
    let from = at + skip;
    let after = from + size;
    if s[at] / 32 % 2 == 1 {
        if after != s.len() {
            return None;
        }
        let members = Place {
            at: from,
            left: left - 1,
            count: count + 1,
        };
        return if tag == 49 {
            sole(limits, s, members)
        } else {
            Some(members)
        };
    }
    if contents_good(tag, &s[from..after]) {
        return Some(Place {
            at: after,
            left,
            count: count + 1,
        });
    }
    None
}

// The place after the header of the element at `place`, if it has members, is no SET and ends where the list ends.
#[inline(never)]
fn sole(limits: Limits, s: &[u8], place: Place) -> Option<Place>
    requires { (place.at ≤ length s.now) × (length s.now < 2 ^ 32) }
    ensures { IfSome result (λ to. Sole limits s.now place.at place.left place.count to.at to.left to.count) }
{
    let Place { at, left, count } = place;
    let Heading { tag, skip, size } = header(limits, &s[at..])?;
    if left == 0 || limits.most <= count || tag == 49 || s[at] / 32 % 2 == 0 {
        return None;
    }
    let from = at + skip;
    if from + size != s.len() {
        return None;
    }
    Some(Place {
        at: from,
        left: left - 1,
        count: count + 1,
    })
}
