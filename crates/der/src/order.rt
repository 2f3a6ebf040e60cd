// The order of a SET's members.
ghost use Rattle.std.specs.Prelude.{◌≡◌, ◌+◌, ◌-◌, ◌≤◌, length, take};
ghost use Rattle.std.specs.Bool.{MatchBool};
ghost use Rattle.der.specs.Forms.{Forms};
ghost use Rattle.der.specs.Given.{Given};
ghost use Rattle.der.specs.Order.{smaller};
ghost use Rattle.der.specs.Falling.{Falls, Stands};

use crate::heading::{Heading, header};
use crate::limits::Limits;
use octets::{octet, same};

// Whether the first fault of the element at the front of `s` is the order: it is smaller than the member `prior` before it.
pub(crate) fn fallen(limits: Limits, prior: &[u8], s: &[u8], left: usize, count: usize) -> bool
    ensures { MatchBool result ((forms : Forms) → Given limits left forms → Falls forms prior.now s.now (forms.depth + 1 - left) count)
        ((forms : Forms) → Given limits left forms → Stands forms prior.now s.now (forms.depth + 1 - left) count) }
{
    if prior.len() == 0 {
        return false;
    }
    let Some(Heading { tag, skip, size }) = header(limits, s) else {
        return false;
    };
    if left == 0 || limits.most <= count {
        return false;
    }
    precedes(&s[..skip + size], prior)
}

// Whether one encoding is smaller than another, the shorter padded with zero octets.
fn precedes(a: &[u8], b: &[u8]) -> bool
    ensures { result ≡ smaller a.now b.now }
{
    for i in alike_to(a, b)..b.len() {
        let x = octet(a, i);
        if x != b[i] {
            return x < b[i];
        }
    }
    false
}

// A number of octets at the front of both that are the same, in blocks of 16.
fn alike_to(a: &[u8], b: &[u8]) -> usize
    ensures { (result ≤ length a.now) × (result ≤ length b.now) × (take result a.now ≡ take result b.now) }
{
    let mut i = 0;
    while i + 16 <= a.len() && i + 16 <= b.len() && same(&a[i..i + 16], &b[i..i + 16]) {
        i += 16;
    }
    i
}
