// The walk: an element before its members, left to right, and the first fault met.
ghost use Rattle.std.specs.Prelude.{◌≡◌, true, [], ℕ, ◌+◌, ◌-◌, ◌*◌, ◌^◌, ◌≤◌, ◌<◌, length};
ghost use Rattle.der.specs.Forms.{Forms, paper};
ghost use Rattle.der.specs.Given.{Given};
ghost use Rattle.der.specs.Walk.{element_at, list_at, walk_of, counted};

use crate::contents::contents_good;
use crate::fast::fast_path;
use crate::heading::{Heading, header};
use crate::limits::{Limits, PAPER};
use crate::onward::onward;
use crate::order::fallen;
use crate::place::Place;
use refusal::Refusal;

// An element that was read: the octets that it takes, and the count of elements after it.
#[derive(Clone, Copy)]
pub struct Read {
    pub used: usize,
    pub count: usize,
}

pub fn walk(item: &[u8]) -> Result<usize, Refusal>
    ensures answer { result ≡ walk_of paper item.now }
    ensures limited { counted result ≤ 4096 }
{
    if 16384 < item.len() {
        return Err(Refusal::Limit { at: 0 });
    }
    let start = Place {
        at: 0,
        left: 16,
        count: 0,
    };
    let Read { used, count } = element(PAPER, item, start)?;
    if used == item.len() {
        Ok(count)
    } else {
        Err(Refusal::Der { at: used })
    }
}

// The element at the front of `s`, which stands at `place` in the item: where no levels of depth are left, no element may.
#[cycle(element_list_set_list)]
fn element(limits: Limits, s: &[u8], place: Place) -> Result<Read, Refusal>
    requires { (place.at + length s.now < 2 ^ 32) × (place.count ≤ limits.most) }
    ensures { (forms : Forms) → Given limits place.left forms → (fuel : ℕ) → 2 * length s.now + 1 ≤ fuel
        → result ≡ element_at fuel forms [] s.now place.at (forms.depth + 1 - place.left) place.count }
{
    let Place { at, left, count } = place;
    let Heading { tag, skip, size } = header(limits, s).ok_or(Refusal::Der { at })?;
    if left == 0 || limits.most <= count {
        return Err(Refusal::Limit { at });
    }
    let end = skip + size;
    if s[0] / 32 % 2 == 1 {
        let members = Place {
            at: at + skip,
            left: left - 1,
            count: count + 1,
        };
        let count = list(limits, tag == 49, &s[skip..end], members)?;
        return Ok(Read { used: end, count });
    }
    if contents_good(tag, &s[skip..end]) {
        let count = count + 1;
        return Ok(Read { used: end, count });
    }
    Err(Refusal::Der { at })
}

// The elements that fill `s`, which starts at `start` in the item, `set` where they are the members of a SET.
#[cycle(element_list_set_list)]
fn list(limits: Limits, set: bool, s: &[u8], start: Place) -> Result<usize, Refusal>
    requires { (start.at + length s.now < 2 ^ 32) × (start.count ≤ limits.most) }
    ensures { (forms : Forms) → Given limits start.left forms → (fuel : ℕ) → 2 * length s.now + 2 ≤ fuel
        → result ≡ list_at fuel forms set [] s.now start.at (forms.depth + 1 - start.left) start.count }
{
    if set {
        return set_list(limits, s, start);
    }
    let mut place = Place { at: 0, ..start };
    while place.at < s.len() {
        if let Some(read) = fast_path(s, limits.most, place) {
            place.at += 2 + s[place.at + 1] as usize;
            place.count = read;
        } else if let Some(next) = onward(limits, s, place) {
            place = next;
        } else {
            let next = Place {
                at: start.at + place.at,
                ..place
            };
            let Read { used, count } = element(limits, &s[place.at..], next)?;
            place.at += used;
            place.count = count;
        }
    }
    Ok(place.count)
}

// The members of a SET that fill `s`, each held against the one before it.
#[cycle(element_list_set_list)]
fn set_list(limits: Limits, s: &[u8], start: Place) -> Result<usize, Refusal>
    requires { (start.at + length s.now < 2 ^ 32) × (start.count ≤ limits.most) }
    ensures { (forms : Forms) → Given limits start.left forms → (fuel : ℕ) → 2 * length s.now + 2 ≤ fuel
        → result ≡ list_at fuel forms true [] s.now start.at (forms.depth + 1 - start.left) start.count }
{
    let left = start.left;
    let mut prior = 0;
    let mut at = 0;
    let mut read = start.count;
    while s.len() > at {
        if fallen(limits, &s[prior..at], &s[at..], left, read) {
            return Err(Refusal::Der { at: start.at + at });
        }
        let member = Place {
            at: start.at + at,
            left,
            count: read,
        };
        let Read { used, count } = element(limits, &s[at..], member)?;
        prior = at;
        at += used;
        read = count;
    }
    Ok(read)
}
