// The identifier and length octets of an element.
ghost use Rattle.std.specs.Prelude.{◌≡◌, ◌+◌, ◌-◌, ◌≤◌, ◌<◌, length, get_or};
ghost use Rattle.der.specs.Forms.{Forms};
ghost use Rattle.der.specs.Heading.{identifier_good, wide_good, within, long, smallest, sized, wide_heading, heading_of};
ghost use Rattle.octets.specs.Octets.{number};

use crate::limits::Limits;

// The element at the front of some octets: its identifier, the octets of its header and of its contents.
#[derive(Clone, Copy)]
pub struct Heading {
    pub tag: usize,
    pub skip: usize,
    pub size: usize,
}

#[inline(always)]
pub(crate) fn header(limits: Limits, s: &[u8]) -> Option<Heading>
    ensures { (forms : Forms) → forms.length_octets ≡ limits.digits → forms.wide_tags ≡ limits.wide → result ≡ heading_of forms s.now }
{
    if s.len() < 2 {
        return None;
    }
    let tag = s[0] as usize;
    if identifier(tag) {
        return length_at(limits, s, tag, 1);
    }
    wide_tagged(limits, s)
}

// Bit n tells whether n is a good identifier of the universal class.
const UNIVERSAL: u64 = 0x000300007ffcfffe;

pub(crate) fn identifier(tag: usize) -> bool
    ensures { result ≡ identifier_good tag }
{
    if tag < 64 {
        return (UNIVERSAL >> tag) % 2 == 1;
    }
    tag % 32 != 31
}

// A tag of two octets.
fn wide_tagged(limits: Limits, s: &[u8]) -> Option<Heading>
    requires { 2 ≤ length s.now }
    ensures { (forms : Forms) → forms.length_octets ≡ limits.digits → forms.wide_tags ≡ limits.wide → result ≡ wide_heading forms s.now }
{
    let first = s[0] as usize;
    let second = s[1] as usize;
    if !limits.wide || !wide_good(first, second) || s.len() < 3 {
        return None;
    }
    length_at(limits, s, first * 256 + second, 2)
}

#[tactic(auto, unfolding(crate::specs::Heading::wide_good))]
fn wide_good(first: usize, second: usize) -> bool
    ensures { result ≡ wide_good first second }
{
    first % 32 == 31 && first != 63 && 31 <= second && second <= 127
}

// The header by its length octets, the first of them at `at`.
fn length_at(limits: Limits, s: &[u8], tag: usize, at: usize) -> Option<Heading>
    requires { (at ≤ 2) × (at < length s.now) }
    ensures { (forms : Forms) → forms.length_octets ≡ limits.digits → result ≡ sized forms s.now tag at }
{
    let first = s[at] as usize;
    if first < 128 {
        return ending(s, tag, at + 1, first);
    }
    long_length(limits, s, tag, at + 1, first)
}

// The header by a length in the long form: `first` is the first length octet, the others are from `at` on.
fn long_length(limits: Limits, s: &[u8], tag: usize, at: usize, first: usize) -> Option<Heading>
    requires { (at ≤ 3) × (at ≤ length s.now) × (128 ≤ first) }
    ensures { (forms : Forms) → forms.length_octets ≡ limits.digits → result ≡ long forms s.now tag at (first - 128) }
{
    let count = first - 128;
    if count == 0 || limits.digits < count || s.len() < at + count {
        return None;
    }
    let size = number(&s[at..at + count]);
    if size < least(count) {
        return None;
    }
    ending(s, tag, at + count, size)
}

// The number that at most three octets write.
fn number(c: &[u8]) -> usize
    requires { length c.now ≤ 3 }
    ensures { result ≡ number c.now }
{
    match *c {
        [one] => one as usize,
        [high, low] => high as usize * 256 + low as usize,
        [first, second, third] => (first as usize * 256 + second as usize) * 256 + third as usize,
        _ => 0,
    }
}

// The smallest length that needs so many octets.
fn least(count: usize) -> usize
    requires { (1 ≤ count) × (count ≤ 3) }
    ensures { result ≡ smallest count }
{
    match count {
        1 => 128,
        2 => 256,
        _ => 65536,
    }
}

// The header, unless its contents end beyond the octets at hand.
fn ending(s: &[u8], tag: usize, skip: usize, size: usize) -> Option<Heading>
    requires { skip ≤ length s.now }
    ensures { result ≡ within s.now tag skip size }
{
    if size <= s.len() - skip {
        return Some(Heading { tag, skip, size });
    }
    None
}
