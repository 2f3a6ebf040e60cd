// Fast paths of the walk: elements of usual kinds with a header of two octets, read without telling a fault. What one of them does
// not take, for which it answers `None` or `false`, the reader of one element does.
ghost use Rattle.std.specs.Prelude.{◌≡◌, true, false, ℕ, ◌+◌, ◌-◌, ◌^◌, ◌≤◌, ◌<◌, length, get_or, IfSome};
ghost use Rattle.der.specs.Forms.{Forms};
ghost use Rattle.der.specs.Heading.{constructed};
ghost use Rattle.der.specs.Fast.{stretch, Reads, Fills, Headed, Last, Unjudged, Leaf};

use crate::contents::{bit_string_good, boolean_good, integer_good, oid_good};
use crate::place::Place;

// The count of elements when the one at `place` has been read, if nothing is wrong with it and it is a primitive with a header of two
// octets, or holds nothing but such.
pub(crate) fn fast_path(s: &[u8], most: usize, place: Place) -> Option<usize>
    requires { (place.at ≤ length s.now) × (length s.now < 2 ^ 32) × (place.count < 2 ^ 32) }
    ensures { IfSome result (λ read. (place.at + 2 ≤ length s.now) × ((forms : Forms) → forms.elements ≡ most → place.left ≤ forms.depth
        → Reads forms (stretch s.now place.at (length s.now)) (forms.depth + 1 - place.left) place.count
        (2 + get_or s.now (place.at + 1) 0) read)) }
{
    let Place { at, left, count } = place;
    let end = s.len();
    if end < at + 2 {
        return None;
    }
    if s[at] / 32 % 2 == 1 {
        if left < 2 {
            return None;
        }
        let read = flat(s, end, place)?;
        if most < read {
            return None;
        }
        return Some(read);
    }
    if left == 0 || most <= count || !primitive(s, at, end) {
        return None;
    }
    Some(count + 1)
}

// Whether the element at `at`, a primitive, has a header of two octets and nothing is wrong with it.
fn primitive(s: &[u8], at: usize, end: usize) -> bool
    requires { (at + 2 ≤ end) × (end ≤ length s.now) × (length s.now < 2 ^ 32) × (constructed (get_or s.now at 0) ≡ false) }
    ensures { result ≡ true → (forms : Forms) (depth count : ℕ) → depth ≤ forms.depth → count < forms.elements
        → Reads forms (stretch s.now at end) depth count (2 + get_or s.now (at + 1) 0) (count + 1) }
{
    let size = s[at + 1] as usize;
    let from = at + 2;
    let after = from + size;
    if 128 <= size || end < after {
        return false;
    }
    let tag = s[at];
    if 63 < tag {
        return tag % 32 != 31;
    }
    unjudged(tag) || judged(tag, &s[from..after])
}

// Whether a universal primitive whose contents are judged has good ones.
#[inline(always)]
fn judged(tag: u8, c: &[u8]) -> bool
    ensures { result ≡ true → Leaf tag c.now }
{
    match tag {
        6 => oid_good(c),
        2 => integer_good(c),
        5 => c.len() == 0,
        1 => boolean_good(c),
        3 => bit_string_good(c),
        _ => false,
    }
}

// The count of elements, by no limit, when the one at `place` has been read, if it holds leaves, but that the last one may be a SEQUENCE
// of them again, or if it is a SET of one such SEQUENCE.
fn flat(s: &[u8], end: usize, place: Place) -> Option<usize>
    requires { (place.at + 2 ≤ end) × (end ≤ length s.now) × (length s.now < 2 ^ 32) × (2 ≤ place.left) × (place.count < 2 ^ 32)
        × (constructed (get_or s.now place.at 0) ≡ true) }
    ensures { IfSome result (λ read. (forms : Forms) → read ≤ forms.elements → place.left ≤ forms.depth
        → Reads forms (stretch s.now place.at end) (forms.depth + 1 - place.left) place.count (2 + get_or s.now (place.at + 1) 0) read) }
{
    let size = s[place.at + 1] as usize;
    let after = place.at + 2 + size;
    if 128 <= size || end < after {
        return None;
    }
    leaves(s, after, behind(s, after, place)?)
}

// Where the leaves of the element at `place` start, which ends at `after`: behind its header, or behind two where it is a SET that one
// SEQUENCE fills. Of another SET the order is asked.
fn behind(s: &[u8], after: usize, place: Place) -> Option<Place>
    requires { (place.at + 2 ≤ after) × (after ≤ place.at + 129) × (after ≤ length s.now) × (length s.now < 2 ^ 32) × (2 ≤ place.left)
        × (place.count < 2 ^ 32) }
    ensures { IfSome result (λ to. Headed s.now place.at after place.left place.count to.at to.left to.count) }
{
    let Place { at, left, count } = place;
    let tag = s[at];
    if tag == 49 {
        if left < 3 || after < at + 4 || !last(s, at + 2, after) {
            return None;
        }
        return Some(Place {
            at: at + 4,
            left: left - 2,
            count: count + 2,
        });
    }
    if tag == 48 || 63 < tag && tag % 32 != 31 {
        return Some(Place {
            at: at + 2,
            left: left - 1,
            count: count + 1,
        });
    }
    None
}

// The count of elements when those from `start` to `end` have been read, if each is a leaf, but the last. A SEQUENCE that ends where the
// list ends is read as the rest of the list, one deeper.
fn leaves(s: &[u8], end: usize, start: Place) -> Option<usize>
    requires { (start.at ≤ end) × (end ≤ start.at + 127) × (end ≤ length s.now) × (length s.now < 2 ^ 32) × (1 ≤ start.left)
        × (start.count ≤ 2 ^ 32 + 1) }
    ensures { IfSome result (λ read. (start.count ≤ read) × ((forms : Forms) → read ≤ forms.elements → start.left ≤ forms.depth
        → Fills forms false (stretch s.now start.at end) (forms.depth + 1 - start.left) start.count read)) }
{
    let Place {
        at: mut i,
        left: mut deep,
        count: mut read,
    } = start;
    while i + 2 <= end {
        if s[i] / 32 % 2 == 1 {
            if deep < 2 || !last(s, i, end) {
                return None;
            }
            deep -= 1;
            i += 2;
        } else {
            i = leaf(s, i, end)?;
        }
        read += 1;
    }
    if i == end { Some(read) } else { None }
}

// Whether the element at `i` is a SEQUENCE that ends at `end`.
fn last(s: &[u8], i: usize, end: usize) -> bool
    requires { (i + 2 ≤ end) × (end ≤ i + 127) × (end ≤ length s.now) × (length s.now < 2 ^ 32) }
    ensures { result ≡ true → Last s.now i end }
{
    s[i] == 48 && i + 2 + s[i + 1] as usize == end
}

// The end of the element at `i` if it is a primitive of the universal class and nothing is wrong with it, but that it may
// end beyond `end`.
fn leaf(s: &[u8], i: usize, end: usize) -> Option<usize>
    requires { (i + 2 ≤ end) × (end ≤ i + 127) × (end ≤ length s.now) × (length s.now < 2 ^ 32) }
    ensures { IfSome result (λ after. (i + 2 ≤ after) × (after ≤ i + 257)
        × (after ≤ end → (forms : Forms) (depth count : ℕ) → depth ≤ forms.depth → count < forms.elements
        → Reads forms (stretch s.now i end) depth count (after - i) (count + 1))) }
{
    let from = i + 2;
    let after = from + s[i + 1] as usize;
    let tag = s[i];
    if tag == 6 {
        if end < after || !oid_good(&s[from..after]) {
            return None;
        }
        return Some(after);
    }
    if tag == 2 {
        if end < after || !integer_good(&s[from..after]) {
            return None;
        }
        return Some(after);
    }
    if unjudged(tag) {
        return Some(after);
    }
    if end < after || !judged(tag, &s[from..after]) {
        return None;
    }
    Some(after)
}

// Bit n tells whether n is a good identifier of a primitive whose contents are not judged.
const UNJUDGED: u64 = 0x000000007ffcff90;

// Whether `tag` is such an identifier, of the universal class.
fn unjudged(tag: u8) -> bool
    ensures { result ≡ true → Unjudged tag }
{
    tag < 64 && (UNJUDGED >> tag) % 2 == 1
}
