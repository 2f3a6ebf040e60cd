// The trust image: its entries and day, one entry, the bytes of an item.
#![tactic(auto)]

mod reading;

ghost use Rattle.std.specs.Prelude.{◌≡◌, cond, ℕ, ◌+◌, ◌*◌, ◌^◌, ◌≤◌, ◌<◌, leb, eqb, length, get_or, take, drop};
ghost use Rattle.octets.specs.Octets.{number};
ghost use Rattle.image.specs.Index.{field, index_start, width, letter_at, entry_at, entry_of};
ghost use Rattle.image.specs.Rules.{fields_good, entry_good, padded, sum_of};
ghost use Rattle.image.specs.Answer.{opened_of, opened_as, opened_within, opened_for, place_of, item_of};

use calendar::real_day;
use octets::{octet, part};
pub use reading::{Reading, read, read_as};
use refusal::Refusal;

// The octets that an index entry of every version begins with: kind, flags, length, offset.
const LEAST: usize = 8;

// The number of entries, the day and the version of a good image.
#[derive(Clone, Copy)]
pub struct Opened {
    pub entries: usize,
    pub day: u64,
    pub version: usize,
}

// Kind 1 anchor, 2 link, 3 document signer, 4 CRL; flags 1 for an enabled anchor; where the item stands; the letters of its
// issuer's country, as the index tells them, zeros in version 1.
#[derive(Clone, Copy)]
pub struct IndexEntry {
    pub kind: usize,
    pub flags: usize,
    pub length: usize,
    pub offset: usize,
    pub first: u8,
    pub second: u8,
}

// Reads trailer and index; no item is opened.
pub fn open(image: &[u8]) -> Result<Opened, Refusal>
    ensures { result ≡ opened_of image.now }
{
    open_within(image, 1, 2)
}

// The same for an image of one version: of another it is refused.
pub fn open_as(image: &[u8], version: usize) -> Result<Opened, Refusal>
    ensures { result ≡ opened_as version image.now }
{
    open_within(image, version, version)
}

// The rules in their order, for versions from a least to a most.
fn open_within(image: &[u8], least: usize, most: usize) -> Result<Opened, Refusal>
    ensures { result ≡ opened_within least most image.now }
{
    let n = image.len();
    if n < 12 {
        return Err(Refusal::Image { rule: 1 });
    }
    if 262144 < n {
        return Err(Refusal::Image { rule: 1 });
    }
    let version = two(image, n - 6);
    if version < least {
        return Err(Refusal::Image { rule: 2 });
    }
    if most < version {
        return Err(Refusal::Image { rule: 2 });
    }
    let entries = two(image, n - 8);
    if 96 < entries {
        return Err(Refusal::Image { rule: 3 });
    }
    let day = four(image, n - 4) as u64;
    if !real_day(day) {
        return Err(Refusal::Image { rule: 4 });
    }
    let start = four(image, n - 12);
    if start + width(version) * entries + 12 != n {
        return Err(Refusal::Image { rule: 5 });
    }
    let Some(sum) = sum_entries(version, image, start, entries) else {
        return Err(Refusal::Image { rule: 6 });
    };
    if sum != start {
        return Err(Refusal::Image { rule: 7 });
    }
    Ok(Opened {
        entries,
        day,
        version,
    })
}

// The same for a wanted day: a stale image is refused.
pub fn open_for(image: &[u8], wanted: u64) -> Result<Opened, Refusal>
    ensures { result ≡ opened_for image.now wanted }
{
    if !real_day(wanted) {
        return Err(Refusal::Argument);
    }
    let opened = open(image)?;
    if opened.day != wanted {
        return Err(Refusal::Day);
    }
    Ok(opened)
}

// One entry by its place: the image's 5, then 1 for a place that is not there.
pub fn entry(image: &[u8], place: u64) -> Result<IndexEntry, Refusal>
    ensures { result ≡ place_of image.now place }
{
    let reading = read(image)?;
    if reading.entries() as u64 <= place {
        return Err(Refusal::Argument);
    }
    Ok(reading.entry(place as usize))
}

// The bytes of an item, as a part of the image; an empty part on a refusal.
pub fn item(image: &[u8], place: u64) -> &[u8]
    ensures { result.now ≡ item_of image.now place }
{
    let Ok(e) = entry(image, place) else {
        return &image[0..0];
    };
    part(image, e.offset, e.length)
}

// The octets of an index entry, by the version of the image.
#[tactic(auto, unfolding(crate::specs::Index::width))]
pub fn width(version: usize) -> usize
    ensures { result ≡ width version }
{
    if version == 2 { 12 } else { LEAST }
}

// The entry of a place as it stands in an image's index of a version; octets beyond the end are not there, and zeros where there
// is none.
pub fn entry_of(version: usize, image: &[u8], place: usize) -> IndexEntry
    ensures { result ≡ entry_of version image.now place }
{
    let n = image.len();
    if n / LEAST < place {
        return IndexEntry {
            kind: 0,
            flags: 0,
            length: 0,
            offset: 0,
            first: 0,
            second: 0,
        };
    }
    let at = entry_start(version, image, place);
    if n < at + width(version) {
        return entry_cut(version, image, at);
    }
    entry_at(version, image, at)
}

// The kinds in the entries of 96 places; 0 where the octet is not there.
pub fn kinds_in(version: usize, image: &[u8]) -> [u8; 96]
    ensures { (place : ℕ) → place < 96 → get_or result place 0 ≡ (entry_of version image.now place).kind }
{
    let wide = width(version);
    let mut kinds = [0u8; 96];
    let mut at = index_start(image);
    let mut place = 0;
    while place < 96 {
        kinds[place] = octet(image, at);
        at += wide;
        place += 1;
    }
    kinds
}

// Where the entry of a place starts, if so many of the least entries have room in the image: no sum wraps.
fn entry_start(version: usize, image: &[u8], place: usize) -> usize
    requires { 8 * place ≤ length image.now }
    ensures { (result ≡ index_start image.now + width version * place) × (result + 12 < 2 ^ 64) }
{
    index_start(image) + width(version) * place
}

fn index_start(image: &[u8]) -> usize
    ensures { (result ≡ index_start image.now) × (result < 2 ^ 32) }
{
    let n = image.len();
    if n < 12 {
        return number(image, 0, 4);
    }
    four(image, n - 12)
}

// The index entry of a version at an offset, all of it there.
fn entry_at(version: usize, image: &[u8], at: usize) -> IndexEntry
    requires { at + width version ≤ length image.now }
    ensures { (result ≡ entry_at version image.now at) × (result.length < 65536) }
{
    let first = letter(version, image, at + 8);
    let second = letter(version, image, at + 9);
    IndexEntry {
        kind: image[at] as usize,
        flags: image[at + 1] as usize,
        length: two(image, at + 2),
        offset: four(image, at + 4),
        first,
        second,
    }
}

// The same where some of its octets lie beyond the end.
fn entry_cut(version: usize, image: &[u8], at: usize) -> IndexEntry
    requires { at + 12 < 2 ^ 64 }
    ensures { result ≡ entry_at version image.now at }
{
    IndexEntry {
        kind: number(image, at, 1),
        flags: number(image, at + 1, 1),
        length: number(image, at + 2, 2),
        offset: number(image, at + 4, 4),
        first: letter(version, image, at + 8),
        second: letter(version, image, at + 9),
    }
}

// An octet that version 2 alone has: 0 where there is none.
fn letter(version: usize, image: &[u8], at: usize) -> u8
    ensures { result ≡ letter_at version image.now at }
{
    if version != 2 {
        return 0;
    }
    if image.len() <= at {
        return 0;
    }
    image[at]
}

// The numbers in two and in four octets that are there.
fn two(image: &[u8], at: usize) -> usize
    requires { at + 2 ≤ length image.now }
    ensures { (result ≡ field image.now at 2) × (result < 65536) }
{
    let high = image[at] as usize;
    let low = image[at + 1] as usize;
    high * 256 + low
}

fn four(image: &[u8], at: usize) -> usize
    requires { at + 4 ≤ length image.now }
    ensures { (result ≡ field image.now at 4) × (result < 2 ^ 32) }
{
    two(image, at) * 65536 + two(image, at + 2)
}

// The number in the octets that are there of a few.
fn number(image: &[u8], at: usize, count: usize) -> usize
    requires { count ≤ 4 }
    ensures { (result ≡ field image.now at count) × (result < 2 ^ 32) }
{
    number_of(part(image, at, count))
}

fn number_of(c: &[u8]) -> usize
    requires { length c.now ≤ 4 }
    ensures { (result ≡ number c.now) × (result < 2 ^ 32) }
{
    let mut value = 0;
    let mut i = 0;
    while i < c.len() {
        value = value * 256 + c[i] as usize;
        i += 1;
    }
    value
}

// The sum of the lengths of entries in a row, if each is good.
fn sum_entries(version: usize, image: &[u8], start: usize, entries: usize) -> Option<usize>
    requires { (start + width version * entries + 12 ≤ length image.now) × (entries ≤ 96) }
    ensures { result ≡ sum_of version image.now start entries 0 }
{
    let wide = width(version);
    let end = start + wide * entries;
    let mut sum = 0;
    let mut at = start;
    while at < end {
        let e = entry_at(version, image, at);
        if !entry_good(e, sum) {
            return None;
        }
        if !padding_good(version, image, at) {
            return None;
        }
        sum += e.length;
        at += wide;
    }
    Some(sum)
}

// The two octets behind the letters are zeros; version 1 has none.
#[tactic(auto, unfolding(crate::specs::Rules::padded))]
fn padding_good(version: usize, image: &[u8], at: usize) -> bool
    requires { at + width version ≤ length image.now }
    ensures { result ≡ padded version image.now at }
{
    version != 2 || two(image, at + 10) == 0
}

// Kind, flags and length in their ranges, the offset the sum of the lengths before.
#[tactic(auto, unfolding(crate::specs::Rules::entry_good))]
fn entry_good(e: IndexEntry, sum: usize) -> bool
    ensures { result ≡ entry_good e sum }
{
    fields_good(e.kind, e.flags, e.length) && e.offset == sum
}

// Kind 1 to 4, flags 0 or 1 for an anchor and 0 for any other, length 1 to 16,384.
#[tactic(auto, unfolding(crate::specs::Rules::fields_good))]
pub fn fields_good(kind: usize, flags: usize, length: usize) -> bool
    ensures { result ≡ fields_good kind flags length }
{
    1 <= kind && kind <= 4 && flags_good(kind, flags) && 1 <= length && length <= 16384
}

fn flags_good(kind: usize, flags: usize) -> bool
    ensures { result ≡ cond (eqb kind 1) (leb flags 1) (eqb flags 0) }
{
    flags == 0 || (kind == 1 && flags == 1)
}
