// Writing a trust image.
#![tactic(auto)]

mod copying;
mod picking;

ghost use Rattle.std.specs.Prelude.{◌≡◌, ◌++◌, ◌+◌, ◌*◌, ◌-◌, ◌≤◌, length, drop};
ghost use Rattle.octets.specs.Octets.{big};
ghost use Rattle.image.specs.Items.{letters_bytes, entry_bytes, trailer_bytes};
ghost use Rattle.image.specs.Index.{width};
ghost use Rattle.writer.specs.Rows.{rows_bytes};
ghost use Rattle.writer.specs.Writing.{rows_good, sum_all, version_good, counts_good, zeros, letters_good, arguments_good, written_of, output_of};

use calendar::real_day;
use copying::copy;
use image::{fields_good, width};
pub use picking::write_places;
use refusal::Refusal;

// Writes the image of a version of some items, packed back to back, with their kinds, flags, lengths and letters, and a day. The
// output beyond the image stays; on a refusal all of it stays.
pub fn write(
    packed: &[u8],
    kinds: &[u8],
    flags: &[u8],
    lengths: &[u32],
    letters: &[u8],
    version: u64,
    day: u64,
    out: &mut [u8],
) -> Result<usize, Refusal>
    ensures answer { result ≡ written_of version packed.now kinds.now flags.now lengths.now letters.now day (length out.old) }
    ensures output { out.new ≡ output_of version packed.now kinds.now flags.now lengths.now letters.now day out.old }
{
    if !arguments_good(packed, kinds, flags, lengths, letters, version, day) {
        return Err(Refusal::Argument);
    }
    let form = version as usize;
    let start = packed.len();
    let count = kinds.len();
    let trailer = start + width(form) * count;
    let size = trailer + 12;
    if 262144 < size {
        return Err(Refusal::Limit { at: 0 });
    }
    if out.len() < size {
        return Err(Refusal::Short);
    }
    copy(packed, out);
    put_index(form, kinds, flags, lengths, letters, &mut out[start..]);
    put_trailer(form, start, count, day, &mut out[trailer..]);
    Ok(size)
}

// The version, the day, the columns, the sum of the lengths, and the letters.
fn arguments_good(
    packed: &[u8],
    kinds: &[u8],
    flags: &[u8],
    lengths: &[u32],
    letters: &[u8],
    version: u64,
    day: u64,
) -> bool
    ensures { result ≡ arguments_good version packed.now kinds.now flags.now lengths.now letters.now day }
{
    if !version_good(version) {
        return false;
    }
    if !real_day(day) {
        return false;
    }
    if !counts_good(kinds, flags, lengths, letters) {
        return false;
    }
    if !rows_good(kinds, flags, lengths) {
        return false;
    }
    if sum_all(lengths) != packed.len() {
        return false;
    }
    letters_good(version, letters)
}

#[tactic(auto, unfolding(crate::specs::Writing::version_good))]
fn version_good(version: u64) -> bool
    ensures { result ≡ version_good version }
{
    1 <= version && version <= 2
}

// At most 96 items, and as many flags and lengths, and two letters an item.
#[tactic(auto, unfolding(crate::specs::Writing::counts_good))]
fn counts_good(kinds: &[u8], flags: &[u8], lengths: &[u32], letters: &[u8]) -> bool
    ensures { result ≡ counts_good kinds.now flags.now lengths.now letters.now }
{
    let count = kinds.len();
    count <= 96 && flags.len() == count && lengths.len() == count && letters.len() == 2 * count
}

// Any letters in version 2, zeros in version 1.
#[tactic(auto, unfolding(crate::specs::Writing::letters_good))]
fn letters_good(version: u64, letters: &[u8]) -> bool
    ensures { result ≡ letters_good version letters.now }
{
    version == 2 || all_zeros(letters)
}

// With no exit before the last octet.
fn all_zeros(letters: &[u8]) -> bool
    ensures { result ≡ zeros letters.now }
{
    let mut good = true;
    for letter in letters {
        good &= *letter == 0;
    }
    good
}

fn rows_good(kinds: &[u8], flags: &[u8], lengths: &[u32]) -> bool
    requires { (length flags.now ≡ length kinds.now) × (length lengths.now ≡ length kinds.now) }
    ensures { result ≡ rows_good kinds.now flags.now lengths.now }
{
    let mut i = 0;
    while i < kinds.len() {
        if !fields_good(kinds[i] as usize, flags[i] as usize, lengths[i] as usize) {
            return false;
        }
        i += 1;
    }
    true
}

fn sum_all(lengths: &[u32]) -> usize
    requires { length lengths.now ≤ 96 }
    ensures { result ≡ sum_all lengths.now }
{
    let mut sum = 0;
    for size in lengths {
        sum += *size as usize;
    }
    sum
}

// The index of the columns, each offset the sum of the lengths before it.
fn put_index(
    version: usize,
    kinds: &[u8],
    flags: &[u8],
    lengths: &[u32],
    letters: &[u8],
    out: &mut [u8],
)
    requires { (length flags.now ≡ length kinds.now) × (length lengths.now ≡ length kinds.now) × (length letters.now ≡ 2 * length kinds.now) × (length kinds.now ≤ 96) × (width version * length kinds.now ≤ length out.old) }
    ensures { out.new ≡ rows_bytes version 0 kinds.now flags.now lengths.now letters.now ++ drop (width version * length kinds.now) out.old }
{
    let wide = width(version);
    let mut offset = 0;
    let mut at = 0;
    let mut i = 0;
    while i < kinds.len() {
        let size = lengths[i] as usize;
        let first = letters[2 * i];
        let second = letters[2 * i + 1];
        put_entry(
            version,
            kinds[i],
            flags[i],
            size,
            offset,
            first,
            second,
            &mut out[at..],
        );
        offset += size;
        at += wide;
        i += 1;
    }
}

// An index entry: kind, flags, length and offset, and what the version has behind these.
fn put_entry(
    version: usize,
    kind: u8,
    flags: u8,
    size: usize,
    offset: usize,
    first: u8,
    second: u8,
    out: &mut [u8],
)
    requires { width version ≤ length out.old }
    ensures { out.new ≡ entry_bytes version kind flags size offset first second ++ drop (width version) out.old }
{
    out[0] = kind;
    out[1] = flags;
    put_two(size, &mut out[2..]);
    put_four(offset, &mut out[4..]);
    put_letters(version, first, second, &mut out[8..]);
}

// In version 2 the letters and two zeros, in version 1 nothing.
fn put_letters(version: usize, first: u8, second: u8, out: &mut [u8])
    requires { width version ≤ 8 + length out.old }
    ensures { out.new ≡ letters_bytes version first second ++ drop (width version - 8) out.old }
{
    if version == 2 {
        out[0] = first;
        out[1] = second;
        out[2] = 0;
        out[3] = 0;
    }
}

fn put_trailer(version: usize, start: usize, entries: usize, day: u64, out: &mut [u8])
    requires { 12 ≤ length out.old }
    ensures { out.new ≡ trailer_bytes version start entries day ++ drop 12 out.old }
{
    put_four(start, &mut out[0..]);
    put_two(entries, &mut out[4..]);
    put_two(version, &mut out[6..]);
    put_four(day as usize, &mut out[8..]);
}

// The last two and the last four octets of a number.
fn put_two(n: usize, out: &mut [u8])
    requires { 2 ≤ length out.old }
    ensures { out.new ≡ big 2 n ++ drop 2 out.old }
{
    out[0] = (n / 256 % 256) as u8;
    out[1] = (n % 256) as u8;
}

fn put_four(n: usize, out: &mut [u8])
    requires { 4 ≤ length out.old }
    ensures { out.new ≡ big 4 n ++ drop 4 out.old }
{
    out[0] = (n / 16777216 % 256) as u8;
    out[1] = (n / 65536 % 256) as u8;
    out[2] = (n / 256 % 256) as u8;
    out[3] = (n % 256) as u8;
}
