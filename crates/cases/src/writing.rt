// Questions to the writer. The bytes hold the packed items, then the version in eight octets and four counts, each in four
// octets: of the kinds, of the flags, of the letters, of the lengths. Then come these themselves, a length in four octets.
ghost use Rattle.std.specs.Prelude.{◌≤◌, length};

use crate::{record, say, sums};
use refusal::Refusal;
use std::io;
use std::io::Print;

pub(crate) fn write<R: Print>(
    rt: &R,
    bytes: &[u8],
    day: u64,
    room: u64,
    packed: u64,
) -> io::Result<()> {
    let end = bytes.len();
    if (end as u64) < packed {
        return no_question(rt);
    }
    let middle = packed as usize;
    take_apart(rt, &bytes[0..middle], &bytes[middle..end], day, room)
}

// The packed items are octets of one value, and not among the bytes.
pub(crate) fn write_filled<R: Print>(
    rt: &R,
    bytes: &[u8],
    day: u64,
    room: u64,
    packed: u64,
) -> io::Result<()> {
    let filled = [0x5Au8; 300_000];
    if 300_000 < packed {
        return no_question(rt);
    }
    let end = packed as usize;
    take_apart(rt, &filled[0..end], bytes, day, room)
}

// Finds the columns among the bytes.
fn take_apart<R: Print>(
    rt: &R,
    packed: &[u8],
    bytes: &[u8],
    day: u64,
    room: u64,
) -> io::Result<()> {
    let end = bytes.len();
    if end < 24 {
        return no_question(rt);
    }
    let kinds = record::number(&bytes[8..12]);
    if ((end - 24) as u64) < kinds {
        return no_question(rt);
    }
    let flags_at = 24 + kinds as usize;
    let flags = record::number(&bytes[12..16]);
    if ((end - flags_at) as u64) < flags {
        return no_question(rt);
    }
    let letters_at = flags_at + flags as usize;
    let letters = record::number(&bytes[16..20]);
    if ((end - letters_at) as u64) < letters {
        return no_question(rt);
    }
    let lengths_at = letters_at + letters as usize;
    lend(
        rt,
        packed,
        &bytes[0..24],
        &bytes[24..flags_at],
        &bytes[flags_at..letters_at],
        &bytes[letters_at..lengths_at],
        &bytes[lengths_at..end],
        day,
        room,
    )
}

pub(crate) fn no_question<R: Print>(rt: &R) -> io::Result<()> {
    say::text(rt, b"no such question")
}

// Reads the lengths and lends the output.
fn lend<R: Print>(
    rt: &R,
    packed: &[u8],
    head: &[u8],
    kinds: &[u8],
    flags: &[u8],
    letters: &[u8],
    rest: &[u8],
    day: u64,
    room: u64,
) -> io::Result<()>
    requires { 24 ≤ length head.now }
{
    let mut lengths = [0u32; 128];
    let mut output = [0xEEu8; 300_000];
    let version = record::number(&head[0..8]);
    let count = record::number(&head[20..24]);
    if 128 < count {
        return no_question(rt);
    }
    if 300_000 < room {
        return no_question(rt);
    }
    let last = count as usize;
    let lent = room as usize;
    read_lengths(rest, &mut lengths);
    ask(
        rt,
        packed,
        kinds,
        flags,
        &lengths[0..last],
        letters,
        version,
        day,
        &mut output[0..lent],
    )
}

// Big-endian numbers of four octets, as many as there are and there is room for.
fn read_lengths(octets: &[u8], lengths: &mut [u32]) {
    let mut i = 0;
    while i < lengths.len() {
        if octets.len() / 4 <= i {
            return;
        }
        let at = 4 * i;
        lengths[i] = (record::number(&octets[at..at + 4]) % 4294967296) as u32;
        i += 1;
    }
}

fn ask<R: Print>(
    rt: &R,
    packed: &[u8],
    kinds: &[u8],
    flags: &[u8],
    lengths: &[u32],
    letters: &[u8],
    version: u64,
    day: u64,
    output: &mut [u8],
) -> io::Result<()> {
    let answer = writer::write(packed, kinds, flags, lengths, letters, version, day, output);
    told(rt, answer, output)
}

// The answer, and what stands in the output.
pub(crate) fn told<R: Print>(
    rt: &R,
    answer: Result<usize, Refusal>,
    output: &[u8],
) -> io::Result<()> {
    match answer {
        Ok(length) => {
            say::text(rt, b"written ")?;
            say::number(rt, length as u64)
        }
        Err(refusal) => say::refused(rt, refusal),
    }?;
    lent(rt, output)
}

// The checksum of all octets of the output that was lent.
pub(crate) fn lent<R: Print>(rt: &R, output: &[u8]) -> io::Result<()> {
    say::text(rt, b", output ")?;
    say::number(rt, output.len() as u64)?;
    say::text(rt, b" octets, checksum ")?;
    say::number(rt, sums::adler(output))
}
