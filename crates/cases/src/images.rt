// Questions about trust images.
use crate::{say, sums};
use image::{IndexEntry, Opened};
use refusal::Refusal;
use std::io;
use std::io::Print;

pub(crate) fn open<R: Print>(rt: &R, image: &[u8]) -> io::Result<()> {
    tell(rt, image::open(image))
}

pub(crate) fn open_for<R: Print>(rt: &R, image: &[u8], wanted: u64) -> io::Result<()> {
    tell(rt, image::open_for(image, wanted))
}

fn tell<R: Print>(rt: &R, answer: Result<Opened, Refusal>) -> io::Result<()> {
    match answer {
        Ok(
            Opened {
                entries,
                day,
                version,
            },
        ) => {
            say::text(rt, b"passed, ")?;
            say::number(rt, entries as u64)?;
            say::text(rt, b" entries, day ")?;
            say::number(rt, day)?;
            say::text(rt, b", version ")?;
            say::number(rt, version as u64)
        }
        Err(refusal) => say::refused(rt, refusal),
    }
}

pub(crate) fn entry<R: Print>(rt: &R, image: &[u8], place: u64) -> io::Result<()> {
    match image::entry(image, place) {
        Ok(found) => tell_entry(rt, found),
        Err(refusal) => say::refused(rt, refusal),
    }
}

fn tell_entry<R: Print>(rt: &R, found: IndexEntry) -> io::Result<()> {
    say::text(rt, b"kind ")?;
    say::number(rt, found.kind as u64)?;
    say::text(rt, b", flags ")?;
    say::number(rt, found.flags as u64)?;
    say::text(rt, b", length ")?;
    say::number(rt, found.length as u64)?;
    say::text(rt, b", offset ")?;
    say::number(rt, found.offset as u64)?;
    say::text(rt, b", letters ")?;
    say::number(rt, found.first as u64)?;
    say::text(rt, b" ")?;
    say::number(rt, found.second as u64)
}

// The number of an item's octets, and their checksum.
pub(crate) fn item<R: Print>(rt: &R, image: &[u8], place: u64) -> io::Result<()> {
    let octets = image::item(image, place);
    say::number(rt, octets.len() as u64)?;
    say::text(rt, b" octets, checksum ")?;
    say::number(rt, sums::adler(octets))
}
