// Questions about chains, asked of both searches. The first bytes are the image, those behind it the table of verdicts.
use crate::say;
use chain::{Answer, Outcome};
use std::io;
use std::io::Print;

pub(crate) fn best<R: Print>(
    rt: &R,
    bytes: &[u8],
    image: u64,
    moment: u64,
    target: u64,
) -> io::Result<()> {
    let end = bytes.len();
    if (end as u64) < image {
        return say::text(rt, b"no such question");
    }
    let middle = image as usize;
    tell(
        rt,
        chain::best_chain(&bytes[0..middle], &bytes[middle..end], moment, target),
    )?;
    say::text(rt, b"; by rounds ")?;
    tell(
        rt,
        chain::best_chain_by_rounds(&bytes[0..middle], &bytes[middle..end], moment, target),
    )
}

fn tell<R: Print>(rt: &R, answer: Answer) -> io::Result<()> {
    let outcome = answer.outcome;
    let length = answer.length;
    let slots = answer.places;
    show(rt, outcome, length, &slots)
}

// The chain or the refusal, and the slots beyond the length.
fn show<R: Print>(rt: &R, outcome: Outcome, length: usize, slots: &[u8]) -> io::Result<()> {
    let end = slots.len();
    if end < length {
        return say::text(rt, b"more places than slots");
    }
    match outcome {
        Outcome::Shown => {
            say::text(rt, b"chain of ")?;
            say::number(rt, length as u64)?;
            say::text(rt, b":")?;
            places(rt, &slots[0..length])
        }
        Outcome::Refused(refusal) => {
            say::refused(rt, refusal)?;
            say::text(rt, b", length ")?;
            say::number(rt, length as u64)
        }
    }?;
    others(rt, &slots[length..end])
}

// Whether every slot that is not used holds 255.
pub(crate) fn others<R: Print>(rt: &R, slots: &[u8]) -> io::Result<()> {
    say::text(rt, b", other slots ")?;
    if unused(slots) {
        say::text(rt, b"255")
    } else {
        say::text(rt, b"not all 255")
    }
}

pub(crate) fn places<R: Print>(rt: &R, slots: &[u8]) -> io::Result<()> {
    for slot in slots {
        say::text(rt, b" ")?;
        say::number(rt, *slot as u64)?;
    }
    Ok(())
}

fn unused(slots: &[u8]) -> bool {
    let mut i = 0;
    while i < slots.len() {
        if slots[i] != 255 {
            return false;
        }
        i += 1;
    }
    true
}
