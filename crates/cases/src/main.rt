// Answers the questions on standard input, a line of text for each.
#![tactic(auto)]

ghost use Rattle.std.specs.Prelude.{◌≤◌, length, IfOk};

mod ask;
mod certificates;
mod chains;
mod countries;
mod days;
mod images;
mod items;
mod lists;
mod proposals;
mod record;
mod rooms;
mod say;
mod signers;
mod sums;
mod trays;
mod versions;
mod writing;

use std::io;
use std::io::{Print, Read};

fn main(rt: HostRuntime) -> io::Result<()> {
    let mut space = [0u8; 300_000];
    all_questions(&rt, &mut rt.stdin(), &mut space)
}

// A proved loop has to end, and nothing says that the input does. So the turns are counted, up to a number that no run uses up.
fn all_questions<R: Print, I: Read>(rt: &R, input: &mut I, space: &mut [u8]) -> io::Result<()> {
    for _ in 0..u64::MAX {
        if !one_question(rt, input, space)? {
            return Ok(());
        }
    }
    Ok(())
}

// Reads the next question and answers it, and tells whether to go on.
fn one_question<R: Print, I: Read>(rt: &R, input: &mut I, space: &mut [u8]) -> io::Result<bool> {
    let mut head = [0u8; 32];
    let got = read_full(input, &mut head)?;
    if got == 0 {
        return Ok(false);
    }
    if got < 32 {
        return ended(rt, b"the input ends inside a record\n");
    }
    let question = record::read_head(&head);
    let label = question.label;
    let size = question.size;
    if space.len() < label {
        return ended(rt, b"a record is too long\n");
    }
    if space.len() - label < size {
        return ended(rt, b"a record is too long\n");
    }
    let end = label + size;
    if read_full(input, &mut space[0..end])? < end {
        return ended(rt, b"the input ends inside a record\n");
    }
    say::text(rt, &space[0..label])?;
    say::text(rt, b": ")?;
    ask::answer(rt, question, &space[label..end])?;
    say::text(rt, b"\n")?;
    Ok(true)
}

// Fills a buffer as far as the input goes, and tells how far that is.
fn read_full<I: Read>(input: &mut I, buffer: &mut [u8]) -> io::Result<usize>
    ensures { IfOk result (λ n. n ≤ length buffer.old) }
{
    let mut filled = 0;
    while filled < buffer.len() {
        let got = input.read(&mut buffer[filled..])?;
        if got == 0 {
            return Ok(filled);
        }
        filled += got;
    }
    Ok(filled)
}

fn ended<R: Print>(rt: &R, why: &[u8]) -> io::Result<bool> {
    say::text(rt, why)?;
    Ok(false)
}
