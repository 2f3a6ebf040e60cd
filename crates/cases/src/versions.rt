// Moves between the versions of an image, and the check of letters. Each octet of the lent output is EE before a call.
use crate::{say, writing};
use std::io;
use std::io::Print;

pub(crate) fn to_2<R: Print>(rt: &R, image: &[u8], room: u64) -> io::Result<()> {
    let mut output = [0xEEu8; 300_000];
    if 300_000 < room {
        return writing::no_question(rt);
    }
    let lent = room as usize;
    forth(rt, image, &mut output[0..lent])
}

fn forth<R: Print>(rt: &R, image: &[u8], output: &mut [u8]) -> io::Result<()> {
    let answer = moves::move_to_2(image, output);
    writing::told(rt, answer, output)
}

pub(crate) fn to_1<R: Print>(rt: &R, image: &[u8], room: u64) -> io::Result<()> {
    let mut output = [0xEEu8; 300_000];
    if 300_000 < room {
        return writing::no_question(rt);
    }
    let lent = room as usize;
    back(rt, image, &mut output[0..lent])
}

fn back<R: Print>(rt: &R, image: &[u8], output: &mut [u8]) -> io::Result<()> {
    let answer = moves::move_to_1(image, output);
    writing::told(rt, answer, output)
}

pub(crate) fn check<R: Print>(rt: &R, image: &[u8]) -> io::Result<()> {
    match letters::letters_true(image) {
        Ok(so) => tell(rt, so),
        Err(refusal) => say::refused(rt, refusal),
    }
}

fn tell<R: Print>(rt: &R, so: bool) -> io::Result<()> {
    if so {
        say::text(rt, b"true")
    } else {
        say::text(rt, b"false")
    }
}
