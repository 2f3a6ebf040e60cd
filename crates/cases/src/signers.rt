// Every signer in one call. The first bytes are the image, those behind it the table of verdicts. Each octet of the lent output is EE
// before the call.
use crate::{say, writing};
use refusal::Refusal;
use std::io;
use std::io::Print;

pub(crate) fn all<R: Print>(
    rt: &R,
    bytes: &[u8],
    image: u64,
    moment: u64,
    room: u64,
) -> io::Result<()> {
    let mut output = [0xEEu8; 300_000];
    let end = bytes.len();
    if (end as u64) < image {
        return writing::no_question(rt);
    }
    if 300_000 < room {
        return writing::no_question(rt);
    }
    let middle = image as usize;
    let lent = room as usize;
    ask(
        rt,
        &bytes[0..middle],
        &bytes[middle..end],
        moment,
        &mut output[0..lent],
    )
}

fn ask<R: Print>(
    rt: &R,
    image: &[u8],
    table: &[u8],
    moment: u64,
    output: &mut [u8],
) -> io::Result<()> {
    tell(rt, chain::all_signers(image, table, moment, output))?;
    writing::lent(rt, output)
}

fn tell<R: Print>(rt: &R, answer: Result<usize, Refusal>) -> io::Result<()> {
    match answer {
        Ok(length) => {
            say::text(rt, b"written ")?;
            say::number(rt, length as u64)
        }
        Err(refusal) => say::refused(rt, refusal),
    }
}
