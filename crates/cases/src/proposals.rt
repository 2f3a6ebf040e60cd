// Proposed chains. The first bytes are the image, then an octet says how many places are proposed; these follow, then the table.
use crate::{record, say};
use refusal::Refusal;
use std::io;
use std::io::Print;

pub(crate) fn weigh<R: Print>(
    rt: &R,
    bytes: &[u8],
    image: u64,
    moment: u64,
    target: u64,
) -> io::Result<()> {
    let end = bytes.len();
    if end as u64 <= image {
        return say::text(rt, b"no such question");
    }
    let middle = image as usize;
    behind(rt, &bytes[0..middle], &bytes[middle..end], moment, target)
}

// Finds places and table behind the image.
fn behind<R: Print>(
    rt: &R,
    image: &[u8],
    bytes: &[u8],
    moment: u64,
    target: u64,
) -> io::Result<()> {
    let end = bytes.len();
    if end < 1 {
        return say::text(rt, b"no such question");
    }
    let places = record::number(&bytes[0..1]);
    if ((end - 1) as u64) < places {
        return say::text(rt, b"no such question");
    }
    let table = 1 + places as usize;
    tell(
        rt,
        chain::propose(image, &bytes[table..end], moment, target, &bytes[1..table]),
    )
}

fn tell<R: Print>(rt: &R, proposal: Result<(), Refusal>) -> io::Result<()> {
    match proposal {
        Ok(()) => say::text(rt, b"accepted"),
        Err(refusal) => say::refused(rt, refusal),
    }
}
