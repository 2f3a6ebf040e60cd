// Room made in an image. The first bytes are the image, those behind it the table of verdicts. The lengths of both lent outputs
// are one number, that of the image's times 2 to the power of 32. Each octet lent is EE before a call.
use crate::{say, sums, writing};
use room::Made;
use std::io;
use std::io::Print;

pub(crate) fn make<R: Print>(
    rt: &R,
    bytes: &[u8],
    image: u64,
    moment: u64,
    rooms: u64,
) -> io::Result<()> {
    let mut output = [0xEEu8; 300_000];
    let mut verdicts = [0xEEu8; 10_000];
    let end = bytes.len();
    let room = rooms / 4294967296;
    let more = rooms % 4294967296;
    if (end as u64) < image {
        return writing::no_question(rt);
    }
    if 300_000 < room {
        return writing::no_question(rt);
    }
    if 10_000 < more {
        return writing::no_question(rt);
    }
    let middle = image as usize;
    let lent = room as usize;
    let lent_more = more as usize;
    ask(
        rt,
        &bytes[0..middle],
        &bytes[middle..end],
        moment,
        &mut output[0..lent],
        &mut verdicts[0..lent_more],
    )
}

fn ask<R: Print>(
    rt: &R,
    image: &[u8],
    table: &[u8],
    moment: u64,
    output: &mut [u8],
    verdicts: &mut [u8],
) -> io::Result<()> {
    match room::make_room(image, table, moment, output, verdicts) {
        Ok(
            Made {
                length,
                table_length,
                entries,
            },
        ) => {
            say::text(rt, b"made ")?;
            say::number(rt, length as u64)?;
            say::text(rt, b", ")?;
            say::number(rt, table_length as u64)?;
            say::text(rt, b", ")?;
            say::number(rt, entries as u64)
        }
        Err(refusal) => say::refused(rt, refusal),
    }?;
    lent(rt, b", image ", output)?;
    lent(rt, b", table ", verdicts)
}

// The checksum of all octets that were lent.
fn lent<R: Print>(rt: &R, name: &[u8], octets: &[u8]) -> io::Result<()> {
    say::text(rt, name)?;
    say::number(rt, octets.len() as u64)?;
    say::text(rt, b" octets, checksum ")?;
    say::number(rt, sums::adler(octets))
}
