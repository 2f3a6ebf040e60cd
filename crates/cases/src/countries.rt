// Questions for the anchors of a country, asked in full and by the index.
use crate::chains::{others, places};
use crate::say;
use anchors::Listing;
use refusal::Refusal;
use std::io;
use std::io::Print;

pub(crate) fn of_letters<R: Print>(
    rt: &R,
    image: &[u8],
    first: u64,
    second: u64,
) -> io::Result<()> {
    tell(rt, anchors::anchors_of(image, first, second))?;
    say::text(rt, b"; by index ")?;
    tell(rt, anchors::anchors_by_index(image, first, second))
}

// The places or the refusal, and the slots beyond the count.
fn tell<R: Print>(rt: &R, listing: Result<Listing, Refusal>) -> io::Result<()> {
    match listing {
        Ok(found) => {
            let count = found.count;
            let slots = found.places;
            let end = slots.len();
            if end < count {
                return say::text(rt, b"more places than slots");
            }
            say::number(rt, count as u64)?;
            say::text(rt, b" anchors:")?;
            places(rt, &slots[0..count])?;
            others(rt, &slots[count..end])
        }
        Err(refusal) => {
            say::refused(rt, refusal)?;
            say::text(rt, b", count 0")?;
            others(rt, &[])
        }
    }
}
