// The entry of a place of two images, and the bytes of its item.
ghost use Rattle.std.specs.Prelude.{◌≡◌};
ghost use Rattle.pair.specs.Answer.{held_of, fetched_of};

use crate::{Joint, open_pair};
use image::{IndexEntry, entry_of};
use octets::part;
use refusal::Refusal;

// An entry as it stands in its image, and whether that is the update.
#[derive(Clone, Copy)]
pub struct Held {
    pub entry: IndexEntry,
    pub update: bool,
}

// One entry by its place: what opening the pair refuses, then 1 for a place that neither image has.
pub fn pair_entry(first: &[u8], update: &[u8], place: u64) -> Result<Held, Refusal>
    ensures { result ≡ held_of first.now update.now place }
{
    let Joint { span, .. } = open_pair(first, update)?;
    if span.places as u64 <= place {
        return Err(Refusal::Argument);
    }
    let at = place as usize;
    if at < span.own {
        return Ok(Held {
            entry: entry_of(span.version, first, at),
            update: false,
        });
    }
    Ok(Held {
        entry: entry_of(span.later, update, at - span.own),
        update: true,
    })
}

// The bytes of an item, as a part of the image that holds them; an empty part on a refusal.
pub fn fetch<'a>(first: &'a [u8], update: &'a [u8], place: u64) -> &'a [u8]
    ensures { result.now ≡ fetched_of first.now update.now place }
{
    let Ok(
        Held {
            entry,
            update: later,
        },
    ) = pair_entry(first, update, place)
    else {
        return &first[0..0];
    };
    if later {
        return part(update, entry.offset, entry.length);
    }
    part(first, entry.offset, entry.length)
}
