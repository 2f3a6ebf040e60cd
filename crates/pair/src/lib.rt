// Two images read as one: a first, and an update whose places follow on.
#![tactic(auto)]

mod fetching;
mod parts;
mod places;

ghost use Rattle.std.specs.Prelude.{◌≡◌};
ghost use Rattle.pair.specs.Answer.{pair_of};

pub use fetching::{Held, fetch, pair_entry};
use image::read;
pub use parts::part_over;
pub use places::{Kinds, alone, entry_over, kinds_over};
use refusal::Refusal;

// How many places there are, how many of them the first image has, and the versions of both.
#[derive(Clone, Copy)]
pub struct Span {
    pub places: usize,
    pub own: usize,
    pub version: usize,
    pub later: usize,
}

// The places of both images, and the update's day.
#[derive(Clone, Copy)]
pub struct Joint {
    pub span: Span,
    pub day: u64,
}

// Reads trailers and indexes. Refusals in order: 5 of the first image, 5 of the update, 3 for over 96 entries together, 6 for an update
// whose day is earlier.
pub fn open_pair(first: &[u8], update: &[u8]) -> Result<Joint, Refusal>
    ensures { result ≡ pair_of first.now update.now }
{
    let own = read(first)?;
    let later = read(update)?;
    let places = own.entries() + later.entries();
    if 96 < places {
        return Err(Refusal::Limit { at: 0 });
    }
    let day = later.day();
    if day < own.day() {
        return Err(Refusal::Day);
    }
    let span = Span {
        places,
        own: own.entries(),
        version: own.version(),
        later: later.version(),
    };
    Ok(Joint { span, day })
}
