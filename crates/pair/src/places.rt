// The places of two images, a first and an update, read as one: their entries and kinds.
ghost use Rattle.std.specs.Prelude.{◌≡◌, ℕ, ◌<◌, get_or};
ghost use Rattle.pair.specs.Places.{alone, entry_over};

use crate::Span;
use image::{IndexEntry, entry_of, kinds_in};

// An image by itself.
pub fn alone(entries: usize, version: usize) -> Span
    ensures { result ≡ alone entries version }
{
    Span {
        places: entries,
        own: entries,
        version,
        later: 0,
    }
}

// The entry of a place; its offset counts over the octets of both.
pub fn entry_over(span: Span, first: &[u8], update: &[u8], place: usize) -> IndexEntry
    ensures { result ≡ entry_over span first.now update.now place }
{
    if place < span.own {
        return entry_of(span.version, first, place);
    }
    let e = entry_of(span.later, update, place - span.own);
    IndexEntry {
        kind: e.kind,
        flags: e.flags,
        length: e.length,
        offset: first.len() + e.offset,
        first: e.first,
        second: e.second,
    }
}

// A kind for each of 96 places.
pub type Kinds = [u8; 96];

// The kinds of the places, of 96 at most. An update without places is not read.
pub fn kinds_over(span: Span, first: &[u8], update: &[u8]) -> Kinds
    ensures { (place : ℕ) → place < 96 → place < span.places → get_or result place 0 ≡ (entry_over span first.now update.now place).kind }
{
    let own = span.own;
    let mut kinds = kinds_in(span.version, first);
    if span.places <= own {
        return kinds;
    }
    let later = kinds_in(span.later, update);
    let mut place = own;
    while place < 96 {
        kinds[place] = later[place - own];
        place += 1;
    }
    kinds
}
