// The enabled anchors of a country: by the letters that they report, or by those that the index tells.
#![tactic(auto)]

ghost use Rattle.std.specs.Prelude.{◌≡◌, ◌&&◌};
ghost use Rattle.image.specs.Chosen.{places_from};
ghost use Rattle.image.specs.Index.{entry_in, item_at, items_in};
ghost use Rattle.names.specs.Names.{is_capital};
ghost use Rattle.anchors.specs.Listing.{listed_as, anchors_of, anchors_by_index};
ghost use Rattle.anchors.specs.Inner.{test_for};

use image::{Reading, read, read_as};
use letters::{Country, spell, true_letters};
use refusal::Refusal;

// How many places, and these in ascending order, unused slots 255.
#[derive(Clone, Copy)]
pub struct Listing {
    pub count: usize,
    pub places: [u8; 96],
}

// The enabled anchors that pass their profile and report two letters. Refusals in order: 1 for letters outside A to Z; the image's 5.
// Each enabled anchor is opened once, and no other item.
#[tactic(auto, unfolding(crate::specs::Listing::anchors_of, crate::specs::Listing::listed_of, crate::specs::Listing::on_opened, crate::specs::Inner::test_for))]
pub fn anchors_of(image: &[u8], first: u64, second: u64) -> Result<Listing, Refusal>
    ensures { result ≡ anchors_of image.now first second }
{
    if !capitals(first, second) {
        return Err(Refusal::Argument);
    }
    Ok(among(&read(image)?, false, first as u8, second as u8))
}

// The enabled anchors whose letters in the index are two letters, of an image of version 2. No item is opened. Where the letters of
// the image are true the answer is that of `anchors_of`.
#[tactic(auto, unfolding(crate::specs::Listing::anchors_by_index, crate::specs::Listing::listed_of, crate::specs::Listing::on_opened, crate::specs::Inner::test_for))]
pub fn anchors_by_index(image: &[u8], first: u64, second: u64) -> Result<Listing, Refusal>
    ensures { result ≡ anchors_by_index image.now first second }
{
    if !capitals(first, second) {
        return Err(Refusal::Argument);
    }
    Ok(among(&read_as(image, 2)?, true, first as u8, second as u8))
}

// The places of the anchors that are asked for. Of other kinds nothing more is read.
fn among(image: &Reading, indexed: bool, first: u8, second: u8) -> Listing
    ensures { result ≡ listed_as (places_from (test_for indexed first second) 0 (items_in image.now)) }
{
    let kinds = image.kinds();
    let mut places = [255u8; 96];
    let mut count = 0;
    for place in 0..image.entries() {
        if kinds[place] == 1 && asked_for(image, place, indexed, first, second) {
            places[count] = place as u8;
            count += 1;
        }
    }
    Listing { count, places }
}

// Whether the anchor of a place is enabled and has two letters: those in its entry, or else those that it reports.
fn asked_for(image: &Reading, place: usize, indexed: bool, first: u8, second: u8) -> bool
    requires { (entry_in image.now place).kind ≡ 1 }
    ensures { result ≡ test_for indexed first second (item_at image.now (entry_in image.now place)) }
{
    let e = image.entry(place);
    if e.flags != 1 {
        return false;
    }
    let told = if indexed {
        Country {
            first: e.first,
            second: e.second,
        }
    } else {
        true_letters(image.item(place), e.kind)
    };
    spell(first, second, told)
}

// Whether two numbers are letters from A to Z.
fn capitals(first: u64, second: u64) -> bool
    ensures { result ≡ (is_capital first && is_capital second) }
{
    capital(first) && capital(second)
}

#[tactic(auto, unfolding(names::specs::Names::is_capital))]
fn capital(letter: u64) -> bool
    ensures { result ≡ is_capital letter }
{
    65 <= letter && letter <= 90
}
