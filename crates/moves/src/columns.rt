// The columns of an image's items: what a writer is given beside their octets.
ghost use Rattle.std.specs.Prelude.{◌≡◌, ℕ, ◌<◌};
ghost use Rattle.image.specs.Index.{entry_count, entry_in, item_at};
ghost use Rattle.moves.specs.Moving.{country_for};
ghost use Rattle.moves.specs.Rows.{Small, Tabled};

use image::Reading;
use letters::{Country, NO_COUNTRY, true_letters};

#[derive(Clone, Copy)]
pub(crate) struct Columns {
    pub kinds: [u8; 96],
    pub flags: [u8; 96],
    pub lengths: [u32; 96],
    pub letters: [u8; 192],
}

// Kinds, flags and lengths as the index tells them; letters as they stand in a version.
pub(crate) fn columns_for(image: &Reading, version: usize) -> Columns
    requires { (place : ℕ) → place < entry_count image.now → Small image.now (entry_in image.now place) }
    ensures { Tabled version image.now (entry_count image.now) result.kinds result.flags result.lengths result.letters }
{
    let mut kinds = [0u8; 96];
    let mut flags = [0u8; 96];
    let mut lengths = [0u32; 96];
    let mut letters = [0u8; 192];
    for place in 0..image.entries() {
        let e = image.entry(place);
        let country = country_for(image, place, e.kind, version);
        kinds[place] = e.kind as u8;
        flags[place] = e.flags as u8;
        lengths[place] = e.length as u32;
        letters[2 * place] = country.first;
        letters[2 * place + 1] = country.second;
    }
    Columns {
        kinds,
        flags,
        lengths,
        letters,
    }
}

// The letters that the item of a place, of a kind, has in a version. Only those of version 2 ask for the item.
fn country_for(image: &Reading, place: usize, kind: usize, version: usize) -> Country
    ensures { result ≡ country_for version kind (item_at image.now (entry_in image.now place)).bytes }
{
    if version == 2 {
        true_letters(image.item(place), kind)
    } else {
        NO_COUNTRY
    }
}
