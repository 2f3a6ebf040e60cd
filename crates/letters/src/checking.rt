// The check of an image's letters.
ghost use Rattle.std.specs.Prelude.{◌≡◌};
ghost use Rattle.image.specs.Index.{items_in};
ghost use Rattle.letters.specs.TrueLetters.{all_lettered};
ghost use Rattle.letters.specs.Check.{checked_of};

use crate::telling::{spell, true_letters};
use image::{Reading, read_as};
use refusal::Refusal;

// Refusals as of reading an image of version 2; else whether the letters of each item are its true ones.
pub fn letters_true(image: &[u8]) -> Result<bool, Refusal>
    ensures { result ≡ checked_of image.now }
{
    Ok(all_lettered(&read_as(image, 2)?))
}

// Whether the letters of all items are their true ones.
fn all_lettered(image: &Reading) -> bool
    ensures { result ≡ all_lettered (items_in image.now) }
{
    for place in 0..image.entries() {
        let e = image.entry(place);
        if !spell(e.first, e.second, true_letters(image.item(place), e.kind)) {
            return false;
        }
    }
    true
}
