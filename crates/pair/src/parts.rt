// A part of whichever of two images holds it.
ghost use Rattle.std.specs.Prelude.{◌≡◌};
ghost use Rattle.pair.specs.Places.{part_over};

use octets::part;

// As many octets as there are, from an offset on that counts over the octets of both.
pub fn part_over<'a>(first: &'a [u8], update: &'a [u8], from: usize, size: usize) -> &'a [u8]
    ensures { result.now ≡ part_over first.now update.now from size }
{
    let own = first.len();
    if from < own {
        return part(first, from, size);
    }
    part(update, from - own, size)
}
