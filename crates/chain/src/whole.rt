// All items of an image, each opened once.
ghost use Rattle.std.specs.Prelude.{◌≡◌, ◌≤◌, length};
ghost use Rattle.image.specs.Index.{entry_count, version_in, items_in};
ghost use Rattle.chain.specs.Rounds.{starts_in};
ghost use Rattle.chain.specs.Whole.{AllOpen};

use crate::opening::open_place;

// The row of each place.
pub(crate) fn open_all(
    version: usize,
    image: &[u8],
    places: usize,
    moment: u64,
    rows: &mut [[usize; 17]; 96],
)
    requires { (version ≡ version_in image.now) × (places ≡ entry_count image.now) × (places ≤ 96) × (length rows.old ≡ 96) }
    ensures { (length rows.new ≡ 96) × AllOpen moment places (items_in image.now) (starts_in image.now) rows.new }
{
    for place in 0..places {
        rows[place] = open_place(version, image, moment, place);
    }
}
