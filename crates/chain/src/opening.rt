// The items of the places that are near, each opened once.
ghost use Rattle.std.specs.Prelude.{◌≡◌, ◌≤◌, ◌<◌, List, length, get_or, set, replicate};
ghost use Rattle.image.specs.Items.{Item};
ghost use Rattle.image.specs.Index.{entry_count, version_in, items_in};
ghost use Rattle.usable.specs.Items.{item_at};
ghost use Rattle.usable.specs.Rows.{row_from, row_of};
ghost use Rattle.chain.specs.Near.{fresh_of};
ghost use Rattle.chain.specs.Rounds.{starts_in, speaks_up, wanted_of, Opens};

use image::entry_of;
use octets::part;
use usable::{of_country, open_item};

// The row of a place.
pub(crate) fn open_place(version: usize, image: &[u8], moment: u64, place: usize) -> [usize; 17]
    requires { (version ≡ version_in image.now) × (place < entry_count image.now) }
    ensures { row_from result ≡ row_of moment (item_at (items_in image.now) place) (starts_in image.now place) }
{
    let e = entry_of(version, image, place);
    let item = part(image, e.offset, e.length);
    open_item(item, e.kind, e.flags, e.offset, moment)
}

// With the row of the target in its place, the rows of the others that are near: all of them of its country.
pub(crate) fn open_first(
    version: usize,
    image: &[u8],
    table: &[u8],
    places: usize,
    moment: u64,
    target: usize,
    signer: [usize; 17],
    near: [u8; 96],
    rows: &mut [[usize; 17]; 96],
)
    requires { (version ≡ version_in image.now) × (places ≡ entry_count image.now) × (places ≤ 96) × (target < places) × (length rows.old ≡ 96) }
    ensures { (length rows.new ≡ 96) × Opens moment (get_or signer 1 0) (get_or signer 2 0) places table.now (items_in image.now) (starts_in image.now) (set (replicate 96 0) target 1) near (set rows.old target signer) rows.new }
{
    let first = signer[1];
    let second = signer[2];
    rows[target] = signer;
    let mut opened = [0u8; 96];
    opened[target] = 1;
    open_items(
        version, image, table, places, moment, first, second, opened, near, rows,
    );
}

// The rows of the places that were not near before; the others stay as they are.
pub(crate) fn open_items(
    version: usize,
    image: &[u8],
    table: &[u8],
    places: usize,
    moment: u64,
    first: usize,
    second: usize,
    before: [u8; 96],
    near: [u8; 96],
    rows: &mut [[usize; 17]; 96],
)
    requires { (version ≡ version_in image.now) × (places ≡ entry_count image.now) × (places ≤ 96) × (length rows.old ≡ 96) }
    ensures { (length rows.new ≡ 96) × Opens moment first second places table.now (items_in image.now) (starts_in image.now) before near rows.old rows.new }
{
    for place in 0..places {
        if fresh(before[place], near[place]) {
            let e = entry_of(version, image, place);
            let item = part(image, e.offset, e.length);
            if wanted(table, places, place, item, e.kind, first, second) {
                rows[place] = open_item(item, e.kind, e.flags, e.offset, moment);
            }
        }
    }
}

// Near now and not before.
fn fresh(before: u8, near: u8) -> bool
    ensures { result ≡ fresh_of before near }
{
    near == 1 && before != 1
}

// What is of another country stays shut, and an anchor from which no verdict leads on; of links and the target it is not asked.
fn wanted(
    table: &[u8],
    places: usize,
    place: usize,
    item: &[u8],
    kind: usize,
    first: usize,
    second: usize,
) -> bool
    requires { (places ≤ 96) × (place < places) }
    ensures { (items : List Item) → (item_at items place).kind ≡ kind → (item_at items place).bytes ≡ item.now → result ≡ wanted_of first second places table.now items place }
{
    if kind == 2 || kind == 3 {
        return true;
    }
    if kind == 1 && !speaks_up(table, places, place) {
        return false;
    }
    of_country(item, kind, first, second)
}

// Whether the place has verdict 1 for some other, with no exit before the last octet of its line.
fn speaks_up(table: &[u8], places: usize, place: usize) -> bool
    requires { (places ≤ 96) × (place < places) }
    ensures { result ≡ speaks_up places table.now place }
{
    let line = part(table, place * places, places);
    let mut speaks = false;
    for octet in line {
        speaks = speaks | (*octet == 1);
    }
    speaks
}
