// Which items of an image stay at a moment.
ghost use Rattle.std.specs.Prelude.{◌≡◌, ◌≤◌, length, take};
ghost use Rattle.image.specs.Index.{entry_in, item_at, items_in};
ghost use Rattle.room.specs.Kept.{stays, kept_places};

use image::Reading;

// How many items stay, and their places in the first slots.
#[derive(Clone, Copy)]
pub(crate) struct Kept {
    pub count: usize,
    pub places: [u8; 96],
}

// Each item is opened once.
pub(crate) fn kept_places(image: &Reading, moment: u64) -> Kept
    ensures { (result.count ≡ length (kept_places moment (items_in image.now))) × (result.count ≤ 96) × (take result.count result.places ≡ kept_places moment (items_in image.now)) }
{
    let mut places = [255u8; 96];
    let mut count = 0;
    for place in 0..image.entries() {
        if place_stays(image, place, moment) {
            places[count] = place as u8;
            count += 1;
        }
    }
    Kept { count, places }
}

// Whether the item of a place stays: a CRL that passes, to its next update; a certificate that passes in the role of its kind, to its end.
fn place_stays(image: &Reading, place: usize, moment: u64) -> bool
    ensures { result ≡ stays moment (item_at image.now (entry_in image.now place)) }
{
    let e = image.entry(place);
    let item = image.item(place);
    if e.kind == 4 {
        crl::judge(item).is_ok_and(|f| moment <= f.next_update)
    } else {
        certificate::judge(item, e.kind as u64).is_ok_and(|f| moment <= f.end)
    }
}
