// The image of some items of another image.
ghost use Rattle.std.specs.Prelude.{◌≡◌, Ok, ◌++◌, ◌+◌, ◌*◌, ◌≤◌, length, drop};
ghost use Rattle.image.specs.Answer.{opened_of, trailer_in};
ghost use Rattle.image.specs.Items.{packed, index_bytes};
ghost use Rattle.image.specs.Index.{width, version_in};
ghost use Rattle.writer.specs.Picking.{picked, inside, picked_of, picked_out};

use crate::copying::copy;
use crate::{put_entry, put_trailer};
use image::{Reading, read, width};
use refusal::Refusal;

// Writes the image of the items at some places of an image, in the order of the places, with its day and version. The output beyond it
// stays; on a refusal all of it stays.
pub fn write_places(image: &[u8], places: &[u8], out: &mut [u8]) -> Result<usize, Refusal>
    ensures answer { result ≡ picked_of image.now places.now (length out.old) }
    ensures output { out.new ≡ picked_out image.now places.now out.old }
{
    write_picked(&read(image)?, places, out)
}

fn write_picked(image: &Reading, places: &[u8], out: &mut [u8]) -> Result<usize, Refusal>
    requires { opened_of image.now ≡ Ok (trailer_in image.now) }
    ensures answer { result ≡ picked_of image.now places.now (length out.old) }
    ensures output { out.new ≡ picked_out image.now places.now out.old }
{
    let count = places.len();
    if 96 < count {
        return Err(Refusal::Argument);
    }
    if !all_inside(image.entries(), places) {
        return Err(Refusal::Argument);
    }
    let start = packed_size(image, places);
    let version = image.version();
    let trailer = start + width(version) * count;
    let size = trailer + 12;
    if 262144 < size {
        return Err(Refusal::Limit { at: 0 });
    }
    if out.len() < size {
        return Err(Refusal::Short);
    }
    put_items(image, places, out);
    put_entries(image, places, &mut out[start..]);
    put_trailer(version, start, count, image.day(), &mut out[trailer..]);
    Ok(size)
}

// Whether all places are among so many.
#[tactic(auto, unfolding(crate::specs::Picking::inside))]
fn all_inside(entries: usize, places: &[u8]) -> bool
    ensures { result ≡ inside entries places.now }
{
    places.iter().all(|place| (*place as usize) < entries)
}

// The octets of the items.
fn packed_size(image: &Reading, places: &[u8]) -> usize
    requires { (length image.now ≤ 262144) × (length places.now ≤ 96) }
    ensures { result ≡ length (packed (picked image.now places.now)) }
{
    let mut size = 0;
    for place in places {
        size += image.item(*place as usize).len();
    }
    size
}

// The items, back to back.
fn put_items(image: &Reading, places: &[u8], out: &mut [u8])
    requires { length (packed (picked image.now places.now)) ≤ length out.old }
    ensures { out.new ≡ packed (picked image.now places.now) ++ drop (length (packed (picked image.now places.now))) out.old }
{
    let mut at = 0;
    for place in places {
        let item = image.item(*place as usize);
        copy(item, &mut out[at..]);
        at += item.len();
    }
}

// Their entries, each offset the sum of the lengths before it.
fn put_entries(image: &Reading, places: &[u8], out: &mut [u8])
    requires { (length (packed (picked image.now places.now)) ≤ 262144) × (width (version_in image.now) * length places.now ≤ length out.old) }
    ensures { out.new ≡ index_bytes (version_in image.now) 0 (picked image.now places.now) ++ drop (width (version_in image.now) * length places.now) out.old }
{
    let version = image.version();
    let wide = width(version);
    let mut offset = 0;
    let mut at = 0;
    for place in places {
        let e = image.entry(*place as usize);
        let size = image.item(*place as usize).len();
        put_entry(
            version,
            e.kind as u8,
            e.flags as u8,
            size,
            offset,
            e.first,
            e.second,
            &mut out[at..],
        );
        offset += size;
        at += wide;
    }
}
