// An image without what is past, and its verdict table cut to match.
#![tactic(auto)]

mod cutting;
mod keeping;

ghost use Rattle.std.specs.Prelude.{◌≡◌, ◌≤◌, length};
ghost use Rattle.writer.specs.Picking.{picked_bytes};
ghost use Rattle.room.specs.Kept.{cut};
ghost use Rattle.room.specs.Making.{made_of, on_made, image_out, table_out};
ghost use Rattle.room.specs.Inner.{put_of};

use calendar::real_moment;
use cutting::cut_lines;
use image::read;
use keeping::kept_places;
use refusal::Refusal;
use usable::table_good;
use writer::write_places;

// The lengths of both outputs, and how many items stay.
#[derive(Clone, Copy)]
pub struct Made {
    pub length: usize,
    pub table_length: usize,
    pub entries: usize,
}

// Writes the image of the items that pass their profile for their kind and whose end, or next update, does not lie before the moment, with
// its day and version, and the verdict table cut to them into `lines`. Refusals in order: the image's 5; 1 for the table, the moment; 9 where
// either output is too short. Both outputs beyond what is written stay; on a refusal all of them stays.
pub fn make_room(
    image: &[u8],
    table: &[u8],
    moment: u64,
    out: &mut [u8],
    lines: &mut [u8],
) -> Result<Made, Refusal>
    ensures answer { result ≡ made_of image.now table.now moment (length out.old) (length lines.old) }
    ensures image { out.new ≡ image_out image.now table.now moment out.old lines.old }
    ensures table { lines.new ≡ table_out image.now table.now moment out.old lines.old }
{
    let reading = read(image)?;
    let entries = reading.entries();
    if !table_good(entries, table) {
        return Err(Refusal::Argument);
    }
    if !real_moment(moment) {
        return Err(Refusal::Argument);
    }
    let kept = kept_places(&reading, moment);
    let count = kept.count;
    let places = kept.places;
    put_places(image, table, entries, &places[0..count], out, lines)
}

// Both outputs for some places. The room for the table is asked for before the image is written, which asks for its own.
fn put_places(
    image: &[u8],
    table: &[u8],
    entries: usize,
    places: &[u8],
    out: &mut [u8],
    lines: &mut [u8],
) -> Result<Made, Refusal>
    requires { (entries ≤ 96) × (length places.now ≤ 96) }
    ensures answer { result ≡ put_of image.now places.now (length out.old) (length lines.old) }
    ensures image { out.new ≡ on_made result (picked_bytes image.now places.now) out.old }
    ensures table { lines.new ≡ on_made result (cut entries table.now places.now) lines.old }
{
    let count = places.len();
    let size = count * count;
    if lines.len() < size {
        return Err(Refusal::Short);
    }
    let length = write_places(image, places, out)?;
    cut_lines(table, entries, places, places, lines);
    Ok(Made {
        length,
        table_length: size,
        entries: count,
    })
}
