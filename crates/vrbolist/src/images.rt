// Trust images.
ghost use Rattle.std.specs.Prelude.{◌≡◌, length};
ghost use Rattle.image.specs.Answer.{opened_of, opened_for, place_of};
ghost use Rattle.writer.specs.Writing.{written_of, output_of};
ghost use Rattle.vrbolist.specs.Told.{image_told, entry_told, write_told};

use image::Opened;
use refusal::Refusal;

#[repr(C)]
#[derive(Clone, Copy)]
pub struct ImageAnswer {
    pub number: u64,
    pub detail: u64,
    pub entries: u64,
    pub day: u64,
    pub version: u64,
}

#[repr(C)]
#[derive(Clone, Copy)]
pub struct EntryAnswer {
    pub number: u64,
    pub detail: u64,
    pub kind: u64,
    pub flags: u64,
    pub length: u64,
    pub offset: u64,
    pub country: [u8; 2],
}

#[repr(C)]
#[derive(Clone, Copy)]
pub struct WriteAnswer {
    pub number: u64,
    pub detail: u64,
    pub length: u64,
}

#[unsafe(no_mangle)]
pub extern "C" fn vrbolist_image(image: &[u8]) -> ImageAnswer
    ensures { result ≡ image_told (opened_of image.now) }
{
    image_told(image::open(image))
}

#[unsafe(no_mangle)]
pub extern "C" fn vrbolist_image_for_day(image: &[u8], wanted: u64) -> ImageAnswer
    ensures { result ≡ image_told (opened_for image.now wanted) }
{
    image_told(image::open_for(image, wanted))
}

fn image_told(opened: Result<Opened, Refusal>) -> ImageAnswer
    ensures { result ≡ image_told opened }
{
    match opened {
        Ok(
            Opened {
                entries,
                day,
                version,
            },
        ) => ImageAnswer {
            number: 0,
            detail: 0,
            entries: entries as u64,
            day,
            version: version as u64,
        },
        Err(refusal) => ImageAnswer {
            number: refusal::number(refusal),
            detail: refusal::detail(refusal),
            entries: 0,
            day: 0,
            version: 0,
        },
    }
}

#[unsafe(no_mangle)]
pub extern "C" fn vrbolist_entry(image: &[u8], place: u64) -> EntryAnswer
    ensures { result ≡ entry_told (place_of image.now place) }
{
    match image::entry(image, place) {
        Ok(found) => EntryAnswer {
            number: 0,
            detail: 0,
            kind: found.kind as u64,
            flags: found.flags as u64,
            length: found.length as u64,
            offset: found.offset as u64,
            country: [found.first, found.second],
        },
        Err(refusal) => EntryAnswer {
            number: refusal::number(refusal),
            detail: refusal::detail(refusal),
            kind: 0,
            flags: 0,
            length: 0,
            offset: 0,
            country: [0, 0],
        },
    }
}

#[unsafe(no_mangle)]
pub extern "C" fn vrbolist_write(
    items: &[u8],
    kinds: &[u8],
    flags: &[u8],
    lengths: &[u32],
    letters: &[u8],
    version: u64,
    day: u64,
    out: &mut [u8],
) -> WriteAnswer
    ensures answer { result ≡ write_told (written_of version items.now kinds.now flags.now lengths.now letters.now day (length out.old)) }
    ensures output { out.new ≡ output_of version items.now kinds.now flags.now lengths.now letters.now day out.old }
{
    write_told(writer::write(items, kinds, flags, lengths, letters, version, day, out))
}

pub(crate) fn write_told(written: Result<usize, Refusal>) -> WriteAnswer
    ensures { result ≡ write_told written }
{
    match written {
        Ok(length) => WriteAnswer {
            number: 0,
            detail: 0,
            length: length as u64,
        },
        Err(refusal) => WriteAnswer {
            number: refusal::number(refusal),
            detail: refusal::detail(refusal),
            length: 0,
        },
    }
}
