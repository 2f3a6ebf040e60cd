// Room made in a trust image.
ghost use Rattle.std.specs.Prelude.{◌≡◌, length};
ghost use Rattle.room.specs.Making.{made_of, image_out, table_out};
ghost use Rattle.vrbolist.specs.Rooms.{room_told};

use refusal::Refusal;
use room::Made;

#[repr(C)]
#[derive(Clone, Copy)]
pub struct RoomAnswer {
    pub number: u64,
    pub detail: u64,
    pub length: u64,
    pub table_length: u64,
    pub entries: u64,
}

#[unsafe(no_mangle)]
pub extern "C" fn vrbolist_make_room(
    image: &[u8],
    table: &[u8],
    moment: u64,
    out: &mut [u8],
    lines: &mut [u8],
) -> RoomAnswer
    ensures answer { result ≡ room_told (made_of image.now table.now moment (length out.old) (length lines.old)) }
    ensures image { out.new ≡ image_out image.now table.now moment out.old lines.old }
    ensures table { lines.new ≡ table_out image.now table.now moment out.old lines.old }
{
    room_told(room::make_room(image, table, moment, out, lines))
}

fn room_told(made: Result<Made, Refusal>) -> RoomAnswer
    ensures { result ≡ room_told made }
{
    match made {
        Ok(
            Made {
                length,
                table_length,
                entries,
            },
        ) => RoomAnswer {
            number: 0,
            detail: 0,
            length: length as u64,
            table_length: table_length as u64,
            entries: entries as u64,
        },
        Err(refusal) => RoomAnswer {
            number: refusal::number(refusal),
            detail: refusal::detail(refusal),
            length: 0,
            table_length: 0,
            entries: 0,
        },
    }
}
