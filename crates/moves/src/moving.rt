// An image written again in the other version.
ghost use Rattle.std.specs.Prelude.{◌≡◌, Ok, ◌≤◌, length};
ghost use Rattle.image.specs.Answer.{opened_as, trailer_in};
ghost use Rattle.moves.specs.Moving.{other, moved_of, output_of};

use crate::columns::columns_for;
use image::{Reading, read_as, width};
use refusal::Refusal;
use writer::write;

// With the true letters of each item. The output beyond the image stays; on a refusal all of it stays.
pub fn move_to_2(image: &[u8], out: &mut [u8]) -> Result<usize, Refusal>
    ensures answer { result ≡ moved_of 2 image.now (length out.old) }
    ensures output { out.new ≡ output_of 2 image.now out.old }
{
    moved(image, 2, out)
}

// Without the letters. The output beyond the image stays; on a refusal all of it stays.
pub fn move_to_1(image: &[u8], out: &mut [u8]) -> Result<usize, Refusal>
    ensures answer { result ≡ moved_of 1 image.now (length out.old) }
    ensures output { out.new ≡ output_of 1 image.now out.old }
{
    moved(image, 1, out)
}

// To a version, from the other one.
fn moved(image: &[u8], version: usize, out: &mut [u8]) -> Result<usize, Refusal>
    requires { (1 ≤ version) × (version ≤ 2) }
    ensures answer { result ≡ moved_of version image.now (length out.old) }
    ensures output { out.new ≡ output_of version image.now out.old }
{
    rewritten(&read_as(image, 3 - version)?, version, out)
}

// The octets of the items as they stand, and their columns as the image tells them, are written in the version.
fn rewritten(image: &Reading, version: usize, out: &mut [u8]) -> Result<usize, Refusal>
    requires { (1 ≤ version) × (version ≤ 2) × (opened_as (other version) image.now ≡ Ok (trailer_in image.now)) }
    ensures answer { result ≡ moved_of version image.now (length out.old) }
    ensures output { out.new ≡ output_of version image.now out.old }
{
    let octets = image.octets();
    let entries = image.entries();
    let from = image.version();
    let start = octets.len() - 12 - width(from) * entries;
    let columns = columns_for(image, version);
    let kinds = columns.kinds;
    let flags = columns.flags;
    let lengths = columns.lengths;
    let letters = columns.letters;
    let pairs = 2 * entries;
    write(
        &octets[0..start],
        &kinds[0..entries],
        &flags[0..entries],
        &lengths[0..entries],
        &letters[0..pairs],
        version as u64,
        image.day(),
        out,
    )
}
