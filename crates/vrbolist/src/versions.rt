// The versions of trust images: moves between them, and the check of the letters that version 2 has.
ghost use Rattle.std.specs.Prelude.{◌≡◌, cond, length};
ghost use Rattle.letters.specs.Check.{checked_of};
ghost use Rattle.moves.specs.Moving.{moved_of, output_of};
ghost use Rattle.vrbolist.specs.Told.{write_told, letters_told};

use crate::images::{WriteAnswer, write_told};

#[repr(C)]
#[derive(Clone, Copy)]
pub struct LettersAnswer {
    pub number: u64,
    pub detail: u64,
    pub letters_true: u64,
}

#[unsafe(no_mangle)]
pub extern "C" fn vrbolist_move_to_2(image: &[u8], out: &mut [u8]) -> WriteAnswer
    ensures answer { result ≡ write_told (moved_of 2 image.now (length out.old)) }
    ensures output { out.new ≡ output_of 2 image.now out.old }
{
    write_told(moves::move_to_2(image, out))
}

#[unsafe(no_mangle)]
pub extern "C" fn vrbolist_move_to_1(image: &[u8], out: &mut [u8]) -> WriteAnswer
    ensures answer { result ≡ write_told (moved_of 1 image.now (length out.old)) }
    ensures output { out.new ≡ output_of 1 image.now out.old }
{
    write_told(moves::move_to_1(image, out))
}

#[unsafe(no_mangle)]
pub extern "C" fn vrbolist_letters(image: &[u8]) -> LettersAnswer
    ensures { result ≡ letters_told (checked_of image.now) }
{
    match letters::letters_true(image) {
        Ok(so) => LettersAnswer {
            number: 0,
            detail: 0,
            letters_true: one_if(so),
        },
        Err(refusal) => LettersAnswer {
            number: refusal::number(refusal),
            detail: refusal::detail(refusal),
            letters_true: 0,
        },
    }
}

// 1 for what is so.
fn one_if(so: bool) -> u64
    ensures { result ≡ cond so 1 0 }
{
    if so {
        return 1;
    }
    0
}
