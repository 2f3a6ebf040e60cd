// Whether a question may be asked.
ghost use Rattle.std.specs.Prelude.{◌≡◌};
ghost use Rattle.chain.specs.Answer.{asked_of};

use calendar::real_moment;
use image::{Opened, entry_of, open};
use refusal::Refusal;
use usable::table_good;

// The number of places that it is asked over, and the version of their entries.
#[derive(Clone, Copy)]
pub struct Asked {
    pub places: usize,
    pub version: usize,
}

// Image (5), then table, moment, and a target that is there and of kind 3 (all 1).
pub(crate) fn question(
    image: &[u8],
    table: &[u8],
    moment: u64,
    target: u64,
) -> Result<Asked, Refusal>
    ensures { result ≡ asked_of image.now table.now moment target }
{
    let Opened {
        entries,
        version,
        ..
    } = open(image)?;
    if !table_good(entries, table) {
        return Err(Refusal::Argument);
    }
    if !real_moment(moment) {
        return Err(Refusal::Argument);
    }
    if entries as u64 <= target {
        return Err(Refusal::Argument);
    }
    let e = entry_of(version, image, target as usize);
    if e.kind != 3 {
        return Err(Refusal::Argument);
    }
    Ok(Asked {
        places: entries,
        version,
    })
}
