// The chain from an enabled anchor to a document signer at a moment: the shortest, and of those the first. And whether a chain that
// is proposed is a good one.
#![tactic(auto)]

mod anchors;
mod asking;
mod by_rounds;
mod given;
mod near;
mod opening;
mod proposal;
mod rounds;
mod signers;
mod whole;

ghost use Rattle.std.specs.Prelude.{◌≡◌};
ghost use Rattle.chain.specs.Answer.{Answered, Without, Shows};

use asking::{Asked, question};
pub use by_rounds::best_chain_by_rounds;
use graph::Found;
pub use proposal::propose;
use refusal::Refusal;
use rounds::chain_among;
pub use signers::all_signers;

// Whether a chain is shown, else why not.
#[derive(Clone, Copy)]
pub enum Outcome {
    Shown,
    Refused(Refusal),
}

// The chain's length and its places, unused slots 255; in a refusal length 0 and all slots 255.
#[derive(Clone, Copy)]
pub struct Answer {
    pub outcome: Outcome,
    pub length: usize,
    pub places: [u8; 96],
}

// Refusals in order: the image's 5; 1 for the table, the moment, the target; 7 where no good chain exists.
pub fn best_chain(image: &[u8], table: &[u8], moment: u64, target: u64) -> Answer
    ensures { Answered image.now table.now moment target result }
{
    match question(image, table, moment, target) {
        Err(refusal) => refused(refusal),
        Ok(Asked { places, version }) => shown(chain_among(
            version,
            image,
            table,
            places,
            moment,
            target as usize,
        )),
    }
}

// A chain of no places is none.
fn shown(found: Found) -> Answer
    ensures { Shows found result }
{
    let length = found.length;
    let places = found.places;
    if length == 0 {
        return refused(Refusal::Chain);
    }
    Answer {
        outcome: Outcome::Shown,
        length,
        places,
    }
}

fn refused(refusal: Refusal) -> Answer
    ensures { Without refusal result }
{
    Answer {
        outcome: Outcome::Refused(refusal),
        length: 0,
        places: [255; 96],
    }
}
