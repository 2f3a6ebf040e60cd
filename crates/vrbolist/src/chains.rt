// Chains.
ghost use Rattle.std.specs.Prelude.{◌≡◌};
ghost use Rattle.vrbolist.specs.Chains.{chain_told, Forwarded};

use chain::{Answer, Outcome};

#[repr(C)]
#[derive(Clone, Copy)]
pub struct ChainAnswer {
    pub number: u64,
    pub detail: u64,
    pub length: u64,
    pub places: [u8; 96],
}

#[unsafe(no_mangle)]
pub extern "C" fn vrbolist_chain(
    image: &[u8],
    table: &[u8],
    moment: u64,
    target: u64,
) -> ChainAnswer
    ensures { Forwarded image.now table.now moment target result }
{
    chain_told(chain::best_chain(image, table, moment, target))
}

// The same by the second search.
#[unsafe(no_mangle)]
pub extern "C" fn vrbolist_chain_by_rounds(
    image: &[u8],
    table: &[u8],
    moment: u64,
    target: u64,
) -> ChainAnswer
    ensures { Forwarded image.now table.now moment target result }
{
    let answer = chain::best_chain_by_rounds(image, table, moment, target);
    chain_told(answer)
}

fn chain_told(answer: Answer) -> ChainAnswer
    ensures { result ≡ chain_told answer }
{
    let outcome = answer.outcome;
    let length = answer.length;
    let places = answer.places;
    match outcome {
        Outcome::Shown => ChainAnswer {
            number: 0,
            detail: 0,
            length: length as u64,
            places,
        },
        Outcome::Refused(refusal) => ChainAnswer {
            number: refusal::number(refusal),
            detail: refusal::detail(refusal),
            length: length as u64,
            places,
        },
    }
}
