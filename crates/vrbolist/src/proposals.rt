// Proposed chains.
ghost use Rattle.std.specs.Prelude.{◌≡◌};
ghost use Rattle.vrbolist.specs.Proposals.{proposal_told, Weighed};

use crate::told::ToldAnswer;
use refusal::Refusal;

#[unsafe(no_mangle)]
pub extern "C" fn vrbolist_proposal(
    image: &[u8],
    table: &[u8],
    moment: u64,
    target: u64,
    places: &[u8],
) -> ToldAnswer
    ensures { Weighed image.now table.now moment target places.now result }
{
    proposal_told(chain::propose(image, table, moment, target, places))
}

fn proposal_told(proposal: Result<(), Refusal>) -> ToldAnswer
    ensures { result ≡ proposal_told proposal }
{
    match proposal {
        Ok(()) => ToldAnswer {
            number: 0,
            detail: 0,
        },
        Err(refusal) => ToldAnswer {
            number: refusal::number(refusal),
            detail: refusal::detail(refusal),
        },
    }
}
