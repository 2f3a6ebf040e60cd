// Every signer of an image in one call.
ghost use Rattle.std.specs.Prelude.{◌≡◌, ◌*◌, ◌≤◌, length};
ghost use Rattle.chain.specs.Answer.{good_chains};
ghost use Rattle.chain.specs.Signers.{AllSigned};
ghost use Rattle.graph.specs.Records as search;
ghost use Rattle.image.specs.Index.{entry_count, version_in};

use crate::whole::open_all;
use calendar::real_moment;
use image::{Opened, open};
use refusal::Refusal;
use search::chains_to_all;
use usable::{counting_lists, roles_of, table_good};

// A record of 97 octets for each place: the length of the chain that `best_chain` answers for it and its 96 slots, 0 and all 255 where it
// is refused. Refusals in order: the image's 5; 1 for the table, the moment; 9 where the output has no room for all records. The output
// beyond them stays; on a refusal all of it stays.
pub fn all_signers(
    image: &[u8],
    table: &[u8],
    moment: u64,
    out: &mut [u8],
) -> Result<usize, Refusal>
    ensures { AllSigned image.now table.now moment out.old out.new result }
{
    let Opened {
        entries,
        version,
        ..
    } = open(image)?;
    if !table_good(entries, table) {
        return Err(Refusal::Argument);
    }
    if !real_moment(moment) {
        return Err(Refusal::Argument);
    }
    let size = 97 * entries;
    if out.len() < size {
        return Err(Refusal::Short);
    }
    record_signers(version, image, table, entries, moment, out);
    Ok(size)
}

// Each item is opened once, and one search serves all places.
fn record_signers(
    version: usize,
    image: &[u8],
    table: &[u8],
    places: usize,
    moment: u64,
    out: &mut [u8],
)
    requires { (version ≡ version_in image.now) × (places ≡ entry_count image.now) × (places ≤ 96) × (97 * places ≤ length out.old) }
    ensures { search.Records (good_chains image.now table.now moment) places out.old out.new }
{
    let nothing = [0u8; 96];
    let mut rows = [[0usize; 17]; 96];
    open_all(version, image, places, moment, &mut rows);
    let counting = counting_lists(table, places, &rows);
    let roles = roles_of(image, places, nothing, &rows, counting, nothing);
    chains_to_all(image, table, places, &rows, &roles, out);
}
