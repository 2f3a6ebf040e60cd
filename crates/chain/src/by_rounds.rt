// The whole question by the second search: all items are opened, all tables filled, and then the search is asked. It shares the
// tables' functions with the first, and none of its search.
ghost use Rattle.std.specs.Prelude.{◌≡◌, ◌≤◌};
ghost use Rattle.chain.specs.Answer.{Answered, good_chains};
ghost use Rattle.graph.specs.Answer as search;
ghost use Rattle.image.specs.Index.{entry_count, version_in};
ghost use Rattle.usable.specs.Rows.{held_in, Matched};

use crate::asking::{Asked, question};
use crate::whole::open_all;
use crate::{Answer, refused, shown};
use graph::{Found, chain_by_rounds};
use octets::part;
use usable::{counting_lists, leads, matched, roles_of};

// Answers and refusals as `best_chain` has them, the same for each question.
pub fn best_chain_by_rounds(image: &[u8], table: &[u8], moment: u64, target: u64) -> Answer
    ensures { Answered image.now table.now moment target result }
{
    match question(image, table, moment, target) {
        Err(refusal) => refused(refusal),
        Ok(Asked { places, version }) => shown(chain_over_all(
            version,
            image,
            table,
            places,
            moment,
            target as usize,
        )),
    }
}

// The best chain, with every place open.
fn chain_over_all(
    version: usize,
    image: &[u8],
    table: &[u8],
    places: usize,
    moment: u64,
    target: usize,
) -> Found
    requires { (version ≡ version_in image.now) × (places ≡ entry_count image.now) × (places ≤ 96) }
    ensures { search.Answered (good_chains image.now table.now moment) target result }
{
    let nothing = [0u8; 96];
    let mut rows = [[0usize; 17]; 96];
    open_all(version, image, places, moment, &mut rows);
    let counting = counting_lists(table, places, &rows);
    let roles = roles_of(image, places, nothing, &rows, counting, nothing);
    let steps = matching_steps(image, table, places, &rows, roles);
    chain_by_rounds(places, &roles, &steps, target)
}

// 96 rows of 96 columns: 1 for a good step from an anchor or link to a link or signer, all usable.
fn matching_steps(
    image: &[u8],
    table: &[u8],
    places: usize,
    rows: &[[usize; 17]; 96],
    roles: [u8; 96],
) -> [u8; 9216]
    requires { places ≤ 96 }
    ensures { Matched (held_in image.now) places table.now rows.now roles result }
{
    let mut steps = [0u8; 9216];
    for u in 0..places {
        if leads(roles[u]) {
            let line = part(table, u * places, places);
            for v in 0..line.len() {
                if line[v] == 1 && matched(image, rows, u, v, roles[v]) {
                    steps[u * 96 + v] = 1;
                }
            }
        }
    }
    steps
}
