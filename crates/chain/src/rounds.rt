// The search over the places near the target, round by round.
ghost use Rattle.std.specs.Prelude.{◌≡◌, true, ◌≤◌, ◌<◌, get_or};
ghost use Rattle.chain.specs.Answer.{good_chains};
ghost use Rattle.usable.specs.Items.{item_at};
ghost use Rattle.usable.specs.Rows.{row_from, row_of};
ghost use Rattle.chain.specs.Rounds.{starts_in, enough_of};
ghost use Rattle.graph.specs.Answer as search;
ghost use Rattle.image.specs.Index.{entry_count, version_in, entry_in, items_in};

use crate::anchors::{begins, direct_chain, led_to};
use crate::near::{LAST, near_first, near_next};
use crate::opening::{open_first, open_items, open_place};
use graph::{Found, no_chain};
use search::chain_to;
use usable::{counting_lists, roles_of};

// The target is opened first: where it cannot stand in a chain there is none.
pub(crate) fn chain_among(
    version: usize,
    image: &[u8],
    table: &[u8],
    places: usize,
    moment: u64,
    target: usize,
) -> Found
    requires { (version ≡ version_in image.now) × (places ≡ entry_count image.now) × (places ≤ 96) × (target < places) × ((entry_in image.now target).kind ≡ 3) }
    ensures { search.Answered (good_chains image.now table.now moment) target result }
{
    let signer = open_place(version, image, moment, target);
    if signer[0] == 0 {
        return no_chain();
    }
    chain_home(version, image, table, places, moment, target, signer)
}

// Round 0 opens the anchors and CRLs of the target's country, and each round goes a link further back from the target. So a round
// knows all good chains of at most two places more than its number, and the last round all: a chain found that is as short is the
// best. In round 0 these are the steps from an anchor to the target. Where no round could open more, all good chains are known too.
// From round 1 on all links with verdict 1 for the target are open: where nothing leads to it there is no chain.
fn chain_home(
    version: usize,
    image: &[u8],
    table: &[u8],
    places: usize,
    moment: u64,
    target: usize,
    signer: [usize; 17],
) -> Found
    requires { (version ≡ version_in image.now) × (places ≡ entry_count image.now) × (places ≤ 96) × (target < places) × ((entry_in image.now target).kind ≡ 3) × (row_from signer ≡ row_of moment (item_at (items_in image.now) target) (starts_in image.now target)) × (get_or signer 0 0 ≡ 0 → ⊥) }
    ensures { search.Answered (good_chains image.now table.now moment) target result }
{
    let nothing = [0u8; 96];
    let first = signer[1];
    let second = signer[2];
    let mut rows = [[0usize; 17]; 96];
    let mut near = near_first(version, image, places, target);
    open_first(
        version, image, table, places, moment, target, signer, near, &mut rows,
    );
    let counting = counting_lists(table, places, &rows);
    let mut roles = roles_of(image, places, nothing, &rows, counting, nothing);
    if roles[target] != 3 {
        return no_chain();
    }
    let direct = direct_chain(image, table, places, &rows, roles, target);
    if direct.length != 0 {
        return direct;
    }
    let mut round = 0;
    loop {
        round += 1;
        let wider = near_next(table, places, round, near, roles);
        if near == wider {
            return chain_to(image, table, places, &rows, &roles, target);
        }
        open_items(
            version, image, table, places, moment, first, second, near, wider, &mut rows,
        );
        let known = roles_of(image, places, near, &rows, counting, roles);
        if !led_to(image, table, places, &rows, known, target) {
            return no_chain();
        }
        if worthwhile(image, table, places, round, &rows, known) {
            let found = chain_to(image, table, places, &rows, &known, target);
            if enough(found.length, round) {
                return found;
            }
        }
        near = wider;
        roles = known;
    }
}

// Whether to search in a round: in the last one, and where an anchor leads to a link that is near.
fn worthwhile(
    image: &[u8],
    table: &[u8],
    places: usize,
    round: usize,
    rows: &[[usize; 17]; 96],
    roles: [u8; 96],
) -> bool
    requires { places ≤ 96 }
    ensures { round ≡ 4 → result ≡ true }
{
    round == LAST || begins(image, table, places, rows, roles)
}

// Whether a chain of so many places settles a round: any in the last one, else one that is short enough.
fn enough(length: usize, round: usize) -> bool
    requires { round ≤ 4 }
    ensures { result ≡ enough_of round length }
{
    round == LAST || (length != 0 && length <= round + 2)
}
