// A chain that is proposed: it need not be the best one, only a good one.
ghost use Rattle.std.specs.Prelude.{◌≡◌, true, false, ℕ, ◌-◌, ◌≤◌, ◌<◌, length, get_or};
ghost use Rattle.graph.specs.Chains.{Chain};
ghost use Rattle.image.specs.Index.{entry_count, version_in, entry_in, items_in};
ghost use Rattle.usable.specs.Items.{item_at};
ghost use Rattle.usable.specs.Table.{verdict_in};
ghost use Rattle.usable.specs.Rows.{row_from, row_of, row_at};
ghost use Rattle.chain.specs.Answer.{good_chains};
ghost use Rattle.chain.specs.Rounds.{starts_in};
ghost use Rattle.chain.specs.Given.{Decides, InRange, Named, list_of, Vouching};
ghost use Rattle.chain.specs.Proposal.{Proposed, range_good, inside};

use crate::asking::{Asked, question};
use crate::given::{roles_fit, steps_fit};
use crate::near::near_lists;
use crate::opening::{open_first, open_items, open_place};
use image::kinds_in;
use octets::part;
use refusal::Refusal;
use usable::{counting_lists, roles_of};

// Refusals in order: those of the question (5, 1); 1 for the proposal's own range; 7 where it is no good chain to the target.
pub fn propose(
    image: &[u8],
    table: &[u8],
    moment: u64,
    target: u64,
    places: &[u8],
) -> Result<(), Refusal>
    ensures { Proposed image.now table.now moment target places.now result }
{
    let Asked {
        places: count,
        version,
    } = question(image, table, moment, target)?;
    if !range_good(count, places) {
        return Err(Refusal::Argument);
    }
    if !good_chain(
        version,
        image,
        table,
        count,
        moment,
        target as usize,
        places,
    ) {
        return Err(Refusal::Chain);
    }
    Ok(())
}

// 2 to 96 places, all in the image.
fn range_good(count: usize, places: &[u8]) -> bool
    ensures { result ≡ range_good count places.now }
{
    if places.len() < 2 || 96 < places.len() {
        return false;
    }
    all_there(count, places)
}

fn all_there(count: usize, places: &[u8]) -> bool
    ensures { result ≡ inside count places.now }
{
    places.iter().all(|place| (*place as usize) < count)
}

// It ends at the target, which is opened first: where that cannot stand in a chain there is none.
fn good_chain(
    version: usize,
    image: &[u8],
    table: &[u8],
    count: usize,
    moment: u64,
    target: usize,
    places: &[u8],
) -> bool
    requires { (version ≡ version_in image.now) × (count ≡ entry_count image.now) × (count ≤ 96) × (target < count) × ((entry_in image.now target).kind ≡ 3) × InRange count places.now }
    ensures { Decides (Chain (good_chains image.now table.now moment) target places.now) result }
{
    let last = places.len() - 1;
    if places[last] as usize != target {
        return false;
    }
    let signer = open_place(version, image, moment, target);
    if signer[0] == 0 {
        return false;
    }
    good_home(version, image, table, count, moment, target, signer, places)
}

// Of the other items those that are named are opened, the CRLs of the target's country, and then the anchors of it that have
// verdict 1 for one of these: no other has a say.
fn good_home(
    version: usize,
    image: &[u8],
    table: &[u8],
    count: usize,
    moment: u64,
    target: usize,
    signer: [usize; 17],
    places: &[u8],
) -> bool
    requires { (version ≡ version_in image.now) × (count ≡ entry_count image.now) × (count ≤ 96) × (target < count) × ((entry_in image.now target).kind ≡ 3) × (row_from signer ≡ row_of moment (item_at (items_in image.now) target) (starts_in image.now target)) × (get_or signer 0 0 ≡ 0 → ⊥) × InRange count places.now × (get_or places.now (length places.now - 1) 0 ≡ target) }
    ensures { Decides (Chain (good_chains image.now table.now moment) target places.now) result }
{
    let nothing = [0u8; 96];
    let first = signer[1];
    let second = signer[2];
    let mut rows = [[0usize; 17]; 96];
    let near = near_named(near_lists(kinds_in(version, image)), places);
    open_first(
        version, image, table, count, moment, target, signer, near, &mut rows,
    );
    let wider = near_vouching(table, count, near, open_lists(count, &rows));
    open_items(
        version, image, table, count, moment, first, second, near, wider, &mut rows,
    );
    let counting = counting_lists(table, count, &rows);
    let roles = roles_of(image, count, nothing, &rows, counting, nothing);
    if roles[target] != 3 {
        return false;
    }
    if !roles_fit(roles, places) {
        return false;
    }
    steps_fit(image, table, count, &rows, places)
}

// The places that are named are near too.
fn near_named(near: [u8; 96], places: &[u8]) -> [u8; 96]
    requires { InRange 96 places.now }
    ensures { Named places.now near result }
{
    let mut more = near;
    for place in places {
        more[*place as usize] = 1;
    }
    more
}

// The CRLs that are open.
fn open_lists(places: usize, rows: &[[usize; 17]; 96]) -> [bool; 96]
    requires { places ≤ 96 }
    ensures { (p : ℕ) → p < places → get_or result p false ≡ list_of (row_at rows.now p) }
{
    let mut lists = [false; 96];
    for place in 0..places {
        lists[place] = rows[place][0] == 4;
    }
    lists
}

// The anchors that wait and have verdict 1 for one of the CRLs are near too.
fn near_vouching(table: &[u8], places: usize, near: [u8; 96], lists: [bool; 96]) -> [u8; 96]
    requires { places ≤ 96 }
    ensures { Vouching places table.now lists near result }
{
    let mut more = near;
    for u in 0..places {
        if near[u] == 2 && vouches(table, places, u, lists) {
            more[u] = 1;
        }
    }
    more
}

// Whether the place has verdict 1 for one of the CRLs, with no exit before the last octet of its line.
fn vouches(table: &[u8], places: usize, u: usize, lists: [bool; 96]) -> bool
    requires { (places ≤ 96) × (u < places) }
    ensures { result ≡ false → (v : ℕ) → v < places → get_or lists v false ≡ true → verdict_in places table.now u v ≡ true → ⊥ }
{
    let line = part(table, u * places, places);
    let mut heard = false;
    for v in 0..line.len() {
        heard = heard | ((line[v] == 1) & lists[v]);
    }
    heard
}
