// Which places a round opens: 1 for these, 2 for a link that is not among them, else 0.
ghost use Rattle.std.specs.Prelude.{◌≡◌, true, ℕ, ◌≤◌, ◌<◌, get_or};
ghost use Rattle.chain.specs.Near.{first_of, waiting_of, marked_of, Near, Wider};
ghost use Rattle.image.specs.Index.{entry_count, version_in, items_in};
ghost use Rattle.usable.specs.Items.{item_at};

use image::kinds_in;
use octets::octet;
use usable::led;

// The round that opens all links.
pub(crate) const LAST: usize = 4;

// At first the target, the anchors and the CRLs. Other signers are in no chain to the target.
pub(crate) fn near_first(version: usize, image: &[u8], places: usize, target: usize) -> [u8; 96]
    requires { (version ≡ version_in image.now) × (places ≡ entry_count image.now) × (places ≤ 96) }
    ensures { (p : ℕ) → p < places → get_or result p 0 ≡ first_of target p (item_at (items_in image.now) p).kind }
{
    let kinds = kinds_in(version, image);
    let mut near = [0u8; 96];
    for place in 0..places {
        near[place] = first(kinds[place], place, target);
    }
    near
}

// Of a proposal the CRLs; an anchor waits until a verdict for one of them is seen.
pub(crate) fn near_lists(kinds: [u8; 96]) -> [u8; 96]
    ensures { (p : ℕ) → p < 96 → get_or result p 0 ≡ waiting_of (get_or kinds p 0) }
{
    let mut near = [0u8; 96];
    for place in 0..96 {
        near[place] = waiting(kinds[place]);
    }
    near
}

fn waiting(kind: u8) -> u8
    ensures { result ≡ waiting_of kind }
{
    if kind == 4 {
        return 1;
    }
    if kind == 1 {
        return 2;
    }
    0
}

fn first(kind: u8, place: usize, target: usize) -> u8
    ensures { result ≡ first_of target place kind }
{
    if place == target {
        return 1;
    }
    if kind == 2 {
        return 2;
    }
    if kind == 3 {
        return 0;
    }
    1
}

// Then the links that have verdict 1 for a usable link or signer of the round before, and in the last round all links.
pub(crate) fn near_next(
    table: &[u8],
    places: usize,
    round: usize,
    near: [u8; 96],
    roles: [u8; 96],
) -> [u8; 96]
    requires { places ≤ 96 }
    ensures { Wider places table.now round roles near result }
{
    if round == LAST {
        return with_links(places, near);
    }
    with_signers(table, places, near, roles)
}

fn with_links(places: usize, near: [u8; 96]) -> [u8; 96]
    requires { places ≤ 96 }
    ensures { (p : ℕ) → p < places → get_or result p 0 ≡ marked_of (get_or near p 0) }
{
    let mut more = [0u8; 96];
    for place in 0..places {
        more[place] = marked(near[place]);
    }
    more
}

fn with_signers(table: &[u8], places: usize, near: [u8; 96], roles: [u8; 96]) -> [u8; 96]
    requires { places ≤ 96 }
    ensures { Near places table.now roles near result }
{
    let mut more = near;
    for v in 0..places {
        if led(roles[v]) {
            for u in 0..places {
                if near[u] == 2 && octet(table, u * places + v) == 1 {
                    more[u] = 1;
                }
            }
        }
    }
    more
}

// 1 for a link, and any other as it is.
fn marked(mark: u8) -> u8
    ensures { result ≡ marked_of mark }
{
    if mark == 2 {
        return 1;
    }
    mark
}
