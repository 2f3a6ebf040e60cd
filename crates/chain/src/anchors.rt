// The steps from an anchor, and those to the target: fast paths before a search.
ghost use Rattle.std.specs.Prelude.{◌≡◌, true, false, [], ◌∷◌, ◌++◌, ℕ, ◌≤◌, ◌<◌, replicate};
ghost use Rattle.usable.specs.Rows.{held_in, step_of};
ghost use Rattle.chain.specs.Rounds.{Direct};

use graph::{Found, no_chain};
use octets::octet;
use usable::{leads, matched};

// The chain of the first anchor that has a good step to the target; length 0 where none has.
pub(crate) fn direct_chain(
    image: &[u8],
    table: &[u8],
    places: usize,
    rows: &[[usize; 17]; 96],
    roles: [u8; 96],
    target: usize,
) -> Found
    requires { (places ≤ 96) × (target < places) }
    ensures { (result.length ≡ 0 → ⊥) → Direct (held_in image.now) places table.now rows.now roles target result }
{
    for u in 0..places {
        if roles[u] == 1
            && octet(table, u * places + target) == 1
            && matched(image, rows, u, target, roles[target])
        {
            return pair(u, target);
        }
    }
    no_chain()
}

// A chain of two places.
fn pair(u: usize, v: usize) -> Found
    requires { (u < 96) × (v < 96) }
    ensures { (result.length ≡ 2) × (result.places ≡ (u ∷ v ∷ []) ++ replicate 94 255) }
{
    let mut slots = [255u8; 96];
    slots[0] = u as u8;
    slots[1] = v as u8;
    Found {
        length: 2,
        places: slots,
    }
}

// Whether an anchor has a good step to a link.
pub(crate) fn begins(
    image: &[u8],
    table: &[u8],
    places: usize,
    rows: &[[usize; 17]; 96],
    roles: [u8; 96],
) -> bool
    requires { places ≤ 96 }
    ensures { result ≡ true → (u : ℕ) × (v : ℕ) × (step_of (held_in image.now) places table.now rows.now roles u v ≡ true) }
{
    for u in 0..places {
        if roles[u] == 1 {
            for v in 0..places {
                if roles[v] == 2
                    && octet(table, u * places + v) == 1
                    && matched(image, rows, u, v, 2)
                {
                    return true;
                }
            }
        }
    }
    false
}

// Whether an anchor or link has a good step to the target.
pub(crate) fn led_to(
    image: &[u8],
    table: &[u8],
    places: usize,
    rows: &[[usize; 17]; 96],
    roles: [u8; 96],
    target: usize,
) -> bool
    requires { (places ≤ 96) × (target < places) }
    ensures { result ≡ false → (u : ℕ) → u < places → step_of (held_in image.now) places table.now rows.now roles u target ≡ false }
{
    for u in 0..places {
        if leads(roles[u])
            && octet(table, u * places + target) == 1
            && matched(image, rows, u, target, roles[target])
        {
            return true;
        }
    }
    false
}
