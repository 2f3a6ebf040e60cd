// The second search, by rounds: plain enough to be read in a minute, and it shares nothing of the search by a queue.
ghost use Rattle.std.specs.Prelude.{◌≡◌, true, false, ◌++◌, ◌+◌, ◌-◌, ◌<◌, ◌≤◌, length, get_or, replicate};
ghost use Rattle.graph.specs.Chains.{graph_of};
ghost use Rattle.graph.specs.Answer.{Answered};
ghost use Rattle.graph.specs.Search.{followed, Reached, distance_of, Searched};
ghost use Rattle.graph.specs.Rounds.{InRound, RoundTable, Back, Next};

use crate::{Found, no_chain};
use octets::octet;

// Roles: 1 a usable anchor, 2 a usable link, 3 a usable signer. Steps: 96 rows, the signers, of 96 columns, the signed, 1 for a good
// step.
pub fn chain_by_rounds(places: usize, roles: &[u8], steps: &[u8], target: usize) -> Found
    ensures { Answered (graph_of places roles.now steps.now) target result }
{
    if 96 < places || places <= target || octet(roles, target) != 3 {
        return no_chain();
    }
    let distance = distances(places, roles, steps);
    let length = distance[target];
    if length == 255 {
        return no_chain();
    }
    let ways = ways_back(places, roles, steps, distance, target);
    let slots = read_off(places, roles, steps, distance, ways, target);
    Found {
        length: length as usize,
        places: slots,
    }
}

// How many places the shortest path to each place has, 255 where none leads. The first round marks the anchors, and each other one
// what a good step reaches from the places that the round before marked; a round that marks nothing is the last.
fn distances(places: usize, roles: &[u8], steps: &[u8]) -> [u8; 96]
    requires { places ≤ 96 }
    ensures { RoundTable places (followed places (graph_of places roles.now steps.now)) result }
{
    let mut distance = [255u8; 96];
    let mut far = 0;
    let mut marked = reach(places, roles, steps, places, 0, &mut distance, 0);
    while marked != 0 {
        far += 1;
        marked = round(places, roles, steps, far, &mut distance);
    }
    distance
}

// From each place that is so far and no signer; how many places are new.
fn round(places: usize, roles: &[u8], steps: &[u8], far: u8, distance: &mut [u8; 96]) -> usize
    requires places_bound { (places ≤ 96) × (1 ≤ far) }
    requires in_round { InRound places (followed places (graph_of places roles.now steps.now)) distance.old far 0 0 0 }
    ensures { InRound places (followed places (graph_of places roles.now steps.now)) distance.new far places places result }
{
    let mut marked = 0;
    for u in 0..places {
        if onward(roles, u, distance[u], far) {
            marked = reach(places, roles, steps, u, far, distance, marked);
        }
    }
    marked
}

// Whether a place is so far and no signer: then its steps lead on.
fn onward(roles: &[u8], u: usize, distance: u8, far: u8) -> bool
    ensures { (result ≡ true → (distance ≡ far) × (get_or roles.now u 0 ≡ 3 → ⊥)) × (result ≡ false → distance ≡ far → get_or roles.now u 0 ≡ 3) }
{
    distance == far && octet(roles, u) != 3
}

// From one place that is so far, or from outside, which is `places`, to each that no round has marked; how many are new so far.
fn reach(
    places: usize,
    roles: &[u8],
    steps: &[u8],
    u: usize,
    far: u8,
    distance: &mut [u8; 96],
    marked: usize,
) -> usize
    requires places_bound { (places ≤ 96) × (u ≤ places) × (distance_of places distance.old u ≡ far) }
    requires fact { u < places → (get_or roles.now u 0 ≡ 3 → ⊥) }
    requires in_round { InRound places (followed places (graph_of places roles.now steps.now)) distance.old far u 0 marked }
    ensures { InRound places (followed places (graph_of places roles.now steps.now)) distance.new far u places result }
{
    let mut count = marked;
    for v in 0..places {
        if distance[v] == 255 && follows(places, roles, steps, u, v) {
            distance[v] = far + 1;
            count += 1;
        }
    }
    count
}

// The distances of the places on the shortest paths to the target, 255 for the others. They are found back from the target: at each
// distance the places from which a good step leads to one that is on such a path.
fn ways_back(
    places: usize,
    roles: &[u8],
    steps: &[u8],
    distance: [u8; 96],
    target: usize,
) -> [u8; 96]
    requires places_bound { (places ≤ 96) × (target < places) × Reached distance target }
    requires round_table { RoundTable places (followed places (graph_of places roles.now steps.now)) distance }
    ensures { Back places (followed places (graph_of places roles.now steps.now)) distance target result 1 places }
{
    let mut ways = [255u8; 96];
    let last = distance[target];
    ways[target] = last;
    for far in (1..last).rev() {
        ways = one_back(places, roles, steps, distance, target, far, ways);
    }
    ways
}

// One distance back; the target is named for the promise alone.
fn one_back(
    places: usize,
    roles: &[u8],
    steps: &[u8],
    distance: [u8; 96],
    target: usize,
    far: u8,
    ways: [u8; 96],
) -> [u8; 96]
    requires places_bound { (places ≤ 96) × (get_or distance target 0 ≤ 96) }
    requires back { Back places (followed places (graph_of places roles.now steps.now)) distance target ways far 0 }
    ensures { Back places (followed places (graph_of places roles.now steps.now)) distance target result far places }
{
    let mut more = ways;
    for u in 0..places {
        if onward(roles, u, distance[u], far)
            && next(places, roles, steps, u, far + 1, more) < places
        {
            more[u] = far;
        }
    }
    more
}

// The first place of so many away on the ways that a good step reaches; `places` where there is none.
fn next(places: usize, roles: &[u8], steps: &[u8], u: usize, far: u8, ways: [u8; 96]) -> usize
    requires places_bound { (places ≤ 96) × (u ≤ places) }
    requires fact { u < places → (get_or roles.now u 0 ≡ 3 → ⊥) }
    ensures { Next places (followed places (graph_of places roles.now steps.now)) ways u far result }
{
    for place in 0..places {
        if ways[place] == far && follows(places, roles, steps, u, place) {
            return place;
        }
    }
    places
}

// Along the ways, from outside, always to the first place: the first of the shortest paths, and 255 in the slots behind it.
fn read_off(
    places: usize,
    roles: &[u8],
    steps: &[u8],
    distance: [u8; 96],
    ways: [u8; 96],
    target: usize,
) -> [u8; 96]
    requires places_bound { (places ≤ 96) × (target < places) × Reached distance target }
    requires round_table { RoundTable places (followed places (graph_of places roles.now steps.now)) distance }
    requires back { Back places (followed places (graph_of places roles.now steps.now)) distance target ways 1 places }
    ensures { (s : Searched places (followed places (graph_of places roles.now steps.now)) distance) → result ≡ s.path target ++ replicate (96 - length (s.path target)) 255 }
{
    let mut slots = [255u8; 96];
    let mut place = places;
    for far in 0..distance[target] {
        place = next(places, roles, steps, place, far + 1, ways);
        slots[far as usize] = place as u8;
    }
    slots
}

// Whether a step goes to an anchor from outside, or from a place that is no signer to a link or a signer.
fn follows(places: usize, roles: &[u8], steps: &[u8], u: usize, v: usize) -> bool
    requires places_bound { (places ≤ 96) × (u ≤ places) × (v < places) }
    requires fact { u < places → (get_or roles.now u 0 ≡ 3 → ⊥) }
    ensures { result ≡ followed places (graph_of places roles.now steps.now) u v }
{
    if u == places {
        return octet(roles, v) == 1;
    }
    if octet(steps, u * 96 + v) != 1 {
        return false;
    }
    let role = octet(roles, v);
    role == 2 || role == 3
}
