// The best chain over the tables of opened items, by a queue. Names and keys of two places are compared only where the second is not
// found yet.
#![tactic(auto)]

mod all;

ghost use Rattle.std.specs.Prelude.{◌≡◌, Bool, ◌++◌, ℕ, ◌+◌, ◌-◌, ◌<◌, ◌≤◌, length, replicate};
ghost use Rattle.graph.specs.Chains.{graph_by};
ghost use Rattle.graph.specs.Answer.{Answered};
ghost use Rattle.graph.specs.Search.{followed, Reached};
ghost use Rattle.usable.specs.Rows.{held_in};
ghost use Rattle.search.specs.Queue.{QueueTables, At, Paths};
ghost use Rattle.search.specs.Tables.{tables_graph};

pub use all::chains_to_all;
use graph::{Found, no_chain};
use octets::part;
use usable::{leads, matched};

// What a search has found of each place: where the first of the paths to it comes from, 255 where no path reaches it, and its
// distance, how many places that path has.
#[derive(Clone, Copy)]
struct Marks {
    parent: [u8; 96],
    distance: [u8; 96],
}

// The tables: of n places n x n octets of verdicts, row the signer, column the signed; the rows of the items that are open; roles, 1 a
// usable anchor, 2 a usable link, 3 a usable signer. The items stand in the octets where their rows say.
pub fn chain_to(
    octets: &[u8],
    table: &[u8],
    places: usize,
    rows: &[[usize; 17]; 96],
    roles: &[u8; 96],
    target: usize,
) -> Found
    ensures { Answered (tables_graph (held_in octets.now) places table.now rows.now roles.now) target result }
{
    if 96 < places {
        return no_chain();
    }
    let Marks { parent, distance } = search(octets, table, places, rows, roles);
    chain_in(places, roles, &parent, &distance, target)
}

// Anchors have distance 1, and each other place one more than its parent.
fn search(
    octets: &[u8],
    table: &[u8],
    places: usize,
    rows: &[[usize; 17]; 96],
    roles: &[u8; 96],
) -> Marks
    requires { places ≤ 96 }
    ensures { QueueTables places (followed places (tables_graph (held_in octets.now) places table.now rows.now roles.now)) result.parent result.distance }
{
    let mut queue = [0u8; 97];
    let mut parent = [255u8; 96];
    let mut distance = [0u8; 96];
    queue[0] = places as u8;
    let mut last = anchors(places, roles, &mut queue, &mut parent, &mut distance);
    let mut head = 0;
    while head < last {
        head += 1;
        last = row(
            octets,
            table,
            places,
            rows,
            roles,
            head,
            &mut queue,
            &mut parent,
            &mut distance,
            last,
        );
    }
    Marks { parent, distance }
}

// From outside, the first in the queue, to each anchor, in ascending order; where the last of the queue then stands.
fn anchors(
    places: usize,
    roles: &[u8; 96],
    queue: &mut [u8; 97],
    parent: &mut [u8; 96],
    distance: &mut [u8; 96],
) -> usize
    requires places_bound { places ≤ 96 }
    requires by_index { (step : ℕ → ℕ → Bool) → At places (followed places (graph_by places roles.now step)) queue.old parent.old distance.old 1 0 0 }
    ensures { (step : ℕ → ℕ → Bool) → At places (followed places (graph_by places roles.now step)) queue.new parent.new distance.new (result + 1) 0 places }
{
    let mut end = 0;
    for v in 0..places {
        if roles[v] == 1 {
            parent[v] = places as u8;
            distance[v] = 1;
            end += 1;
            queue[end] = v as u8;
        }
    }
    end
}

// From the head of the queue to each place that is new, in ascending order; where the last of the queue then stands.
fn row(
    octets: &[u8],
    table: &[u8],
    places: usize,
    rows: &[[usize; 17]; 96],
    roles: &[u8; 96],
    head: usize,
    queue: &mut [u8; 97],
    parent: &mut [u8; 96],
    distance: &mut [u8; 96],
    last: usize,
) -> usize
    requires places_bound { (places ≤ 96) × (0 < head) }
    requires at { At places (followed places (tables_graph (held_in octets.now) places table.now rows.now roles.now)) queue.old parent.old distance.old (last + 1) head 0 }
    ensures { At places (followed places (tables_graph (held_in octets.now) places table.now rows.now roles.now)) queue.new parent.new distance.new (result + 1) head places }
{
    let u = queue[head] as usize;
    if !leads(roles[u]) {
        return last;
    }
    let far = distance[u] + 1;
    let line = part(table, u * places, places);
    let mut end = last;
    for v in 0..line.len() {
        if line[v] == 1 && parent[v] == 255 && matched(octets, rows, u, v, roles[v]) {
            parent[v] = u as u8;
            distance[v] = far;
            end += 1;
            queue[end] = v as u8;
        }
    }
    end
}

// The chain to the target by the tables, whatever search filled them.
fn chain_in(
    places: usize,
    roles: &[u8; 96],
    parent: &[u8; 96],
    distance: &[u8; 96],
    target: usize,
) -> Found
    requires places_bound { places ≤ 96 }
    requires paths { Paths places parent.now distance.now }
    ensures { ((step : ℕ → ℕ → Bool) → QueueTables places (followed places (graph_by places roles.now step)) parent.now distance.now → Answered (graph_by places roles.now step) target result) × (result.length ≤ 96) }
{
    if places <= target {
        return no_chain();
    }
    if roles[target] != 3 {
        return no_chain();
    }
    if parent[target] == 255 {
        return no_chain();
    }
    let slots = path_places(places, parent, distance, target);
    Found {
        length: distance[target] as usize,
        places: slots,
    }
}

// The path to the target, and 255 in the slots behind it.
fn path_places(places: usize, parent: &[u8; 96], distance: &[u8; 96], target: usize) -> [u8; 96]
    requires places_bound { places ≤ 96 }
    requires target_lt_places { target < places }
    requires reached { Reached parent.now target }
    requires paths { Paths places parent.now distance.now }
    ensures { (s : Paths places parent.now distance.now) → result ≡ s.path target ++ replicate (96 - length (s.path target)) 255 }
{
    let mut slots = [255u8; 96];
    let mut place = target;
    let mut left = distance[target] as usize;
    while place != places {
        left -= 1;
        slots[left] = place as u8;
        place = parent[place] as usize;
    }
    slots
}
