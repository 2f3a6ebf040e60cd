// The best chains to all places at once, from one search.
ghost use Rattle.std.specs.Prelude.{◌≡◌, Bool, ◌∷◌, ℕ, ◌+◌, ◌*◌, ◌≤◌, length};
ghost use Rattle.std.proofs.Math.Seq.{paste};
ghost use Rattle.graph.specs.Chains.{graph_by};
ghost use Rattle.graph.specs.Search.{followed};
ghost use Rattle.graph.specs.Records.{Records, AllRecorded};
ghost use Rattle.usable.specs.Rows.{held_in};
ghost use Rattle.search.specs.Queue.{QueueTables, Paths};
ghost use Rattle.search.specs.Tables.{tables_graph};

use crate::{Marks, chain_in, search};

// The tables as `chain_to` has them. Writes a record of 97 octets for each place, the length of the chain to it and its 96
// slots; the output beyond stays, and all of it where it has no room for all records.
pub fn chains_to_all(
    octets: &[u8],
    table: &[u8],
    places: usize,
    rows: &[[usize; 17]; 96],
    roles: &[u8; 96],
    out: &mut [u8],
)
    ensures { AllRecorded (tables_graph (held_in octets.now) places table.now rows.now roles.now) out.old out.new }
{
    if 96 < places {
        return;
    }
    if out.len() < 97 * places {
        return;
    }
    let Marks { parent, distance } = search(octets, table, places, rows, roles);
    record_all(places, roles, &parent, &distance, out);
}

// The record of each place, by the tables of the search.
fn record_all(
    places: usize,
    roles: &[u8; 96],
    parent: &[u8; 96],
    distance: &[u8; 96],
    out: &mut [u8],
)
    requires { (places ≤ 96) × (97 * places ≤ length out.old) × Paths places parent.now distance.now }
    ensures { (step : ℕ → ℕ → Bool) → QueueTables places (followed places (graph_by places roles.now step)) parent.now distance.now → Records (graph_by places roles.now step) places out.old out.new }
{
    for place in 0..places {
        let found = chain_in(places, roles, parent, distance, place);
        put(found.length, found.places, 97 * place, out);
    }
}

// The record of one chain, from an octet of the output on.
fn put(count: usize, slots: [u8; 96], at: usize, out: &mut [u8])
    requires { (count ≤ 96) × (at + 97 ≤ length out.old) }
    ensures { (length slots ≡ 96) × (out.new ≡ paste out.old at (count ∷ slots) 97) }
{
    out[at] = count as u8;
    out[at + 1..at + 97].copy_from_slice(&slots);
}
