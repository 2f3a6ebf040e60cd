// Good chains over places, and the answer for the best of them: the shortest from an anchor to a signer, and among those the first by
// place number. And a plain search for it, by rounds.
#![tactic(auto)]

mod rounds;

ghost use Rattle.graph.specs.Answer.{NoChain};

pub use rounds::chain_by_rounds;

// The length of a chain and its places, unused slots 255; length 0 where there is none.
#[derive(Clone, Copy)]
pub struct Found {
    pub length: usize,
    pub places: [u8; 96],
}

// Length 0, and all slots 255.
pub fn no_chain() -> Found
    ensures { NoChain result }
{
    Found {
        length: 0,
        places: [255; 96],
    }
}
