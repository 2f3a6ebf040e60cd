// The true letters of items, and whether an image's are the true ones.
#![tactic(auto)]

mod checking;
mod telling;

pub use checking::letters_true;
pub use telling::{Country, NO_COUNTRY, spell, true_letters};
