// Moving an image from version 1 to version 2, and back.
#![tactic(auto)]

mod columns;
mod moving;

pub use moving::{move_to_1, move_to_2};
