// Bytes as DER: the walk over an item's elements, an INTEGER as a number, and the steps through members.
#![tactic(auto)]

mod contents;
mod fast;
mod heading;
mod limits;
mod numbers;
mod onward;
mod order;
mod place;
mod stepping;
mod walking;

pub use numbers::integer;
pub use stepping::{Step, member};
pub use walking::walk;
