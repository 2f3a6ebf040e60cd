// The elements that stand in a walked item: found by offset and tag, compared, and the steps that shapes take.
#![tactic(auto)]

mod elements;
mod envelopes;
mod short;
mod steps;

pub use elements::{Element, any_tagged, contents, element_at, element_tagged, holds, twins};
pub use envelopes::{Envelope, envelope_of};
pub use short::{fills, short_end};
pub use steps::{only_member, past};
