// What is about octets alone: equal strings of them, parts, one octet of a table.
#![tactic(auto)]

mod equality;
mod parts;

pub use equality::same;
pub use parts::{between, octet, part};
