// The C interface: each function forwards one question and takes its answer apart. No rule stands here.
#![tactic(auto)]

mod certificates;
mod chains;
mod countries;
mod images;
mod items;
mod lists;
mod proposals;
mod rooms;
mod signers;
mod told;
mod trays;
mod versions;
