// What the walk means: the tree of elements that an item encodes. This crate has definitions and theorems alone.
#![tactic(auto)]
