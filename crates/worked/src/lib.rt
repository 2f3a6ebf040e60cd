// The worked cases of the rules paper, as one table that is computed. This crate has definitions and one theorem.
#![tactic(auto)]
