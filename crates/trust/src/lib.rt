// What more trust can do, and what a longer list can. Theorems alone.
#![tactic(auto)]
