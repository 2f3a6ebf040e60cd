// A move changes no chain: the good chains of an image before and after it are the same. Theorems alone.
#![tactic(auto)]
