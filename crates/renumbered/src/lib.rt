// An image with room made has the same chains from that moment on, under new numbers. Theorems alone.
#![tactic(auto)]
