// No code: what the blocks and the ranges of every update that reads have.
#![tactic(auto)]
