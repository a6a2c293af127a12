// No code: what an explanation says of a block is what was read of it.
#![tactic(auto)]
