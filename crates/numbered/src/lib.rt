// No code: sorting by held ids is sorting by the numbers of the blocks that hold them.
#![tactic(auto)]
