// No code: the slow plain sorter's sweeps come to the slow order of sorting, and its reports are those of the one outcome.
#![tactic(auto)]
