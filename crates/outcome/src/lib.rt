// No code: the sorter's looks come to the one outcome of sorting.
#![tactic(auto)]
