// No code: the looks of a sorter by held ids come to the one outcome of sorting by held ids.
#![tactic(auto)]
