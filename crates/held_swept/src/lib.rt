// No code: the sweeps of the slow plain sorter by held ids come to the slow order of sorting by held ids, and its reports are those of the one outcome.
#![tactic(auto)]
