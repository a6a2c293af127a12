// No code: the writers' runs are the longest there are.
#![tactic(auto)]
