// No code: what sorting is, and that it has one outcome.
#![tactic(auto)]
