// No code: what `explain` tells, over the short reading of an update, and that its promise says the same.
#![tactic(auto)]
