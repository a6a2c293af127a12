// No code: the ids that blocks cover, and that a diff keeps exactly those at or above the remote clock.
#![tactic(auto)]
