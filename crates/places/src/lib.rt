// No code: where a refusal blames its update, and that bytes behind an update change nothing of its reading.
#![tactic(auto)]
