// No code: an update in line as its bytes arrive, and cases C and D of document 01 computed from the grammar.
#![tactic(auto)]
