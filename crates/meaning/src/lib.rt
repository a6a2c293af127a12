// No code: what an update means, in one short reading of either form, and that the grammar as data means the same.
#![tactic(auto)]
