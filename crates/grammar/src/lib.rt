// No code: the grammar of an update as data, how a grammar is read, and what holds of every grammar.
#![tactic(auto)]
