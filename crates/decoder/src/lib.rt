// No code: the fields of an update, as either form has them, and what is read of an update by the grammar.
#![tactic(auto)]
