// No code: what the sorts answer, over the short reading of an update, and that their promises say the same.
#![tactic(auto)]
