// No code: what the calls that write an update answer, over the short reading, and that their promises say the same.
#![tactic(auto)]
