// No code: what the calls that read an update answer, over the short reading, and that their promises say the same.
#![tactic(auto)]
