// No code: what the calls on summaries promise, over the short reading of an update, and that their promises say the same.
#![tactic(auto)]
