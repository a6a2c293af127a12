// No code: what the calls on numbers, texts and columns promise, over the short reading, and that their promises say the same.
#![tactic(auto)]
