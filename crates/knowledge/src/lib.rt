// No code: who knows more takes no less, and the blocks of a diff come as far as the update's.
#![tactic(auto)]
