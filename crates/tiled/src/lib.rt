// Theorems alone: every byte of a form 1 update is the byte of a draw.
#![tactic(auto)]
