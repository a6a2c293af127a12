// No code, and no proofs any more: what walks by hand over lent tables shared. The borrow checker follows slices of structs by itself.
#![tactic(auto)]
