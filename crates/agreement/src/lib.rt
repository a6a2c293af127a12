// No code: proofs/ has theorems about the meaning of an update.
#![tactic(auto)]
