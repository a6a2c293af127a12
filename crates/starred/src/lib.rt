// No code: proofs/Starred has the starred cases of document 01, one table under one theorem about the definitions.
#![tactic(auto)]
