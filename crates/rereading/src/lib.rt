// No code: theorems about diffs that are written.
#![tactic(auto)]
