// No code: demand 3 in the demand's own words: which steps are allowed, that every allowed run comes to an end, and when a sort is done.
#![tactic(auto)]
