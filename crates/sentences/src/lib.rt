// No code: document 01's sentences on columns, for every spelling and every place.
#![tactic(auto)]
