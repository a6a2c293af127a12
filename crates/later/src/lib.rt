// No code: asking later never makes things worse.
#![tactic(auto)]
