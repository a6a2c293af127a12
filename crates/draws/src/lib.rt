// No code: written tokens are drawn again, in either form.
#![tactic(auto)]
