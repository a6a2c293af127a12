// No code: what a line says of its value's base, of its run and of its bytes is so.
#![tactic(auto)]
