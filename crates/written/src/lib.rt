// No code: a diff that is written is read again.
#![tactic(auto)]
