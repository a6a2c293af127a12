// No code: which bytes of an update stay unread, and the lowest of them.
#![tactic(auto)]
