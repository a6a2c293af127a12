// No code: examples worked by hand, most of them from bytes that Yjs writes, computed from the definitions.
#![tactic(auto)]
