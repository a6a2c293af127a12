// No code: what is fit for the archive: our own diffs are, and nothing that has a byte behind it.
#![tactic(auto)]
