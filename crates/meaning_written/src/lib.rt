// No code: columns and diffs as they are written, as short as it can be said, and that the long definitions say the same.
#![tactic(auto)]
