// Tokens written or measured, all lanes of a form at once: form 1 is one lane, in line (`line`); form 2 has nine columns and its texts, whose states
// are words that the caller lends (`lanes`), and the rest, in line. `fields` hands each field of an update to its lane, as the form has it. Where there
// is no room nothing is written and the state is the same, so lanes are measured by writing them nowhere.
#![tactic(auto)]

pub mod fields;
pub mod lanes;
pub mod line;
