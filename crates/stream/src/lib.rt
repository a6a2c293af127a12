// What programs read and print: arguments from standard input, and lines to standard output, both through lent buffers.
#![tactic(auto)]

pub mod shown;
pub mod sink;
pub mod source;
