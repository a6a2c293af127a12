// Operations 1 to 12 of the case program, told apart: numbers, and columns read and written.
#![tactic(auto)]

use column_cases::{columns_of, numbers_of};
use readers::Kind;
use stream::sink::Sink;
use stream::source::Source;

// The operation's case: its arguments taken from the stream, its call made, its line printed. The longest argument is taken into `bytes`.
pub fn case(operation: u8, source: &mut Source, bytes: &mut [u8], sink: &mut Sink) -> Option<()> {
    match operation {
        1 => numbers_of::read_unsigned(source, bytes, sink),
        2 => numbers_of::read_signed(source, bytes, sink),
        3 => numbers_of::write_unsigned(source, sink),
        4 => numbers_of::write_signed(source, sink),
        5 => columns_of::read(Kind::Number, source, sink),
        6 => columns_of::read(Kind::Difference, source, sink),
        7 => columns_of::read(Kind::Byte, source, sink),
        8 => columns_of::read(Kind::Text, source, sink),
        9 => columns_of::write(wairokabi::write_numbers, source, sink),
        10 => columns_of::write(wairokabi::write_differences, source, sink),
        11 => columns_of::write_bytes(source, bytes, sink),
        12 => columns_of::write_texts(source, sink),
        _ => None,
    }
}
