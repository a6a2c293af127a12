// Operation 21 of the case program: an update, read strictly, into tables. It asks and prints what operation 14 does.
#![tactic(auto)]

use stream::sink::Sink;
use stream::source::Source;
use update_cases::tables;

// 21
pub fn read(source: &mut Source, bytes: &mut [u8], sink: &mut Sink) -> Option<()> {
    tables::read_by(strict::read_update_strict, source, bytes, sink)
}
