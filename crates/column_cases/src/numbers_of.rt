// Operations 1 to 4: numbers on the line, read and written.
use crate::lent;
use stream::shown::{After, Shown, Verdict};
use stream::sink::Sink;
use stream::source::Source;

// 1: bytes, at.
// What it prints is held by the case program's stdout.
pub fn read_unsigned(source: &mut Source, bytes: &mut [u8], sink: &mut Sink) -> Option<()> {
    let line = source.bytes(bytes)?;
    let at = source.count(u64::MAX)?;
    let answer = wairokabi::read_unsigned(line, at);
    let verdict = Verdict(answer.refusal);
    if answer.refusal.number != 0 {
        return verdict.show_line(sink).ok();
    }
    let value = After(" ", answer.value);
    let next = After(" ", answer.next);
    (verdict, value, next).show_line(sink).ok()
}

// 2: bytes, at.
// What it prints is held by the case program's stdout.
pub fn read_signed(source: &mut Source, bytes: &mut [u8], sink: &mut Sink) -> Option<()> {
    let line = source.bytes(bytes)?;
    let at = source.count(u64::MAX)?;
    let answer = wairokabi::read_signed(line, at);
    let verdict = Verdict(answer.refusal);
    if answer.refusal.number != 0 {
        return verdict.show_line(sink).ok();
    }
    let minus = u8::from(answer.minus);
    let value = (After(" ", minus), After(" ", answer.magnitude));
    let next = After(" ", answer.next);
    (verdict, value, next).show_line(sink).ok()
}

// 3: value, room.
pub fn write_unsigned(source: &mut Source, sink: &mut Sink) -> Option<()> {
    let value = source.number(u64::MAX)?;
    lent::write(|out| wairokabi::write_unsigned(out, value), source, sink)
}

// 4: minus, magnitude, room.
pub fn write_signed(source: &mut Source, sink: &mut Sink) -> Option<()> {
    let minus = source.number(1)? == 1;
    let magnitude = source.number(u64::MAX)?;
    lent::write(
        |out| wairokabi::write_signed(out, minus, magnitude),
        source,
        sink,
    )
}
