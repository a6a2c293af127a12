// Operations 30 to 32 of the case program: the units of a text counted, a text taken by its units, a text cut.
#![tactic(auto)]

use stream::shown;
use stream::shown::{After, Shown};
use stream::sink::Sink;
use stream::source::Source;
use text::Units;

// 30: text.
pub fn count(source: &mut Source, bytes: &mut [u8], sink: &mut Sink) -> Option<()> {
    let text = source.bytes(bytes)?;
    let answer = wairokabi::count_units(text);
    let verdict = shown::unplaced(answer.number);
    if answer.number != 0 {
        return verdict.show_line(sink).ok();
    }
    (verdict, After(" ", answer.units.0)).show_line(sink).ok()
}

// 31: text, at, units. A part is told as its place and its bytes.
pub fn take(source: &mut Source, bytes: &mut [u8], sink: &mut Sink) -> Option<()> {
    let text = source.bytes(bytes)?;
    let at = source.count(u64::MAX)?;
    let units = Units(source.number(u64::MAX)?);
    let answer = wairokabi::take_text(text, at, units);
    let verdict = shown::unplaced(answer.number);
    if answer.number != 0 {
        return verdict.show_line(sink).ok();
    }
    let part = (After(" ", at), After("+", answer.bytes.0));
    (verdict, part).show_line(sink).ok()
}

// 32: text, units.
pub fn cut(source: &mut Source, bytes: &mut [u8], sink: &mut Sink) -> Option<()> {
    let text = source.bytes(bytes)?;
    let units = Units(source.number(u64::MAX)?);
    let answer = wairokabi::cut_text(text, units);
    let verdict = shown::unplaced(answer.number);
    if answer.number != 0 {
        return verdict.show_line(sink).ok();
    }
    (verdict, After(" ", answer.bytes.0)).show_line(sink).ok()
}
