// Operations 5 to 12: the four columns, read by column readers, and written.
ghost use Rattle.std.specs.Prelude.{◌≤◌, length};

use crate::lent;
use numbers::{Refusal, Written};
use readers::{Column, Kind};
use std::fmt;
use stream::shown;
use stream::shown::{After, Hex, Numbers, Shown, Verdict};
use stream::sink::Sink;
use stream::source::Source;

// The first texts of a text column, each with the space before it: drawn as they are shown, so that none of them is kept.
#[derive(Clone, Copy)]
struct Texts<'a> {
    column: &'a [u8],
    count: usize,
}

impl Shown for Texts<'_> {
    fn show<W: fmt::Write>(&self, out: &mut W) -> fmt::Result {
        let mut column = readers::open(self.column, Kind::Text).column;
        for _ in 0..self.count {
            let part = readers::next(&mut column).part;
            let (_, from) = shown::cut(self.column, part.place);
            let (text, _) = shown::cut(from, part.bytes.0);
            After(" ", Hex(text)).show(out)?;
        }
        Ok(())
    }
}

const NO_REFUSAL: Refusal = Refusal {
    number: 0,
    place: 0,
};

// Draws from a column into what is lent, until it is full or a draw is refused: how many were drawn, and the refusal, zeros for none.
fn draw(column: &mut Column, lent: &mut [u64]) -> (usize, Refusal)
    ensures { result.0 ≤ length lent.new }
{
    for (count, drawn) in lent.iter_mut().enumerate() {
        let answer = readers::next(column);
        if answer.refusal.number != 0 {
            return (count, answer.refusal);
        }
        *drawn = answer.value;
    }
    (lent.len(), NO_REFUSAL)
}

// The same for texts, which are counted alone.
fn count(column: &mut Column, times: usize) -> (usize, Refusal)
    ensures { result.0 ≤ times }
{
    for drawn in 0..times {
        let answer = readers::next(column);
        if answer.refusal.number != 0 {
            return (drawn, answer.refusal);
        }
    }
    (times, NO_REFUSAL)
}

// 5 to 8: column, times. The line has what came before the refusal.
pub fn read(kind: Kind, source: &mut Source, sink: &mut Sink) -> Option<()> {
    match kind {
        Kind::Text => read_texts(source, sink),
        _ => read_values(kind, source, sink),
    }
}

fn read_values(kind: Kind, source: &mut Source, sink: &mut Sink) -> Option<()> {
    let mut bytes = [0u8; 65536];
    let column = source.bytes(&mut bytes)?;
    let times = source.count(4096)?;
    let mut values = [0u64; 4096];
    let lent = values.get_mut(..times)?;
    let mut opened = readers::open(column, kind);
    if opened.refusal.number != 0 {
        return Verdict(opened.refusal).show_line(sink).ok();
    }
    let (count, refusal) = draw(&mut opened.column, lent);
    let (drawn, _) = shown::cut(lent, count);
    (Verdict(refusal), Numbers(drawn)).show_line(sink).ok()
}

pub fn read_texts(source: &mut Source, sink: &mut Sink) -> Option<()> {
    let mut bytes = [0u8; 65536];
    let column = source.bytes(&mut bytes)?;
    let times = source.count(4096)?;
    let mut opened = readers::open(column, Kind::Text);
    if opened.refusal.number != 0 {
        return Verdict(opened.refusal).show_line(sink).ok();
    }
    let (count, refusal) = count(&mut opened.column, times);
    let line = (Verdict(refusal), Texts { column, count });
    line.show_line(sink).ok()
}

// 9 and 10: list, room.
pub fn write<F: FnOnce(&mut [u8], &[u64]) -> Written>(
    writer: F,
    source: &mut Source,
    sink: &mut Sink,
) -> Option<()>
    requires { F.IsAlwaysCallable writer }
{
    let mut list = [0u64; 4096];
    let values = source.list(&mut list)?;
    lent::write(|out| writer(out, values), source, sink)
}

// 11: bytes, room.
pub fn write_bytes(source: &mut Source, bytes: &mut [u8], sink: &mut Sink) -> Option<()> {
    let values = source.bytes(bytes)?;
    lent::write(|out| wairokabi::write_bytes(out, values), source, sink)
}

// 12: text, list of unit lengths, room.
pub fn write_texts(source: &mut Source, sink: &mut Sink) -> Option<()> {
    let mut bytes = [0u8; 65536];
    let mut list = [0u64; 4096];
    let text = source.bytes(&mut bytes)?;
    let units = source.list(&mut list)?;
    lent::write(|out| wairokabi::write_texts(out, text, units), source, sink)
}
