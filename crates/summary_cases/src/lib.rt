// Operations 19 and 20 of the case program: summaries, written and read.
#![tactic(auto)]

use std::fmt;
use stream::shown;
use stream::shown::{After, Last, Shown, Verdict, Wrote};
use stream::sink::Sink;
use stream::source::Source;
use update_cases::tables;

// 19: form, room, update. What is lent is full of 0xA5, so that the last word means something.
pub fn write(source: &mut Source, bytes: &mut [u8], sink: &mut Sink) -> Option<()> {
    let form = source.small()?;
    let room = source.count(65536)?;
    let update = source.bytes(bytes)?;
    let mut out = [0xA5u8; 65536];
    let lent = out.get_mut(..room)?;
    let answer = summaries::write_summary(form, update, lent);
    let wrote = Wrote {
        verdict: Verdict(answer.refusal),
        bytes: answer.bytes,
        lent,
    };
    wrote.show_line(sink).ok()
}

// A summary's rows, four words each.
#[derive(Clone, Copy)]
struct Rows<'a>(&'a [u64]);

impl Shown for Rows<'_> {
    fn show<W: fmt::Write>(&self, out: &mut W) -> fmt::Result {
        for [client, first, end, blocks] in self.0.as_chunks::<4>().0 {
            (After(" ", *client), After(":", *first)).show(out)?;
            (After(":", *end), After(":", *blocks)).show(out)?;
        }
        Ok(())
    }
}

// 20: rows, bytes.
pub fn read(source: &mut Source, bytes: &mut [u8], sink: &mut Sink) -> Option<()> {
    let room = 4 * source.count(2048)?;
    let summary = source.bytes(bytes)?;
    let mut words = [tables::LENT; 8192];
    let words = words.get_mut(..room)?;
    let answer = summaries::read_summary(summary, words);
    let (rows, rest) = tables::entries(words, answer.count, 4);
    let last = Last(shown::is_zero(rest));
    let line = (Verdict(answer.refusal), Rows(rows), last);
    line.show_line(sink).ok()
}
