// Operation 14: an update, read into tables; and the lines of tables, which other operations share.
ghost use Rattle.std.specs.Prelude.{◌≡◌, ◌*◌, ◌≤◌, IfSome, take, drop};

use crate::rows;
use crate::rows::Rows;
use block::Block;
use std::fmt;
use stream::shown;
use stream::shown::{After, Last, Shown, Verdict};
use stream::sink::Sink;
use stream::source::Source;
use updates::Update;

// A word that is lent.
pub const LENT: u64 = 0xA5A5A5A5A5A5A5A5;

// Delete ranges, three words each.
#[derive(Clone, Copy)]
pub struct Ranges<'a>(pub &'a [u64]);

impl Shown for Ranges<'_> {
    fn show<W: fmt::Write>(&self, out: &mut W) -> fmt::Result {
        for [client, clock, length] in self.0.as_chunks::<3>().0 {
            let end = After(".", *length);
            (After(" ", *client), After(".", *clock), end).show(out)?;
        }
        Ok(())
    }
}

// The words of so many entries of so many words each, and those behind them.
pub fn entries(lent: &[u64], count: usize, words: usize) -> (&[u64], &[u64])
    ensures front { result.0.now ≡ take (count * words) lent.now }
    ensures back { result.1.now ≡ drop (count * words) lent.now }
{
    shown::cut(lent, count.saturating_mul(words))
}

// The tables that an update was read into, as the end of a line: the last word is on all that was lent.
#[derive(Clone, Copy)]
pub struct Tables<'a> {
    pub answer: Update,
    pub rows: &'a [Block],
    pub words: &'a [u64],
    // whether all else that was lent and not filled is zero
    pub clean: bool,
}

impl Shown for Tables<'_> {
    fn show<W: fmt::Write>(&self, out: &mut W) -> fmt::Result {
        let Update {
            refusal,
            blocks,
            ranges,
        } = self.answer;
        let (filled, no_rows) = shown::cut(self.rows, blocks);
        let (words, no_words) = entries(self.words, ranges, 3);
        if refusal.number == 0 {
            (After(" blocks ", blocks), Rows(filled)).show(out)?;
            (After(" ranges ", ranges), Ranges(words)).show(out)?;
        }
        let zero = self.clean
            && no_rows.iter().all(|b| rows::is_none(*b))
            && shown::is_zero(no_words);
        Last(zero).show(out)
    }
}

// What a case asks beside its update: the form, and how many rows and words are lent.
#[derive(Clone, Copy)]
pub struct Asked {
    pub form: u8,
    pub rows: usize,
    pub words: usize,
}

impl Asked {
    pub fn take(source: &mut Source) -> Option<Asked>
        ensures { IfSome result (λ asked. (asked.rows ≤ 512) × (asked.words ≤ 3072)) }
    {
        let form = source.small()?;
        let rows = source.count(512)?;
        let words = source.count(1024)? * 3;
        Some(Asked { form, rows, words })
    }
}

// An update's case, by a call that reads updates: form, block rows, range rows, update.
// What it prints is held by the case program's stdout.
pub fn read_by<F: FnOnce(u8, &[u8], &mut [Block], &mut [u64]) -> Update>(
    call: F,
    source: &mut Source,
    bytes: &mut [u8],
    sink: &mut Sink,
) -> Option<()>
    requires { F.IsAlwaysCallable call }
{
    let asked = Asked::take(source)?;
    let update = source.bytes(bytes)?;
    let mut rows = [rows::LENT; 512];
    let mut words = [LENT; 3072];
    let rows = rows.get_mut(..asked.rows)?;
    let words = words.get_mut(..asked.words)?;
    let answer = call(asked.form, update, rows, words);
    let tables = Tables {
        answer,
        rows,
        words,
        clean: true,
    };
    (Verdict(answer.refusal), tables).show_line(sink).ok()
}

// 14
pub fn read(source: &mut Source, bytes: &mut [u8], sink: &mut Sink) -> Option<()> {
    read_by(updates::read_update, source, bytes, sink)
}
