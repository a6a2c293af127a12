// What the lines of sorts have beside tables: the order, clients with a number each, and what waits.
#![tactic(auto)]

ghost use Rattle.std.specs.Prelude.{◌≡◌, ◌*◌, ◌&&◌};
ghost use Rattle.update_cases.specs.Entries.{are_zero_behind};

use sort_answers::Sorted;
use std::fmt;
use stream::shown;
use stream::shown::{After, Numbers, Pairs, Shown, Verdict};
use update_cases::tables;

// Clients that wait, the client that each waits for, and how far that reaches, or the clock that is missing of it.
#[derive(Clone, Copy)]
pub struct Waits<'a>(pub &'a [u64]);

impl Shown for Waits<'_> {
    fn show<W: fmt::Write>(&self, out: &mut W) -> fmt::Result {
        for [client, missing, clock] in self.0.as_chunks::<3>().0 {
            let far = After(":", *clock);
            (After(" ", *client), After(">", *missing), far).show(out)?;
        }
        Ok(())
    }
}

// A sort's answer, and the words lent for its order and its reports.
#[derive(Clone, Copy)]
pub struct Reports<'a> {
    pub answer: Sorted,
    pub order: &'a [u64],
    pub counts: &'a [u64],
    pub reaches: &'a [u64],
    pub pending: &'a [u64],
}

impl Reports<'_> {
    // Whether all words that hold nothing are zero.
    pub fn is_clean(&self) -> bool
        ensures { result ≡ (are_zero_behind self.now.answer.steps self.now.order.now
            && are_zero_behind (self.now.answer.counts * 2) self.now.counts.now
            && are_zero_behind (self.now.answer.reaches * 2) self.now.reaches.now
            && are_zero_behind (self.now.answer.pending * 3) self.now.pending.now) }
    {
        let answer = self.answer;
        let (_, order) = shown::cut(self.order, answer.steps);
        let (_, counts) = tables::entries(self.counts, answer.counts, 2);
        let (_, reaches) = tables::entries(self.reaches, answer.reaches, 2);
        let (_, pending) = tables::entries(self.pending, answer.pending, 3);
        shown::is_zero(order)
            && shown::is_zero(counts)
            && shown::is_zero(reaches)
            && shown::is_zero(pending)
    }
}

// The line up to the tables.
impl Shown for Reports<'_> {
    fn show<W: fmt::Write>(&self, out: &mut W) -> fmt::Result {
        let answer = self.answer;
        Verdict(answer.refusal).show(out)?;
        if answer.refusal.number != 0 {
            return Ok(());
        }
        let (order, _) = shown::cut(self.order, answer.steps);
        let (counts, _) = tables::entries(self.counts, answer.counts, 2);
        let (reaches, _) = tables::entries(self.reaches, answer.reaches, 2);
        let (pending, _) = tables::entries(self.pending, answer.pending, 3);
        (Numbers(order), " ;", Pairs(counts), " ;").show(out)?;
        (Pairs(reaches), " ;", Waits(pending), " ;").show(out)
    }
}
