// What the lines of sorts by held ids have beside tables: the verdict, the order, the reports and the held ids.
#![tactic(auto)]

ghost use Rattle.std.specs.Prelude.{◌≡◌, ◌*◌, ◌&&◌};
ghost use Rattle.update_cases.specs.Entries.{are_zero_behind};

use held_answers::SortedHeld;
use sort_lines::Waits;
use std::fmt;
use stream::shown;
use stream::shown::{After, Numbers, Pairs, Shown, Verdict};
use update_cases::tables;
use update_cases::tables::Ranges;

// A sort's answer, and the words lent for the held ids, its order and its reports.
#[derive(Clone, Copy)]
pub struct Reports<'a> {
    pub answer: SortedHeld,
    pub given: &'a [u64],
    pub order: &'a [u64],
    pub counts: &'a [u64],
    pub pending: &'a [u64],
}

impl Reports<'_> {
    // Whether all words that hold nothing are zero.
    pub fn is_clean(&self) -> bool
        ensures { result ≡ (are_zero_behind (self.now.answer.held * 3) self.now.given.now
            && are_zero_behind self.now.answer.steps self.now.order.now
            && are_zero_behind (self.now.answer.counts * 2) self.now.counts.now
            && are_zero_behind (self.now.answer.pending * 3) self.now.pending.now) }
    {
        let answer = self.answer;
        let (_, given) = tables::entries(self.given, answer.held, 3);
        let (_, order) = shown::cut(self.order, answer.steps);
        let (_, counts) = tables::entries(self.counts, answer.counts, 2);
        let (_, pending) = tables::entries(self.pending, answer.pending, 3);
        shown::is_zero(given)
            && shown::is_zero(order)
            && shown::is_zero(counts)
            && shown::is_zero(pending)
    }
}

// The line up to the tables.
impl Shown for Reports<'_> {
    fn show<W: fmt::Write>(&self, out: &mut W) -> fmt::Result {
        let answer = self.answer;
        Verdict(answer.refusal).show(out)?;
        if answer.refusal.number != 0 {
            return Ok(());
        }
        let (given, _) = tables::entries(self.given, answer.held, 3);
        let (order, _) = shown::cut(self.order, answer.steps);
        let (counts, _) = tables::entries(self.counts, answer.counts, 2);
        let (pending, _) = tables::entries(self.pending, answer.pending, 3);
        (Numbers(order), " ;", Pairs(counts), " ;").show(out)?;
        let held = After(" ; held ", answer.held);
        (Waits(pending), held, Ranges(given), " ;").show(out)
    }
}
