// What the public call that sorts answers: how a sorting is judged, a refusal, and an answer that is done.
#![tactic(auto)]

ghost use Rattle.std.specs.Prelude.{◌≡◌};
ghost use Rattle.sort_answers.specs.Answers.{is_rule, refused_with, answered};
ghost use Rattle.sort_answers.specs.AnswersInner.{judged, answer_to};

use numbers::Refusal;
use sorter::Sorting;
use updates::Update;

// How many blocks were taken, how many clients each report names, and how many blocks and delete ranges were read.
#[repr(C)]
#[derive(Clone, Copy)]
pub struct Sorted {
    pub refusal: Refusal,
    pub steps: usize,
    pub counts: usize,
    pub reaches: usize,
    pub pending: usize,
    pub blocks: usize,
    pub ranges: usize,
}

// Whether a caller may name this rule.
#[tactic(auto, unfolding(crate::specs::Answers::is_rule))]
pub fn is_rule(rule: u8) -> bool
    ensures { result ≡ is_rule rule }
{
    rule == 13 || rule == 28
}

// A refusal, and counts of 0.
#[tactic(auto, unfolding(crate::specs::Answers::answered))]
pub fn none(why: Refusal) -> Sorted
    ensures { result ≡ answered (refused_with why) }
{
    Sorted {
        refusal: why,
        steps: 0,
        counts: 0,
        reaches: 0,
        pending: 0,
        blocks: 0,
        ranges: 0,
    }
}

// The number of a refusal, or 0: a sorting that was refused, too few words for the order (8), or for a report (10).
#[tactic(auto, unfolding(crate::specs::AnswersInner::judged, crate::specs::Answers::why_not))]
pub fn judge(s: Sorting, order: usize, counts: usize, reaches: usize, pending: usize) -> u8
    ensures { result ≡ judged s order counts reaches pending }
{
    if s.number != 0 {
        return s.number;
    }
    if order < s.steps {
        return 8;
    }
    if counts < s.counts || reaches < s.reaches || pending < s.pending {
        return 10;
    }
    0
}

// What is answered of a sorting that is not refused.
#[tactic(auto, unfolding(crate::specs::AnswersInner::answer_to))]
pub fn done(read: Update, s: Sorting) -> Sorted
    ensures { result ≡ answer_to read s }
{
    Sorted {
        refusal: Refusal {
            number: 0,
            place: 0,
        },
        steps: s.steps,
        counts: s.counts / 2,
        reaches: s.reaches / 2,
        pending: s.pending / 3,
        blocks: read.blocks,
        ranges: read.ranges,
    }
}
