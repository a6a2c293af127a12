// What the public call that sorts by held ids answers: the held ids read, a refusal, and an answer that is done.
#![tactic(auto)]

ghost use Rattle.std.specs.Prelude.{◌≡◌, length};
ghost use Rattle.held_answers.specs.Answers.{refused_with, answered};
ghost use Rattle.held_answers.specs.AnswersInner.{read_held, words_given, answer_to};

use numbers::Refusal;
use sorter::Sorting;
use updates::Update;

// How many blocks were taken, how many clients each report names, how many blocks and delete ranges were read, and how many held ranges.
#[repr(C)]
#[derive(Clone, Copy)]
pub struct SortedHeld {
    pub refusal: Refusal,
    pub steps: usize,
    pub counts: usize,
    pub pending: usize,
    pub blocks: usize,
    pub ranges: usize,
    pub held: usize,
}

// The held ids that a caller gives: how many ranges they are in normal form, or the number of a refusal.
#[derive(Clone, Copy)]
pub struct HeldRead {
    pub refused: bool,
    pub number: u8,
    pub ranges: usize,
}

// Held ids, laid out as a form 1 delete set, read into words, three a range, in normal form.
pub fn read_held(held: &[u8], words: &mut [u64]) -> HeldRead
    ensures { (result ≡ read_held held.now (length words.old))
        × (words.new ≡ words_given held.now (length words.old)) }
{
    match deletes::read_delete_set(1, held, 0, words) {
        Ok((n, _)) => HeldRead {
            refused: false,
            number: 0,
            ranges: n,
        },
        Err(why) => HeldRead {
            refused: true,
            number: why.number,
            ranges: 0,
        },
    }
}

// A refusal, and counts of 0.
#[tactic(auto, unfolding(crate::specs::Answers::answered))]
pub fn none(why: Refusal) -> SortedHeld
    ensures { result ≡ answered (refused_with why) }
{
    SortedHeld {
        refusal: why,
        steps: 0,
        counts: 0,
        pending: 0,
        blocks: 0,
        ranges: 0,
        held: 0,
    }
}

// What is answered of a sorting that is not refused.
#[tactic(auto, unfolding(crate::specs::AnswersInner::answer_to))]
pub fn done(read: Update, held: usize, s: Sorting) -> SortedHeld
    ensures { result ≡ answer_to read held s }
{
    SortedHeld {
        refusal: Refusal {
            number: 0,
            place: 0,
        },
        steps: s.steps,
        counts: s.counts / 2,
        pending: s.pending / 3,
        blocks: read.blocks,
        ranges: read.ranges,
        held,
    }
}
