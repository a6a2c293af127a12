// The rows of a client that follow on each other, a chain, and where Skips lie among them; and what is seen of an id from where its client's queue stands, so
// that it need not be sought.
#![tactic(auto)]

ghost use Rattle.std.specs.Prelude.{◌≡◌, ◌+◌, ◌*◌, ◌≤◌, length};
ghost use Rattle.slots.specs.Slots.{slots_from, Falling};
ghost use Rattle.picker.specs.Stages.{stage_at};
ghost use Rattle.placing.specs.Placing.{is_held, capped};
ghost use Rattle.chaining.specs.Chaining.{no_chain, unlinked, skipped, linked, put_chain, no_stand, stand_in, stand_of};
ghost use Rattle.chaining.specs.Chaining.{is_seen, is_clear, seen_next, seen, ask_of, unmet_word, on_word, light_block, id_of};

use block::{Block, Id};
use picker::stages::Dependency;
use placing::Span;

// ---- a chain

// One more than the clock that rows which follow on each other have come to, or 0 if they do not; one more than the clock of the first Skip among them, or
// SKIPLESS; and the clock after the last Skip, or 0.
#[derive(Clone, Copy)]
pub struct Chain {
    pub end: u64,
    pub clear: u64,
    pub resume: u64,
}

// No clock is as high.
pub const SKIPLESS: u64 = 4294967296;

// Before the first row.
pub fn begin(b: Block) -> Chain
    ensures { result ≡ unlinked b }
{
    Chain {
        end: b.clock as u64 + 1,
        clear: SKIPLESS,
        resume: 0,
    }
}

pub fn broken() -> Chain
    ensures { result ≡ no_chain }
{
    Chain {
        end: 0,
        clear: 0,
        resume: 0,
    }
}

// With this Skip, from this clock on, after which the chain has come to `end`.
fn skip(chain: Chain, clock: u32, end: u64) -> Chain
    requires { 1 ≤ end }
    ensures { result ≡ skipped chain clock end }
{
    Chain {
        end,
        clear: chain.clear.min(u64::from(clock) + 1),
        resume: end - 1,
    }
}

// With this row.
pub fn link(chain: Chain, b: Block) -> Chain
    ensures { result ≡ linked chain b }
{
    let kind = b.kind;
    let clock = b.clock;
    let length = b.length;
    if chain.end != clock as u64 + 1 {
        return broken();
    }
    if numbers::MAX_CLOCK < length.0 {
        return broken();
    }
    let end = chain.end + length.0;
    if kind == block::SKIP {
        return skip(chain, clock, end);
    }
    Chain { end, ..chain }
}

// What is kept of the chain of slot p, two words: `clear`, or 0 if the rows do not follow on each other, and `resume`.
pub fn put_chain(chains: &mut [u64], p: usize, chain: Chain)
    ensures { chains.new ≡ put_chain chains.old p chain }
{
    if chains.len() / 2 <= p {
        return;
    }
    let at = 2 * p;
    chains[at] = chain.clear;
    chains[at + 1] = chain.resume;
}

// ---- where a queue stands

// The row of a client's first block; that of its next (the last, if all are taken); how many are taken, and whether that is all (1, or 0); and what is kept of
// its chain.
#[derive(Clone, Copy)]
pub struct Stand {
    pub first: usize,
    pub next: usize,
    pub taken: u64,
    pub all: u64,
    pub clear: u64,
    pub resume: u64,
}

fn none() -> Stand
    ensures { result ≡ no_stand }
{
    Stand {
        first: 0,
        next: 0,
        taken: 0,
        all: 0,
        clear: 0,
        resume: 0,
    }
}

fn stand_in(s: Span, taken: u64, clear: u64, resume: u64) -> Stand
    ensures { result ≡ stand_in s taken clear resume }
{
    let count = s.hi.saturating_sub(s.lo) as u64;
    let (next, all) = if count <= taken {
        (s.hi.saturating_sub(1), 1)
    } else {
        (s.lo + taken as usize, 0)
    };
    Stand {
        first: s.lo,
        next,
        taken,
        all,
        clear,
        resume,
    }
}

// Where the queue of a client stands, of which so many blocks are taken as `reach` has.
pub fn stand_of(slots: &[u64], n: usize, chains: &[u64], reach: &[u64], client: u64) -> Stand
    requires { (3 * n ≤ length slots.now) × Falling (slots_from slots.now 0 n) }
    ensures { result ≡ stand_of (slots_from slots.now 0 n) chains.now reach.now client }
{
    let p = slots::rank_of(slots, n, client);
    let named = slots::is_at(slots, n, p, client);
    if !named {
        return none();
    }
    if chains.len() / 2 <= p {
        return none();
    }
    if reach.len() <= p {
        return none();
    }
    let s = placing::span_at(slots, p);
    stand_in(s, reach[p], chains[2 * p], chains[2 * p + 1])
}

// ---- what is seen from there

// The id must be sought; a taken block holds it; the next block holds it.
pub const AFAR: u64 = 0;

pub const TAKEN: u64 = 1;

pub const NEXT: u64 = 2;

// Whether anything is seen, where there are so many rows.
pub fn is_seen(t: Stand, rows: usize) -> bool
    ensures { result ≡ is_seen t rows }
{
    t.clear != 0 && t.first < rows && t.next < rows
}

// Whether a clock lies before all Skips or behind them.
fn is_clear(t: Stand, clock: u32) -> bool
    ensures { result ≡ is_clear t clock }
{
    let k = u64::from(clock);
    k + 1 < t.clear || t.resume <= k
}

// What is seen of a clock in the next block.
fn see_next(t: Stand, next: Block, clock: u32) -> u64
    requires { next.clock ≤ clock }
    ensures { result ≡ seen_next t next clock }
{
    let kind = next.kind;
    let length = next.length;
    if kind == block::SKIP {
        return AFAR;
    }
    if length.0 <= (clock - next.clock) as u64 {
        return AFAR;
    }
    if t.all == 1 {
        return TAKEN;
    }
    NEXT
}

// What is seen of a clock, where the first and the next row have these blocks.
pub fn see(t: Stand, first: Block, next: Block, clock: u32) -> u64
    ensures { result ≡ seen t first next clock }
{
    if clock < first.clock {
        return AFAR;
    }
    if clock < next.clock {
        if is_clear(t, clock) {
            return TAKEN;
        }
        return AFAR;
    }
    see_next(t, next, clock)
}

// The number of the next block.
pub fn next_number(t: Stand) -> u32
    ensures { result ≡ capped t.taken }
{
    placing::cap(t.taken as usize)
}

// ---- what an id waits for, in one word

// A stage of a block, its id taken apart.
#[derive(Clone, Copy)]
pub struct Ask {
    pub there: bool,
    pub client: u64,
    pub clock: u32,
}

// Stage k.
pub fn stage_of(b: Block, k: usize) -> Ask
    ensures { result ≡ ask_of (stage_at 28 b k) }
{
    let a = picker::stages::at(28, b, k);
    let id = a.id;
    Ask {
        there: a.there,
        client: id.client,
        clock: id.clock,
    }
}

// Whether n ranges hold the id of a client at a clock.
pub fn is_held(words: &[u64], n: usize, client: u64, clock: u32) -> bool
    requires { 3 * n ≤ length words.now }
    ensures { result ≡ is_held words.now n (id_of client clock) }
{
    let id = Id { client, clock };
    placing::is_held(words, n, id)
}

// One more than a client's number that is waited for; 0 if the client's queue has come past it.
pub fn unmet_word(slots: &[u64], n: usize, reach: &[u64], client: u64, number: u32) -> u64
    requires { (3 * n ≤ length slots.now) × Falling (slots_from slots.now 0 n) }
    ensures { result ≡ unmet_word (slots_from slots.now 0 n) reach.now client number }
{
    let id = Id {
        client,
        clock: number,
    };
    let p = slots::rank_of(slots, n, client);
    let named = slots::is_at(slots, n, p, client);
    if picker::is_met(reach, p, named, id) {
        return 0;
    }
    number as u64 + 1
}

// The dependency that such a word says.
fn on_word(client: u64, word: u64) -> Dependency
    ensures { result ≡ on_word client word }
{
    if word == 0 {
        return picker::stages::none();
    }
    let number = placing::cap((word - 1) as usize);
    let id = Id {
        client,
        clock: number,
    };
    Dependency { there: true, id }
}

// The block of row i by number, hanging on what these words say of its left, right and parent id.
pub fn numbered(
    slots: &[u64],
    n: usize,
    near: usize,
    i: usize,
    b: Block,
    left: u64,
    right: u64,
    parent: u64,
) -> Block
    requires { (3 * n ≤ length slots.now) × Falling (slots_from slots.now 0 n) }
    ensures { result ≡ light_block (slots_from slots.now 0 n) i b left right parent }
{
    let first = on_word(b.left_client, left);
    let second = on_word(b.right_client, right);
    let third = on_word(b.parent_client, parent);
    placing::numbered(slots, n, near, i, b, first, second, third)
}
