// What a sorter by held ids looks up in the block table at a look: the chains of all clients once, then a row by number, hanging only on what is not met. An id
// is sought only where it is not seen from where its client's queue stands.
#![tactic(auto)]

ghost use Rattle.std.specs.Prelude.{◌≡◌, ◌*◌, ◌≤◌, ◌<◌, length, get_or};
ghost use Rattle.block.specs.Row.{no_block};
ghost use Rattle.slots.specs.Slots.{slots_from, Falling};
ghost use Rattle.chaining.specs.Chaining.{chain_of, chains_from, Chains, near_of, settled, looked_by};

use block::Block;
use chaining::{Ask, Chain, Stand};
use placing::Span;

// The chain of a span of rows.
fn chain_rows(rows: &[Block], s: Span) -> Chain
    ensures { result ≡ chain_of rows.now s }
{
    if s.hi <= s.lo {
        return chaining::broken();
    }
    if rows.len() < s.hi {
        return chaining::broken();
    }
    let a = table::fetch(rows, s.lo);
    let mut chain = chaining::begin(a);
    for i in s.lo..s.hi {
        let b = table::fetch(rows, i);
        chain = chaining::link(chain, b);
    }
    chain
}

// The chains of n slots, two words each.
pub fn chain_slots(rows: &[Block], slots: &[u64], n: usize, chains: &mut [u64])
    requires { 3 * n ≤ length slots.now }
    ensures { chains.new ≡ chains_from 0 (slots_from slots.now 0 n) rows.now chains.old }
{
    for p in 0..n {
        let s = placing::span_at(slots, p);
        let chain = chain_rows(rows, s);
        chaining::put_chain(chains, p, chain);
    }
}

// What is seen of a clock from where its client's queue stands.
fn near(rows: &[Block], t: Stand, clock: u32) -> u64
    ensures { result ≡ near_of rows.now t clock }
{
    let any = chaining::is_seen(t, rows.len());
    if any {
        let a = table::fetch(rows, t.first);
        let b = table::fetch(rows, t.next);
        return chaining::see(t, a, b, clock);
    }
    chaining::AFAR
}

// What an id is looked up in: the rows, the slots, the ranges held at first, and the chain and the reach of each slot.
#[derive(Clone, Copy)]
struct Lookup<'a> {
    rows: &'a [Block],
    slots: &'a [u64],
    n: usize,
    held: &'a [u64],
    ranges: usize,
    chains: &'a [u64],
    reach: &'a [u64],
}

// What an id waits for, in one word, if it is there: one more than the number of its holder; 0 where it is held at first or its holder is taken.
fn settle(l: &Lookup, a: Ask) -> u64
    requires { (3 * l.now.n ≤ length l.now.slots.now) × Falling (slots_from l.now.slots.now 0 l.now.n)
        × (3 * l.now.ranges ≤ length l.now.held.now) × Chains (slots_from l.now.slots.now 0 l.now.n) l.now.rows.now l.now.chains.now }
    ensures { result
        ≡ settled l.now.held.now l.now.ranges (slots_from l.now.slots.now 0 l.now.n) l.now.rows.now l.now.reach.now a.there a.client a.clock }
{
    if !a.there {
        return 0;
    }
    let t = chaining::stand_of(l.slots, l.n, l.chains, l.reach, a.client);
    let how = near(l.rows, t, a.clock);
    if how == chaining::TAKEN {
        return 0;
    }
    let gone = chaining::is_held(l.held, l.ranges, a.client, a.clock);
    if gone {
        return 0;
    }
    if how == chaining::NEXT {
        let next = chaining::next_number(t);
        return chaining::unmet_word(l.slots, l.n, l.reach, a.client, next);
    }
    let s = placing::span_of(l.slots, l.n, a.client);
    let number = seeker::number(l.rows, s, a.clock);
    chaining::unmet_word(l.slots, l.n, l.reach, a.client, number)
}

// Row i by number, hanging only on what is not met. Slot `near` may be its client's.
pub fn look_row(
    rows: &[Block],
    slots: &[u64],
    n: usize,
    held: &[u64],
    ranges: usize,
    chains: &[u64],
    reach: &[u64],
    near: usize,
    i: usize,
) -> Block
    requires { (i < length rows.now) × (3 * n ≤ length slots.now) × Falling (slots_from slots.now 0 n) × (3 * ranges ≤ length held.now)
        × Chains (slots_from slots.now 0 n) rows.now chains.now }
    ensures { result
        ≡ looked_by held.now ranges (slots_from slots.now 0 n) rows.now reach.now i
        (get_or rows.now i no_block) }
{
    let l = Lookup {
        rows,
        slots,
        n,
        held,
        ranges,
        chains,
        reach,
    };
    let b = table::fetch(rows, i);
    let first = chaining::stage_of(b, 0);
    let left = settle(&l, first);
    let second = chaining::stage_of(b, 1);
    let right = settle(&l, second);
    let third = chaining::stage_of(b, 2);
    let parent = settle(&l, third);
    chaining::numbered(slots, n, near, i, b, left, right, parent)
}
