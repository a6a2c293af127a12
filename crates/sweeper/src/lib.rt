// The slow plain sorter (W-211): it sweeps over all clients, lowest first, takes each one's fronts while they are ready, and sweeps again until a sweep
// takes nothing. Slots name the clients, highest first, with the row of each one's first block and how many it has; `reach` has a word for each slot, how
// far its client reaches, and `taken` another, how many of its blocks were taken. Where ids are held (W-206) a row is seen by number, from `held`, ranges of
// ids in words; then a client reaches as far as its blocks were taken.
#![tactic(auto)]

ghost use Rattle.std.specs.Prelude.{◌≡◌, ◌+◌, ◌*◌, ◌≤◌, ◌<◌, length, get_or};
ghost use Rattle.block.specs.Row.{no_block};
ghost use Rattle.picker.specs.Picker.{nowhere, holds};
ghost use Rattle.slots.specs.Slots.{slot_at, slots_from, Falling};
ghost use Rattle.sweeper.specs.Sweeper.{seen_by, unmet_by, ready_by, front_row, board, took, drained, swept, swept_all, Shows};

use block::Block;
use picker::stages;
use picker::stages::Dependency;

// ---- a front

// Whether a dependency holds its block: it is there, and its client's reach is at or below its clock, or its client has no slot.
#[tactic(auto, unfolding(picker::specs::Picker::holds, picker::specs::Picker::is_met))]
fn is_held(slots: &[u64], n: usize, reach: &[u64], a: Dependency) -> bool
    requires { (3 * n ≤ length slots.now) × Falling (slots_from slots.now 0 n) }
    ensures { result ≡ holds (slots_from slots.now 0 n) reach.now a }
{
    let id = a.id;
    if !a.there {
        return false;
    }
    let p = slots::rank_of(slots, n, id.client);
    let named = slots::is_at(slots, n, p, id.client);
    !picker::is_met(reach, p, named, id)
}

// The first that a block asks for, by a rule, and that holds it; none where it is ready.
pub fn unmet(rule: u8, slots: &[u64], n: usize, reach: &[u64], b: Block) -> Dependency
    requires { (3 * n ≤ length slots.now) × Falling (slots_from slots.now 0 n) }
    ensures { result ≡ unmet_by rule (slots_from slots.now 0 n) reach.now b }
{
    for k in 0..stages::count(rule) {
        let a = stages::at(rule, b, k);
        if is_held(slots, n, reach, a) {
            return a;
        }
    }
    stages::none()
}

#[tactic(auto, unfolding(crate::specs::Sweeper::ready_by))]
fn is_ready(rule: u8, slots: &[u64], n: usize, reach: &[u64], b: Block) -> bool
    requires { (3 * n ≤ length slots.now) × Falling (slots_from slots.now 0 n) }
    ensures { result ≡ ready_by rule (slots_from slots.now 0 n) reach.now b }
{
    let a = unmet(rule, slots, n, reach, b);
    !a.there
}

// The row of slot i's front, or none (`picker::NOWHERE`) where all its blocks are taken.
#[tactic(auto, unfolding(crate::specs::Sweeper::front_row, slots::specs::Slots::slot_at))]
pub fn front_row(slots: &[u64], i: usize, taken: &[u64]) -> usize
    requires { (3 * (i + 1) ≤ length slots.now) × (i < length taken.now) }
    ensures { result ≡ front_row (slot_at slots.now i) (get_or taken.now i 0) }
{
    let first = slots[3 * i + 1] as usize;
    let count = slots[3 * i + 2] as usize;
    let done = taken[i] as usize;
    if count <= done || parts::BRIM < first || parts::BRIM < done {
        return picker::NOWHERE;
    }
    first + done
}

// The block in a row of slot i, by number or as it is.
fn see(
    numbered: bool,
    rows: &[Block],
    slots: &[u64],
    n: usize,
    held: &[u64],
    ranges: usize,
    i: usize,
    row: usize,
) -> Block
    requires { (row < length rows.now) × (3 * n ≤ length slots.now) × Falling (slots_from slots.now 0 n) × (3 * ranges ≤ length held.now) }
    ensures { result ≡ get_or (seen_by numbered held.now ranges (slots_from slots.now 0 n) rows.now) row no_block }
{
    if numbered {
        return seeker::number_row(rows, slots, n, held, ranges, i, row);
    }
    table::fetch(rows, row)
}

// The front of slot i, in this row, is taken: its client reaches to the block's end, one block more of it is taken, and the row is next in the order. How many
// steps were made then.
#[tactic(auto, unfolding(crate::specs::Sweeper::took, picker::specs::Picker::pushed))]
fn take(
    i: usize,
    row: usize,
    reach: &mut [u64],
    taken: &mut [u64],
    order: &mut [u64],
    steps: usize,
    b: Block,
) -> usize
    requires { (i < length taken.old) × (get_or taken.old i 0 < nowhere) }
    ensures { Shows (took i row b (board reach.old taken.old order.old steps))
        result reach.new taken.new order.new }
{
    picker::raise(reach, i, b);
    let done = taken[i];
    taken[i] = done + 1;
    numbers::words::put_word(order, steps, row as u64);
    picker::one_more(steps)
}

// ---- the sweeps

// The fronts of slot i, taken while they are ready. How many steps were made then.
fn drain(
    rule: u8,
    numbered: bool,
    rows: &[Block],
    slots: &[u64],
    n: usize,
    held: &[u64],
    ranges: usize,
    i: usize,
    reach: &mut [u64],
    taken: &mut [u64],
    order: &mut [u64],
    steps: usize,
) -> usize
    requires { (3 * n ≤ length slots.now) × Falling (slots_from slots.now 0 n) × (n ≤ length taken.old) × (i < n)
        × (3 * ranges ≤ length held.now) }
    ensures { Shows (drained rule (slots_from slots.now 0 n)
        (seen_by numbered held.now ranges (slots_from slots.now 0 n) rows.now) i
        (board reach.old taken.old order.old steps))
        result reach.new taken.new order.new }
{
    let mut steps = steps;
    let mut row = front_row(slots, i, taken);
    // Kept, point 3 (no plainer): row is where the client's next front stands, asked for anew after each take, and counts nothing.
    while row < rows.len() {
        let b = see(numbered, rows, slots, n, held, ranges, i, row);
        if !is_ready(rule, slots, n, reach, b) {
            return steps;
        }
        steps = take(i, row, reach, taken, order, steps, b);
        row = front_row(slots, i, taken);
    }
    steps
}

// All clients, lowest first. How many steps were made then.
fn sweep(
    rule: u8,
    numbered: bool,
    rows: &[Block],
    slots: &[u64],
    n: usize,
    held: &[u64],
    ranges: usize,
    reach: &mut [u64],
    taken: &mut [u64],
    order: &mut [u64],
    steps: usize,
) -> usize
    requires { (3 * n ≤ length slots.now) × Falling (slots_from slots.now 0 n) × (n ≤ length taken.old)
        × (3 * ranges ≤ length held.now) }
    ensures { Shows (swept rule (slots_from slots.now 0 n)
        (seen_by numbered held.now ranges (slots_from slots.now 0 n) rows.now)
        (board reach.old taken.old order.old steps))
        result reach.new taken.new order.new }
{
    let mut steps = steps;
    for i in (0..n).rev() {
        steps = drain(
            rule, numbered, rows, slots, n, held, ranges, i, reach, taken, order, steps,
        );
    }
    steps
}

// Sweeps until one takes nothing. How many steps were made.
pub fn sweep_all(
    rule: u8,
    numbered: bool,
    rows: &[Block],
    slots: &[u64],
    n: usize,
    held: &[u64],
    ranges: usize,
    reach: &mut [u64],
    taken: &mut [u64],
    order: &mut [u64],
) -> usize
    requires { (3 * n ≤ length slots.now) × Falling (slots_from slots.now 0 n) × (n ≤ length taken.old)
        × (3 * ranges ≤ length held.now) }
    ensures { Shows (swept_all rule (slots_from slots.now 0 n)
        (seen_by numbered held.now ranges (slots_from slots.now 0 n) rows.now)
        (board reach.old taken.old order.old 0))
        result reach.new taken.new order.new }
{
    let mut before = 0;
    let mut steps = sweep(
        rule, numbered, rows, slots, n, held, ranges, reach, taken, order, 0,
    );
    while before < steps {
        before = steps;
        steps = sweep(
            rule, numbered, rows, slots, n, held, ranges, reach, taken, order, steps,
        );
    }
    steps
}
