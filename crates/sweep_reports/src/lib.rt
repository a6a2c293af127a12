// What the slow plain sorter reports after its sweeps, highest client first: how many blocks of each client were taken, and what the front of each client that
// has blocks left waits for, asked once more.
#![tactic(auto)]

ghost use Rattle.std.specs.Prelude.{◌≡◌, ◌+◌, ◌*◌, ◌≤◌, ◌<◌, length, get_or};
ghost use Rattle.std.proofs.lemmas.List.Edits.{sets};
ghost use Rattle.slots.specs.Slots.{slot_at, slots_from, Falling};
ghost use Rattle.reports.specs.Reports.{fitted};
ghost use Rattle.sweep_reports.specs.Reports.{taken_of, taken_from, reach_for, block_waits, front_waits, waits_from};

use block::Block;

// How many blocks of slot i were taken, if it has any, from word `at` on. The place after.
#[tactic(auto, unfolding(crate::specs::Reports::taken_of, slots::specs::Slots::slot_at))]
fn report_count(slots: &[u64], i: usize, taken: &[u64], out: &mut [u64], at: usize) -> usize
    requires { (3 * (i + 1) ≤ length slots.now) × (i < length taken.now) × (at ≤ 2 * i) }
    ensures { (result ≡ at + length (taken_of (slot_at slots.now i) (get_or taken.now i 0))) × (result ≤ at + 2)
        × (out.new ≡ sets out.old at (taken_of (slot_at slots.now i) (get_or taken.now i 0))) }
{
    let client = slots[3 * i];
    let count = slots[3 * i + 2];
    if count == 0 {
        return at;
    }
    let done = taken[i];
    numbers::words::put_word(out, at, client);
    numbers::words::put_word(out, at + 1, done);
    at + 2
}

// How many blocks of each client that has any were taken: two words each. How many words these are.
pub fn report_counts(slots: &[u64], n: usize, taken: &[u64], out: &mut [u64]) -> usize
    requires { (3 * n ≤ length slots.now) × (n ≤ length taken.now) }
    ensures { (result ≡ length (taken_from 0 (slots_from slots.now 0 n) taken.now))
        × (out.new ≡ fitted (length out.old) (taken_from 0 (slots_from slots.now 0 n) taken.now)) }
{
    let mut at = 0;
    for i in 0..n {
        at = report_count(slots, i, taken, out, at);
    }
    reports::clear_after(out, at);
    at
}

// How far a client reaches: 0 where it has no slot.
#[tactic(auto, unfolding(crate::specs::Reports::reach_for))]
fn reach_for(slots: &[u64], n: usize, reach: &[u64], client: u64) -> u64
    requires { (3 * n ≤ length slots.now) × Falling (slots_from slots.now 0 n) }
    ensures { result ≡ reach_for (slots_from slots.now 0 n) reach.now client }
{
    let p = slots::rank_of(slots, n, client);
    if !slots::is_at(slots, n, p, client) {
        return 0;
    }
    reports::reach_at(reach, p)
}

// What block b of slot i waits for, from word `at` on: its client, the client of the first id that is not met, and how far that reaches. The place after.
#[tactic(auto, unfolding(crate::specs::Reports::block_waits, slots::specs::Slots::slot_at))]
fn report_block(
    rule: u8,
    slots: &[u64],
    n: usize,
    i: usize,
    reach: &[u64],
    b: Block,
    out: &mut [u64],
    at: usize,
) -> usize
    requires { (3 * n ≤ length slots.now) × Falling (slots_from slots.now 0 n) × (3 * (i + 1) ≤ length slots.now) × (at ≤ 3 * i) }
    ensures { (result ≡ at + length (block_waits rule (slots_from slots.now 0 n) reach.now (slot_at slots.now i) b))
        × (out.new ≡ sets out.old at
        (block_waits rule (slots_from slots.now 0 n) reach.now (slot_at slots.now i) b)) }
{
    let a = sweeper::unmet(rule, slots, n, reach, b);
    if !a.there {
        return at;
    }
    let id = a.id;
    let missing = id.client;
    let client = slots[3 * i];
    let clock = reach_for(slots, n, reach, missing);
    numbers::words::put_word(out, at, client);
    numbers::words::put_word(out, at + 1, missing);
    numbers::words::put_word(out, at + 2, clock);
    at + 3
}

// The same of slot i's front, if it has one.
#[tactic(auto, unfolding(crate::specs::Reports::front_waits))]
fn report_front(
    rule: u8,
    rows: &[Block],
    slots: &[u64],
    n: usize,
    i: usize,
    reach: &[u64],
    taken: &[u64],
    out: &mut [u64],
    at: usize,
) -> usize
    requires { (3 * n ≤ length slots.now) × Falling (slots_from slots.now 0 n) × (n ≤ length taken.now) × (i < n) × (at ≤ 3 * i) }
    ensures { (result ≡ at + length (front_waits rule (slots_from slots.now 0 n) rows.now reach.now
        (slot_at slots.now i) (get_or taken.now i 0)))
        × (out.new ≡ sets out.old at (front_waits rule (slots_from slots.now 0 n) rows.now reach.now
        (slot_at slots.now i) (get_or taken.now i 0))) }
{
    let row = sweeper::front_row(slots, i, taken);
    if rows.len() <= row {
        return at;
    }
    let b = table::fetch(rows, row);
    report_block(rule, slots, n, i, reach, b, out, at)
}

// What each client that has blocks left waits for: three words each. How many words these are.
pub fn report_pending(
    rule: u8,
    rows: &[Block],
    slots: &[u64],
    n: usize,
    reach: &[u64],
    taken: &[u64],
    out: &mut [u64],
) -> usize
    requires { (3 * n ≤ length slots.now) × Falling (slots_from slots.now 0 n) × (n ≤ length taken.now) }
    ensures { (result ≡ length (waits_from 0 rule (slots_from slots.now 0 n) rows.now reach.now taken.now
        (slots_from slots.now 0 n)))
        × (out.new ≡ fitted (length out.old) (waits_from 0 rule (slots_from slots.now 0 n) rows.now
        reach.now taken.now (slots_from slots.now 0 n))) }
{
    let mut at = 0;
    for i in 0..n {
        at = report_front(rule, rows, slots, n, i, reach, taken, out, at);
    }
    reports::clear_after(out, at);
    at
}
