// The slow plain sorter by held ids, over the block table (W-211): the rows of an update noted in slots, the sweeps over the rows by number, and the reports.
#![tactic(auto)]

ghost use Rattle.std.specs.Prelude.{◌≡◌, [], ◌+◌, ◌*◌, ◌≤◌, ◌<◌, length, take, get_or};
ghost use Rattle.std.proofs.lemmas.List.Edits.{sets};
ghost use Rattle.slots.specs.Slots.{slot_at, slots_from, Falling};
ghost use Rattle.reports.specs.Reports.{fitted};
ghost use Rattle.placing.specs.Placing.{rows_by};
ghost use Rattle.sorter.specs.Sorter.{slots_for, max_reaches};
ghost use Rattle.slow_held_sorter.specs.SlowHeld.{awaited_at, awaited_from, sorting_at, order_by, counts_by, pending_by};

use block::Block;
use sorter::Sorting;

// What the front of slot i waits for, if it has one, from word `at` on. The place after.
fn report_front(
    rows: &[Block],
    slots: &[u64],
    n: usize,
    held: &[u64],
    ranges: usize,
    reach: &[u64],
    taken: &[u64],
    i: usize,
    out: &mut [u64],
    at: usize,
) -> usize
    requires { (3 * n ≤ length slots.now) × Falling (slots_from slots.now 0 n) × (3 * ranges ≤ length held.now) × (n ≤ length taken.now) × (i < n)
        × (at ≤ 3 * i) }
    ensures { (result ≡ at + length (awaited_at (slots_from slots.now 0 n) reach.now rows.now
        (rows_by held.now ranges (slots_from slots.now 0 n) rows.now 0 rows.now)
        (slot_at slots.now i) (get_or taken.now i 0)))
        × (out.new ≡ sets out.old at (awaited_at (slots_from slots.now 0 n) reach.now rows.now
        (rows_by held.now ranges (slots_from slots.now 0 n) rows.now 0 rows.now)
        (slot_at slots.now i) (get_or taken.now i 0))) }
{
    let row = sweeper::front_row(slots, i, taken);
    if row < rows.len() {
        let a = table::fetch(rows, row);
        let b = seeker::number_row(rows, slots, n, held, ranges, i, row);
        let id = awaited::first_unmet(slots, n, reach, a, b);
        return awaited::put_waiting(slots, i, id, out, at);
    }
    at
}

// What each client that has blocks left waits for: three words each. How many words these are.
fn report_pending(
    rows: &[Block],
    slots: &[u64],
    n: usize,
    held: &[u64],
    ranges: usize,
    reach: &[u64],
    taken: &[u64],
    out: &mut [u64],
) -> usize
    requires { (3 * n ≤ length slots.now) × Falling (slots_from slots.now 0 n) × (3 * ranges ≤ length held.now) × (n ≤ length taken.now) }
    ensures { (result ≡ length (awaited_from (slots_from slots.now 0 n) reach.now rows.now
        (rows_by held.now ranges (slots_from slots.now 0 n) rows.now 0 rows.now)
        taken.now 0 (slots_from slots.now 0 n)))
        × (out.new ≡ fitted (length out.old) (awaited_from (slots_from slots.now 0 n) reach.now rows.now
        (rows_by held.now ranges (slots_from slots.now 0 n) rows.now 0 rows.now)
        taken.now 0 (slots_from slots.now 0 n))) }
{
    let mut at = 0;
    for i in 0..n {
        at = report_front(rows, slots, n, held, ranges, reach, taken, i, out, at);
    }
    reports::clear_after(out, at);
    at
}

// The rows, swept by held ranges, in n slots. How far a client reaches is how many of its blocks were taken, words of up to 128 clients (`max_reaches`).
fn sweep_slots(
    rows: &[Block],
    slots: &[u64],
    n: usize,
    held: &[u64],
    ranges: usize,
    order: &mut [u64],
    counts: &mut [u64],
    pending: &mut [u64],
) -> Sorting
    requires { (3 * n ≤ length slots.now) × Falling (slots_from slots.now 0 n) × (n ≤ max_reaches) × (3 * ranges ≤ length held.now) }
    ensures { (result ≡ sorting_at held.now ranges (slots_from slots.now 0 n) rows.now order.old)
        × (order.new ≡ order_by held.now ranges (slots_from slots.now 0 n) rows.now order.old)
        × (counts.new ≡ fitted (length counts.old) (counts_by held.now ranges (slots_from slots.now 0 n)
        rows.now order.old))
        × (pending.new ≡ fitted (length pending.old) (pending_by held.now ranges (slots_from slots.now 0 n)
        rows.now order.old)) }
{
    let mut reached = [0u64; 128];
    let reach = &mut reached[..];
    let mut done = [0u64; 128];
    let taken = &mut done[..];
    let steps = sweeper::sweep_all(28, true, rows, slots, n, held, ranges, reach, taken, order);
    reports::clear_after(order, steps);
    let a = sweep_reports::report_counts(slots, n, taken, counts);
    let w = report_pending(rows, slots, n, held, ranges, reach, taken, pending);
    slow_sorter::sorted(steps, a, 0, w)
}

// The rows, swept by held ranges in normal form; the first of them, as many as are blocks, have slots.
pub fn sweep_kept(
    rows: &[Block],
    blocks: usize,
    held: &[u64],
    ranges: usize,
    order: &mut [u64],
    counts: &mut [u64],
    pending: &mut [u64],
) -> Sorting
    requires { (blocks ≤ length rows.now) × (3 * ranges ≤ length held.now) }
    ensures { (result ≡ sorting_at held.now ranges (slots_for max_reaches (take blocks rows.now) []) rows.now
        order.old)
        × (order.new ≡ order_by held.now ranges (slots_for max_reaches (take blocks rows.now) []) rows.now
        order.old)
        × (counts.new ≡ fitted (length counts.old) (counts_by held.now ranges
        (slots_for max_reaches (take blocks rows.now) []) rows.now order.old))
        × (pending.new ≡ fitted (length pending.old) (pending_by held.now ranges
        (slots_for max_reaches (take blocks rows.now) []) rows.now order.old)) }
{
    let mut words = [0u64; 384];
    let slots = &mut words[..];
    let noted = sorter::note_rows(rows, blocks, slots);
    sweep_slots(
        rows,
        slots,
        noted.slots,
        held,
        ranges,
        order,
        counts,
        pending,
    )
}
