// The sorter by held ids: the rows of an update noted in slots, then one front looked at after another, each row by number, and the reports.
#![tactic(auto)]

ghost use Rattle.std.specs.Prelude.{◌≡◌, [], ◌+◌, ◌*◌, ◌≤◌, length, take};
ghost use Rattle.std.proofs.lemmas.List.Edits.{sets};
ghost use Rattle.slots.specs.Slots.{slot_at, slots_from, Falling};
ghost use Rattle.picker.specs.Fronts.{front_at};
ghost use Rattle.reports.specs.Reports.{fitted};
ghost use Rattle.placing.specs.Placing.{rows_by};
ghost use Rattle.chaining.specs.Chaining.{Chains};
ghost use Rattle.awaited.specs.Awaited.{waiting_of, waiting_from};
ghost use Rattle.sorter.specs.Sorter.{slots_for, max_reaches};
ghost use Rattle.held_sorter.specs.HeldSorter.{picks_by, Picks, sorting_by, order_by, counts_by, pending_by};

use block::Block;
use picker::Look;
use sorter::Sorting;

// Fronts looked at until none can be taken, where these are the chains of the slots.
fn pick_chained(
    rows: &[Block],
    blocks: usize,
    slots: &[u64],
    n: usize,
    held: &[u64],
    ranges: usize,
    chains: &[u64],
    reach: &mut [u64],
    fronts: &mut [u64],
    order: &mut [u64],
) -> Look
    requires { (3 * n ≤ length slots.now) × Falling (slots_from slots.now 0 n) × (3 * ranges ≤ length held.now)
        × Chains (slots_from slots.now 0 n) rows.now chains.now }
    ensures { Picks (picks_by held.now ranges (slots_from slots.now 0 n) rows.now blocks
        reach.old fronts.old order.old) result reach.new fronts.new order.new }
{
    let mut p = picker::begin(28, fronts, reach, n, blocks);
    // Kept, point 3 (no plainer): p.row is where the front stands that is looked at next, in any order, and counts nothing.
    while p.row < rows.len() {
        let b = nearby::look_row(rows, slots, n, held, ranges, chains, reach, p.slot, p.row);
        p = picker::offer(28, slots, n, p, reach, fronts, order, b);
    }
    p
}

// Fronts looked at until none can be taken.
fn pick_rows(
    rows: &[Block],
    blocks: usize,
    slots: &[u64],
    n: usize,
    held: &[u64],
    ranges: usize,
    reach: &mut [u64],
    fronts: &mut [u64],
    order: &mut [u64],
) -> Look
    requires { (3 * n ≤ length slots.now) × Falling (slots_from slots.now 0 n) × (3 * ranges ≤ length held.now) }
    ensures { Picks (picks_by held.now ranges (slots_from slots.now 0 n) rows.now blocks
        reach.old fronts.old order.old) result reach.new fronts.new order.new }
{
    let mut words = [0u64; 256];
    let chains = &mut words[..];
    nearby::chain_slots(rows, slots, n, chains);
    pick_chained(
        rows, blocks, slots, n, held, ranges, chains, reach, fronts, order,
    )
}

// What slot i waits for, from word `at` on. The place after.
fn report_front(
    rows: &[Block],
    slots: &[u64],
    n: usize,
    held: &[u64],
    ranges: usize,
    fronts: &[u64],
    reach: &[u64],
    i: usize,
    out: &mut [u64],
    at: usize,
) -> usize
    requires { (3 * n ≤ length slots.now) × Falling (slots_from slots.now 0 n) × (3 * ranges ≤ length held.now)
        × (3 * (i + 1) ≤ length slots.now) × (at ≤ 3 * i) }
    ensures { (result ≡ at + length (waiting_of (slots_from slots.now 0 n) reach.now rows.now
        (rows_by held.now ranges (slots_from slots.now 0 n) rows.now 0 rows.now)
        (slot_at slots.now i) (front_at fronts.now i)))
        × (out.new ≡ sets out.old at (waiting_of (slots_from slots.now 0 n) reach.now rows.now
        (rows_by held.now ranges (slots_from slots.now 0 n) rows.now 0 rows.now)
        (slot_at slots.now i) (front_at fronts.now i))) }
{
    let f = picker::fronts::front_at(fronts, i);
    if awaited::is_left(f, rows.len()) {
        let a = table::fetch(rows, f.next);
        let b = seeker::number_row(rows, slots, n, held, ranges, i, f.next);
        let id = awaited::first_unmet(slots, n, reach, a, b);
        return awaited::put_waiting(slots, i, id, out, at);
    }
    at
}

// What each client that has blocks left waits for: three words each. How many words these are.
fn report_pending(
    rows: &[Block],
    slots: &[u64],
    n: usize,
    held: &[u64],
    ranges: usize,
    fronts: &[u64],
    reach: &[u64],
    out: &mut [u64],
) -> usize
    requires { (3 * n ≤ length slots.now) × Falling (slots_from slots.now 0 n) × (3 * ranges ≤ length held.now) }
    ensures { (result ≡ length (waiting_from (slots_from slots.now 0 n) reach.now fronts.now rows.now
        (rows_by held.now ranges (slots_from slots.now 0 n) rows.now 0 rows.now) 0 (slots_from slots.now 0 n)))
        × (out.new ≡ fitted (length out.old) (waiting_from (slots_from slots.now 0 n) reach.now fronts.now rows.now
        (rows_by held.now ranges (slots_from slots.now 0 n) rows.now 0 rows.now) 0 (slots_from slots.now 0 n))) }
{
    let mut at = 0;
    for i in 0..n {
        at = report_front(rows, slots, n, held, ranges, fronts, reach, i, out, at);
    }
    reports::clear_after(out, at);
    at
}

// The first rows, as many as are blocks, sorted against held ranges, in n slots.
fn sort_slots(
    rows: &[Block],
    blocks: usize,
    slots: &[u64],
    n: usize,
    held: &[u64],
    ranges: usize,
    order: &mut [u64],
    counts: &mut [u64],
    pending: &mut [u64],
) -> Sorting
    requires { (3 * n ≤ length slots.now) × Falling (slots_from slots.now 0 n) × (3 * ranges ≤ length held.now) }
    ensures { (result ≡ sorting_by held.now ranges (slots_from slots.now 0 n) rows.now blocks order.old)
        × (order.new ≡ order_by held.now ranges (slots_from slots.now 0 n) rows.now blocks order.old)
        × (counts.new ≡ fitted (length counts.old) (counts_by held.now ranges (slots_from slots.now 0 n) rows.now blocks order.old))
        × (pending.new ≡ fitted (length pending.old) (pending_by held.now ranges (slots_from slots.now 0 n) rows.now blocks order.old)) }
{
    let mut reached = [0u64; 128];
    let reach = &mut reached[..];
    let mut words = [0u64; 768];
    let fronts = &mut words[..];
    picker::fronts::open(slots, n, fronts);
    let p = pick_rows(rows, blocks, slots, n, held, ranges, reach, fronts, order);
    reports::clear_after(order, p.steps);
    let a = reports::report_counts(slots, n, fronts, counts);
    let w = report_pending(rows, slots, n, held, ranges, fronts, reach, pending);
    sorter::sorted(p, a, 0, w)
}

// The first rows, as many as are blocks, sorted against held ranges in normal form.
pub fn sort_kept(
    rows: &[Block],
    blocks: usize,
    held: &[u64],
    ranges: usize,
    order: &mut [u64],
    counts: &mut [u64],
    pending: &mut [u64],
) -> Sorting
    requires { (blocks ≤ length rows.now) × (3 * ranges ≤ length held.now) }
    ensures { (result ≡ sorting_by held.now ranges (slots_for max_reaches (take blocks rows.now) []) rows.now blocks order.old)
        × (order.new ≡ order_by held.now ranges (slots_for max_reaches (take blocks rows.now) []) rows.now blocks
        order.old)
        × (counts.new ≡ fitted (length counts.old)
        (counts_by held.now ranges (slots_for max_reaches (take blocks rows.now) []) rows.now blocks order.old))
        × (pending.new ≡ fitted (length pending.old)
        (pending_by held.now ranges (slots_for max_reaches (take blocks rows.now) []) rows.now blocks order.old)) }
{
    let mut words = [0u64; 384];
    let slots = &mut words[..];
    let noted = sorter::note_rows(rows, blocks, slots);
    sort_slots(
        rows,
        blocks,
        slots,
        noted.slots,
        held,
        ranges,
        order,
        counts,
        pending,
    )
}
