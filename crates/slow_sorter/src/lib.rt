// The slow plain sorter over the block table: the rows of an update noted in slots, the vector's clients too, then the sweeps and the reports.
#![tactic(auto)]

ghost use Rattle.std.specs.Prelude.{◌≡◌, ◌*◌, ◌≤◌, length, take};
ghost use Rattle.kept.specs.Plan.{entries_of};
ghost use Rattle.slots.specs.Slots.{slots_from, Falling};
ghost use Rattle.vector.specs.Vector.{vector_of};
ghost use Rattle.sorter.specs.Sorter.{slots_for, max_reaches};
ghost use Rattle.slow_sorter.specs.Slowly.{sorting_by, swept_on, swept_read, Leaves};

use block::Block;
use sorter::Sorting;

// How many steps were made, and how many words each report needs.
pub fn sorted(steps: usize, counts: usize, reaches: usize, pending: usize) -> Sorting
    ensures { result ≡ sorting_by steps counts reaches pending }
{
    Sorting {
        number: 0,
        steps,
        counts,
        reaches,
        pending,
    }
}

// The rows, swept against m entries, in n slots. Reaches and counts of blocks taken are words of up to 128 clients (`max_reaches`). Rows are seen as they are:
// of no words 0 ranges are held.
fn sweep_slots(
    rule: u8,
    rows: &[Block],
    slots: &[u64],
    n: usize,
    clients: &[u64],
    clocks: &[u64],
    m: usize,
    order: &mut [u64],
    counts: &mut [u64],
    reaches: &mut [u64],
    pending: &mut [u64],
) -> Sorting
    requires { (3 * n ≤ length slots.now) × Falling (slots_from slots.now 0 n) × (n ≤ max_reaches) }
    ensures { Leaves (swept_on rule (slots_from slots.now 0 n) rows.now (entries_of m clients.now clocks.now)
        order.old counts.old reaches.old pending.old)
        result order.new counts.new reaches.new pending.new }
{
    let mut reached = [0u64; 128];
    let reach = &mut reached[..];
    let mut done = [0u64; 128];
    let taken = &mut done[..];
    picker::fronts::fill_reaches(slots, n, clients, clocks, m, reach);
    let steps = sweeper::sweep_all(rule, false, rows, slots, n, clocks, 0, reach, taken, order);
    reports::clear_after(order, steps);
    let a = sweep_reports::report_counts(slots, n, taken, counts);
    let r = reports::report_reaches(slots, n, reach, reaches);
    let w = sweep_reports::report_pending(rule, rows, slots, n, reach, taken, pending);
    sorted(steps, a, r, w)
}

// The rows, swept against m entries; the first of them, as many as are blocks, have slots.
fn sweep_kept(
    rule: u8,
    rows: &[Block],
    blocks: usize,
    clients: &[u64],
    clocks: &[u64],
    m: usize,
    order: &mut [u64],
    counts: &mut [u64],
    reaches: &mut [u64],
    pending: &mut [u64],
) -> Sorting
    requires { (blocks ≤ length rows.now) × (m ≤ length clients.now) }
    ensures { Leaves (swept_on rule (slots_for max_reaches (take blocks rows.now) (take m clients.now)) rows.now
        (entries_of m clients.now clocks.now) order.old counts.old reaches.old pending.old)
        result order.new counts.new reaches.new pending.new }
{
    let mut words = [0u64; 384];
    let slots = &mut words[..];
    let n = sorter::open_slots(rows, blocks, clients, m, slots);
    sweep_slots(
        rule, rows, slots, n, clients, clocks, m, order, counts, reaches, pending,
    )
}

// The same against a vector; where that is refused nothing is written.
pub fn sweep_read(
    rule: u8,
    vector: &[u8],
    rows: &[Block],
    blocks: usize,
    order: &mut [u64],
    counts: &mut [u64],
    reaches: &mut [u64],
    pending: &mut [u64],
) -> Sorting
    requires { blocks ≤ length rows.now }
    ensures { Leaves (swept_read rule (vector_of vector.now) rows.now blocks order.old counts.old
        reaches.old pending.old)
        result order.new counts.new reaches.new pending.new }
{
    let mut first = [0u64; 64];
    let clients = &mut first[..];
    let mut second = [0u64; 64];
    let clocks = &mut second[..];
    match vector::read_entries(vector, clients, clocks) {
        Ok(m) => sweep_kept(
            rule, rows, blocks, clients, clocks, m, order, counts, reaches, pending,
        ),
        Err(why) => sorter::refused(why.number),
    }
}
