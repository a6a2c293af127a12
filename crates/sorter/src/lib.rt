// The sorter: the rows of an update noted in slots, the vector's clients too, then one front looked at after another by a rule, and the reports.
#![tactic(auto)]

ghost use Rattle.std.specs.Prelude.{◌≡◌, [], ◌*◌, ◌/◌, ◌≤◌, length, take};
ghost use Rattle.kept.specs.Plan.{entries_of};
ghost use Rattle.slots.specs.Slots.{slots_from, noted_all, stored, Falling};
ghost use Rattle.picker.specs.Picker.{all_picked};
ghost use Rattle.reports.specs.Reports.{fitted};
ghost use Rattle.vector.specs.Vector.{vector_of};
ghost use Rattle.sorter.specs.Sorter.{noted_by, slots_for, max_reaches, sorting_of, sorting_on, order_on, counts_on, reaches_on, pending_on, no_sorting};
ghost use Rattle.sorter.specs.Sorter.{sorting_read, order_read, counts_read, reaches_read, pending_read};

use block::Block;
use picker::Look;
use slots::Noted;

// How many steps were made, and how many words each report needs; or the number of a refusal.
#[derive(Clone, Copy)]
pub struct Sorting {
    pub number: u8,
    pub steps: usize,
    pub counts: usize,
    pub reaches: usize,
    pub pending: usize,
}

// The first rows, as many as are blocks, noted in slots. How many slots these are.
pub fn note_rows(rows: &[Block], blocks: usize, slots: &mut [u64]) -> Noted
    requires { blocks ≤ length rows.now }
    ensures { (result ≡ noted_by (length slots.old / 3) (take blocks rows.now))
        × (slots.new ≡ stored slots.old (noted_all (length slots.old / 3) 0 (take blocks rows.now) [])) }
{
    let mut s = slots::begin();
    for i in 0..blocks {
        let b = table::fetch(rows, i);
        s = slots::note(slots, s, i, b);
    }
    s
}

// Fronts looked at until none can be taken.
fn pick_rows(
    rule: u8,
    rows: &[Block],
    blocks: usize,
    slots: &[u64],
    n: usize,
    reach: &mut [u64],
    fronts: &mut [u64],
    order: &mut [u64],
) -> Look
    requires { (3 * n ≤ length slots.now) × Falling (slots_from slots.now 0 n) }
    ensures { (result ≡ (all_picked rule (slots_from slots.now 0 n) rows.now blocks reach.old fronts.old
        order.old).at)
        × (reach.new ≡ (all_picked rule (slots_from slots.now 0 n) rows.now blocks reach.old
        fronts.old order.old).reach)
        × (fronts.new ≡ (all_picked rule (slots_from slots.now 0 n) rows.now blocks reach.old
        fronts.old order.old).fronts)
        × (order.new ≡ (all_picked rule (slots_from slots.now 0 n) rows.now blocks reach.old
        fronts.old order.old).order) }
{
    let mut p = picker::begin(rule, fronts, reach, n, blocks);
    // Kept, point 3 (no plainer): p.row is where the front stands that is looked at next, in any order, and counts nothing.
    while p.row < rows.len() {
        let b = table::fetch(rows, p.row);
        p = picker::offer(rule, slots, n, p, reach, fronts, order, b);
    }
    p
}

#[tactic(auto, unfolding(crate::specs::Sorter::sorting_of))]
pub fn sorted(p: Look, counts: usize, reaches: usize, pending: usize) -> Sorting
    ensures { result ≡ sorting_of p counts reaches pending }
{
    Sorting {
        number: 0,
        steps: p.steps,
        counts,
        reaches,
        pending,
    }
}

pub fn refused(number: u8) -> Sorting
    ensures { result ≡ no_sorting number }
{
    Sorting {
        number,
        steps: 0,
        counts: 0,
        reaches: 0,
        pending: 0,
    }
}

// Slots for the clients of the first rows, as many as are blocks, and for the first m of these clients. How many slots these are.
pub fn open_slots(
    rows: &[Block],
    blocks: usize,
    clients: &[u64],
    m: usize,
    slots: &mut [u64],
) -> usize
    requires { (blocks ≤ length rows.now) × (m ≤ length clients.now) }
    ensures { (result ≡ length (slots_for (length slots.old / 3) (take blocks rows.now) (take m clients.now)))
        × (slots.new ≡ stored slots.old
        (slots_for (length slots.old / 3) (take blocks rows.now) (take m clients.now))) }
{
    let noted = note_rows(rows, blocks, slots);
    slots::name_all(slots, noted.slots, clients, m)
}

// The first rows, as many as are blocks, sorted against m entries, in n slots. The reaches are clocks of up to 128 clients (`max_reaches`), with six words
// (`front_words`) for each one's front.
fn sort_slots(
    rule: u8,
    rows: &[Block],
    blocks: usize,
    slots: &[u64],
    n: usize,
    clients: &[u64],
    clocks: &[u64],
    m: usize,
    order: &mut [u64],
    counts: &mut [u64],
    reaches: &mut [u64],
    pending: &mut [u64],
) -> Sorting
    requires { (3 * n ≤ length slots.now) × Falling (slots_from slots.now 0 n) }
    ensures { (result ≡ sorting_on rule (slots_from slots.now 0 n) rows.now blocks
        (entries_of m clients.now clocks.now) order.old)
        × (order.new ≡ order_on rule (slots_from slots.now 0 n) rows.now blocks
        (entries_of m clients.now clocks.now) order.old)
        × (counts.new ≡ fitted (length counts.old)
        (counts_on rule (slots_from slots.now 0 n) rows.now blocks (entries_of m clients.now clocks.now)
        order.old))
        × (reaches.new ≡ fitted (length reaches.old)
        (reaches_on rule (slots_from slots.now 0 n) rows.now blocks (entries_of m clients.now clocks.now)
        order.old))
        × (pending.new ≡ fitted (length pending.old)
        (pending_on rule (slots_from slots.now 0 n) rows.now blocks (entries_of m clients.now clocks.now)
        order.old)) }
{
    let mut reached = [0u64; 128];
    let reach = &mut reached[..];
    let mut words = [0u64; 768];
    let fronts = &mut words[..];
    picker::fronts::fill_reaches(slots, n, clients, clocks, m, reach);
    picker::fronts::open(slots, n, fronts);
    let p = pick_rows(rule, rows, blocks, slots, n, reach, fronts, order);
    reports::clear_after(order, p.steps);
    let a = reports::report_counts(slots, n, fronts, counts);
    let r = reports::report_reaches(slots, n, reach, reaches);
    let w = reports::report_pending(slots, n, fronts, reach, pending);
    sorted(p, a, r, w)
}

// The first rows, as many as are blocks, sorted against m entries.
fn sort_kept(
    rule: u8,
    rows: &[Block],
    blocks: usize,
    clients: &[u64],
    clocks: &[u64],
    m: usize,
    order: &mut [u64],
    counts: &mut [u64],
    reaches: &mut [u64],
    pending: &mut [u64],
) -> Sorting
    requires { (blocks ≤ length rows.now) × (m ≤ length clients.now) }
    ensures { (result ≡ sorting_on rule (slots_for max_reaches (take blocks rows.now) (take m clients.now))
        rows.now blocks (entries_of m clients.now clocks.now) order.old)
        × (order.new ≡ order_on rule (slots_for max_reaches (take blocks rows.now) (take m clients.now))
        rows.now blocks (entries_of m clients.now clocks.now) order.old)
        × (counts.new ≡ fitted (length counts.old)
        (counts_on rule (slots_for max_reaches (take blocks rows.now) (take m clients.now)) rows.now blocks
        (entries_of m clients.now clocks.now) order.old))
        × (reaches.new ≡ fitted (length reaches.old)
        (reaches_on rule (slots_for max_reaches (take blocks rows.now) (take m clients.now)) rows.now blocks
        (entries_of m clients.now clocks.now) order.old))
        × (pending.new ≡ fitted (length pending.old)
        (pending_on rule (slots_for max_reaches (take blocks rows.now) (take m clients.now)) rows.now blocks
        (entries_of m clients.now clocks.now) order.old)) }
{
    let mut words = [0u64; 384];
    let slots = &mut words[..];
    let n = open_slots(rows, blocks, clients, m, slots);
    sort_slots(
        rule, rows, blocks, slots, n, clients, clocks, m, order, counts, reaches, pending,
    )
}

// The same against a vector; where that is refused nothing is written.
pub fn sort_read(
    rule: u8,
    vector: &[u8],
    rows: &[Block],
    blocks: usize,
    order: &mut [u64],
    counts: &mut [u64],
    reaches: &mut [u64],
    pending: &mut [u64],
) -> Sorting
    requires { blocks ≤ length rows.now }
    ensures { (result ≡ sorting_read rule (vector_of vector.now) rows.now blocks order.old)
        × (order.new ≡ order_read rule (vector_of vector.now) rows.now blocks order.old)
        × (counts.new ≡ counts_read rule (vector_of vector.now) rows.now blocks order.old counts.old)
        × (reaches.new ≡ reaches_read rule (vector_of vector.now) rows.now blocks order.old reaches.old)
        × (pending.new ≡ pending_read rule (vector_of vector.now) rows.now blocks order.old pending.old) }
{
    let mut first = [0u64; 64];
    let clients = &mut first[..];
    let mut second = [0u64; 64];
    let clocks = &mut second[..];
    match vector::read_entries(vector, clients, clocks) {
        Ok(m) => sort_kept(
            rule, rows, blocks, clients, clocks, m, order, counts, reaches, pending,
        ),
        Err(why) => refused(why.number),
    }
}
