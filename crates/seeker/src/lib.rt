// What a sorter by held ids looks up in the block table: the row that holds an id, found by halving, and a row by number.
#![tactic(auto)]

ghost use Rattle.std.specs.Prelude.{◌≡◌, ◌*◌, ◌≤◌, ◌<◌, length, get_or};
ghost use Rattle.block.specs.Row.{no_block};
ghost use Rattle.slots.specs.Slots.{slots_from, Falling};
ghost use Rattle.placing.specs.Placing.{sought, held_by, placed_dep, row_by};

use block::Block;
use picker::stages::Dependency;
use placing::Span;

// The first row of a span that does not end at or below a clock.
fn seek(rows: &[Block], s: Span, clock: u32) -> usize
    ensures { result ≡ sought rows.now s clock }
{
    let mut t = placing::clip(s, rows.len());
    // Kept, point 3 (needed): it halves, and the contract says what that finds in rows of any order, of which partition_point says nothing.
    while t.lo < t.hi {
        let mid = placing::middle(t);
        let b = table::fetch(rows, mid);
        t = placing::narrow_rows(t, mid, b, clock);
    }
    t.lo
}

// The number of the row that holds a clock, among those of a span.
pub fn number(rows: &[Block], s: Span, clock: u32) -> u32
    ensures { result ≡ held_by rows.now s clock }
{
    let i = seek(rows, s, clock);
    if i < rows.len() {
        let b = table::fetch(rows, i);
        return placing::number_of(s, i, b, clock);
    }
    placing::never()
}

// What an id is looked up in: the rows, the slots, and the ranges held at first.
#[derive(Clone, Copy)]
struct Lookup<'a> {
    rows: &'a [Block],
    slots: &'a [u64],
    n: usize,
    held: &'a [u64],
    ranges: usize,
}

// A dependency on the number of its holder; none where its id is held at first.
fn place(l: &Lookup, a: Dependency) -> Dependency
    requires { (3 * l.now.n ≤ length l.now.slots.now) × Falling (slots_from l.now.slots.now 0 l.now.n) × (3 * l.now.ranges ≤ length l.now.held.now) }
    ensures { result ≡ placed_dep l.now.held.now l.now.ranges (slots_from l.now.slots.now 0 l.now.n) l.now.rows.now a }
{
    let asked = placing::is_asked(l.held, l.ranges, a);
    if asked {
        let s = placing::span_for(l.slots, l.n, a);
        let clock = placing::clock_of(a);
        let k = number(l.rows, s, clock);
        return placing::on_number(a, k);
    }
    picker::stages::none()
}

// Row i by number. Slot `near` may be its client's.
pub fn number_row(
    rows: &[Block],
    slots: &[u64],
    n: usize,
    held: &[u64],
    ranges: usize,
    near: usize,
    i: usize,
) -> Block
    requires { (i < length rows.now) × (3 * n ≤ length slots.now) × Falling (slots_from slots.now 0 n) × (3 * ranges ≤ length held.now) }
    ensures { result
        ≡ row_by held.now ranges (slots_from slots.now 0 n) rows.now i (get_or rows.now i no_block) }
{
    let l = Lookup {
        rows,
        slots,
        n,
        held,
        ranges,
    };
    let b = table::fetch(rows, i);
    let first = picker::stages::at(28, b, 0);
    let left = place(&l, first);
    let second = picker::stages::at(28, b, 1);
    let right = place(&l, second);
    let third = picker::stages::at(28, b, 2);
    let parent = place(&l, third);
    placing::numbered(slots, n, near, i, b, left, right, parent)
}
