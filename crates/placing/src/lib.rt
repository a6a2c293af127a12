// What a sorter by held ids finds by halving, and makes of it: whether ranges hold an id; which rows a client has, and which of two halves is left of
// them; and a block that hangs on the numbers of other blocks in place of ids.
#![tactic(auto)]

ghost use Rattle.std.specs.Prelude.{◌≡◌, ◌+◌, ◌-◌, ◌*◌, ◌≤◌, ◌<◌, length};
ghost use Rattle.numbers.specs.Limits.{max_clock};
ghost use Rattle.ranges.specs.TableInner.{row};
ghost use Rattle.slots.specs.Slots.{slot_at, slots_from, Falling};
ghost use Rattle.placing.specs.Halving.{middle, narrowed, clipped, found};
ghost use Rattle.placing.specs.Placing.{is_before, begins, is_held, is_asked, span_at, span_of, first_of, past_row, capped, number_at, numbered_block, on_number};

use block::{Block, Id};
use picker::stages::Dependency;
use text::{Bytes, Part, Units};

// ---- halving

// The rows from lo on, up to hi.
#[derive(Clone, Copy)]
pub struct Span {
    pub lo: usize,
    pub hi: usize,
}

pub fn middle(s: Span) -> usize
    requires { s.lo < s.hi }
    ensures { result ≡ middle s.lo s.hi }
{
    s.lo + (s.hi - s.lo) / 2
}

// What is left where row `mid` is past what is sought, and where it is not.
fn narrow(s: Span, mid: usize, past: bool) -> Span
    requires { mid < s.hi }
    ensures { result ≡ narrowed s mid past }
{
    if past {
        Span { lo: mid + 1, ..s }
    } else {
        Span { hi: mid, ..s }
    }
}

// No more rows than there are.
pub fn clip(s: Span, rows: usize) -> Span
    ensures { result ≡ clipped s rows }
{
    Span {
        hi: s.hi.min(rows),
        ..s
    }
}

// ---- ranges in normal form, three words each

// Whether range i lies wholly before an id: of a higher client, or ending at or below its clock.
fn is_before(words: &[u64], i: usize, id: Id) -> bool
    requires { 3 * (i + 1) ≤ length words.now }
    ensures { result ≡ is_before (row words.now i) id }
{
    let at = 3 * i;
    let client = words[at];
    let clock = words[at + 1];
    let len = words[at + 2];
    let k = u64::from(id.clock);
    if id.client != client {
        return id.client < client;
    }
    clock <= k && len <= k - clock
}

// The first of n ranges that does not lie before an id.
fn seek_range(words: &[u64], n: usize, id: Id) -> usize
    requires { 3 * n ≤ length words.now }
    ensures { result ≡ found (λ i. is_before (row words.now i) id) 0 n }
{
    let mut s = Span { lo: 0, hi: n };
    // Kept, point 3 (needed): it halves, and the contract says what that finds in ranges of any order, of which partition_point says nothing.
    while s.lo < s.hi {
        let mid = middle(s);
        let past = is_before(words, mid, id);
        s = narrow(s, mid, past);
    }
    s.lo
}

// Whether range i, if it is one of n, begins at or below an id, of its client.
fn is_begun(words: &[u64], n: usize, i: usize, id: Id) -> bool
    requires { 3 * n ≤ length words.now }
    ensures { result ≡ begins words.now n i id }
{
    if n <= i {
        return false;
    }
    words[3 * i] == id.client && words[3 * i + 1] <= u64::from(id.clock)
}

// Whether n ranges hold an id.
pub fn is_held(words: &[u64], n: usize, id: Id) -> bool
    requires { 3 * n ≤ length words.now }
    ensures { result ≡ is_held words.now n id }
{
    let i = seek_range(words, n, id);
    is_begun(words, n, i, id)
}

// ---- rows of a client

// The rows of slot p.
pub fn span_at(slots: &[u64], p: usize) -> Span
    requires { 3 * (p + 1) ≤ length slots.now }
    ensures { result ≡ span_at (slot_at slots.now p) }
{
    let first = slots[3 * p + 1] as usize;
    let count = slots[3 * p + 2] as usize;
    if numbers::MAX_CLOCK < first as u64 {
        return Span { lo: 0, hi: 0 };
    }
    if numbers::MAX_CLOCK < count as u64 {
        return Span { lo: 0, hi: 0 };
    }
    Span {
        lo: first,
        hi: first + count,
    }
}

// The rows of a client, none if it has no slot.
pub fn span_of(slots: &[u64], n: usize, client: u64) -> Span
    requires { (3 * n ≤ length slots.now) × Falling (slots_from slots.now 0 n) }
    ensures { result ≡ span_of (slots_from slots.now 0 n) client }
{
    let p = slots::rank_of(slots, n, client);
    let named = slots::is_at(slots, n, p, client);
    if named {
        return span_at(slots, p);
    }
    Span { lo: 0, hi: 0 }
}

// Whether a block ends at or below a clock.
fn is_past(b: Block, clock: u32) -> bool
    ensures { result ≡ past_row b clock }
{
    let from = b.clock;
    let length = b.length;
    from <= clock && length.0 <= u64::from(clock - from)
}

// What is left of a client's rows where the middle one has this block.
pub fn narrow_rows(s: Span, mid: usize, b: Block, clock: u32) -> Span
    requires { mid < s.hi }
    ensures { result ≡ narrowed s mid (past_row b clock) }
{
    let past = is_past(b, clock);
    narrow(s, mid, past)
}

// A number as a clock; none is higher than a clock can be.
pub fn cap(n: usize) -> u32
    ensures { result ≡ capped n }
{
    (n as u64).min(numbers::MAX_CLOCK) as u32
}

// The number of the block in row i among those of its client, if it holds the clock, above which it ends.
pub fn number_of(s: Span, i: usize, b: Block, clock: u32) -> u32
    ensures { result ≡ number_at s i b clock }
{
    let kind = b.kind;
    let from = b.clock;
    if s.hi <= i {
        return 2147483647;
    }
    if kind == block::SKIP {
        return 2147483647;
    }
    if clock < from {
        return 2147483647;
    }
    cap(i.saturating_sub(s.lo))
}

// ---- a dependency on the number of its holder

// The number of an id that no row holds.
pub fn never() -> u32
    ensures { result ≡ max_clock }
{
    2147483647
}

// Whether a dependency is there and n ranges do not hold its id.
pub fn is_asked(words: &[u64], n: usize, a: Dependency) -> bool
    requires { 3 * n ≤ length words.now }
    ensures { result ≡ is_asked words.now n a }
{
    a.there && !is_held(words, n, a.id)
}

// The rows of its client.
pub fn span_for(slots: &[u64], n: usize, a: Dependency) -> Span
    requires { (3 * n ≤ length slots.now) × Falling (slots_from slots.now 0 n) }
    ensures { result ≡ span_of (slots_from slots.now 0 n) a.id.client }
{
    span_of(slots, n, a.id.client)
}

pub fn clock_of(a: Dependency) -> u32
    ensures { result ≡ a.id.clock }
{
    a.id.clock
}

// The same client's block of this number.
pub fn on_number(a: Dependency, number: u32) -> Dependency
    ensures { result ≡ on_number a.id.client number }
{
    let id = Id {
        client: a.id.client,
        clock: number,
    };
    Dependency { there: true, id }
}

// ---- a block by number

// The row of a client's first block. Slot `near` may be the client's.
fn first_of(slots: &[u64], n: usize, near: usize, client: u64) -> usize
    requires { (3 * n ≤ length slots.now) × Falling (slots_from slots.now 0 n) }
    ensures { result ≡ first_of (slots_from slots.now 0 n) client }
{
    let p = slots::rank_near(slots, n, near, client);
    if n <= p {
        return 0;
    }
    slots[3 * p + 1] as usize
}

// The block of row i by number, with these dependencies.
pub fn numbered(
    slots: &[u64],
    n: usize,
    near: usize,
    i: usize,
    b: Block,
    left: Dependency,
    right: Dependency,
    parent: Dependency,
) -> Block
    requires { (3 * n ≤ length slots.now) × Falling (slots_from slots.now 0 n) }
    ensures { result ≡ numbered_block (slots_from slots.now 0 n) i b left right parent }
{
    let first = first_of(slots, n, near, b.client);
    let clock = cap(i.saturating_sub(first));
    let part = Part {
        place: 0,
        bytes: Bytes(0),
    };
    Block {
        client: b.client,
        left_client: left.id.client,
        right_client: right.id.client,
        parent_client: parent.id.client,
        length: Units(1),
        name: part,
        key: part,
        part,
        mark: part,
        clock,
        left_clock: left.id.clock,
        right_clock: right.id.clock,
        parent_clock: parent.id.clock,
        kind: block::GC,
        has_left: left.there,
        has_right: right.there,
        has_parent: parent.there,
        has_name: false,
        has_key: false,
        type_number: 0,
    }
}
