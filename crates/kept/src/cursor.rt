// Going through the rows of the block table by a plan, and what stands between two ends of a row.
ghost use Rattle.std.specs.Prelude.{◌≡◌, true, ◌||◌, ◌+◌, ◌≤◌, ◌<◌};
ghost use Rattle.block.specs.Row.{no_id};
ghost use Rattle.block.specs.Kinds.{is_text, is_any};
ghost use Rattle.kept.specs.Plan.{opened_at, advanced, at_end, units_lie, bytes_lie, sane, part_at, cut_at, rest_of};
ghost use Rattle.kept.specs.Cut.{left_of, front, behind};
ghost use Rattle.numbers.specs.Limits.{max_clock};

use block::{Block, Id};
use text::{Bytes, Part, Units};

// A row to be written, or NOWHERE: how many units and bytes of it fall away; how many pieces its section has, if it is the first of them, else 0;
// how many rows of the section are left behind it; and the section after it.
#[derive(Clone, Copy)]
pub struct Cursor {
    pub row: usize,
    pub from: Units,
    pub skip: Bytes,
    pub head: usize,
    pub left: usize,
    pub next: usize,
}

pub const NOWHERE: usize = 18446744073709551615;

fn ended() -> Cursor
    ensures { result ≡ at_end }
{
    Cursor {
        row: NOWHERE,
        from: Units(0),
        skip: Bytes(0),
        head: 0,
        left: 0,
        next: 0,
    }
}

// The first row of section k of n.
#[tactic(auto, unfolding(crate::specs::Plan::opened_at, crate::specs::Plan::planned))]
pub fn open(plan: &[u64], n: usize, k: usize) -> Cursor
    ensures { result ≡ opened_at plan.now n k }
{
    if n <= k {
        return ended();
    }
    if plan.len() / 5 <= k {
        return ended();
    }
    let at = 5 * k;
    let row = plan[at + 1] as usize;
    let head = plan[at + 2] as usize;
    let from = plan[at + 3];
    let skip = plan[at + 4] as usize;
    Cursor {
        row,
        from: Units(from),
        skip: Bytes(skip),
        head,
        left: head.saturating_sub(1),
        next: k + 1,
    }
}

// The row after.
#[tactic(auto, unfolding(crate::specs::Plan::advanced))]
pub fn advance(plan: &[u64], n: usize, c: Cursor) -> Cursor
    ensures { result ≡ advanced plan.now n c }
{
    if c.row == NOWHERE {
        return ended();
    }
    if c.left == 0 {
        return open(plan, n, c.next);
    }
    let mut next = c;
    next.row = c.row + 1;
    next.from = Units(0);
    next.skip = Bytes(0);
    next.head = 0;
    next.left = c.left - 1;
    next
}

// Where a piece begins and ends in its row, in units; how many bytes of the row's text or list stand before it, and how many it has.
#[derive(Clone, Copy)]
pub struct Ends {
    pub from: Units,
    pub to: Units,
    pub skip: Bytes,
    pub keep: Bytes,
}

// All that is left of a row where its first units fall away, which take so many bytes.
pub fn rest(b: Block, from: Units, skip: Bytes) -> Ends
    ensures { result ≡ rest_of b from.0 skip.0 }
{
    Ends {
        from,
        to: b.length,
        skip,
        keep: Bytes(b.part.bytes.0.saturating_sub(skip.0)),
    }
}

#[tactic(auto, unfolding(crate::specs::Plan::units_lie))]
fn units_lie(b: Block, from: Units, to: Units) -> bool
    ensures { result ≡ units_lie b from.0 to.0 }
{
    let length = b.length;
    if to.0 < from.0 {
        return false;
    }
    if length.0 < to.0 {
        return false;
    }
    if numbers::MAX_CLOCK < length.0 {
        return false;
    }
    let end = b.clock as u64 + length.0;
    end <= numbers::MAX_CLOCK
}

fn bytes_lie(part: Part, skip: Bytes, keep: Bytes) -> bool
    ensures { result ≡ bytes_lie part skip.0 keep.0 }
{
    let bytes = part.bytes;
    if bytes.0 < skip.0 {
        return false;
    }
    let behind = bytes.0 - skip.0;
    if behind < keep.0 {
        return false;
    }
    if parts::BRIM <= part.place {
        return false;
    }
    let room = parts::BRIM - part.place;
    bytes.0 < room
}

// Whether both ends lie in the row, and the row within the limits: they always do.
#[tactic(auto, unfolding(crate::specs::Plan::sane))]
pub fn is_sane(b: Block, e: Ends) -> bool
    ensures { result ≡ sane b e }
{
    if !units_lie(b, e.from, e.to) {
        return false;
    }
    bytes_lie(b.part, e.skip, e.keep)
}

fn no_id() -> Id
    ensures { result ≡ no_id }
{
    Id {
        client: 0,
        clock: 0,
    }
}

// The id before a unit of a row; only items have ids.
fn left_of(b: Block, from: Units) -> Id
    requires { (b.clock + from.0 ≤ max_clock) × (0 < from.0) }
    ensures { result ≡ left_of b from.0 }
{
    if !block::is_item(b.kind) {
        return no_id();
    }
    let start = b.clock as u64 + from.0;
    let clock = (start - 1) as u32;
    Id {
        client: b.client,
        clock,
    }
}

// Whether a part of this kind is cut with its row: a text by its units, a list by its entries.
fn is_cut(kind: u8) -> bool
    ensures { result ≡ (is_text kind || is_any kind) }
{
    matches!(kind, block::TEXT | block::ANY)
}

fn part_at(b: Block, e: Ends) -> Part
    requires { sane b e ≡ true }
    ensures { result ≡ part_at b e }
{
    let part = b.part;
    let skip = e.skip;
    if is_cut(b.kind) {
        let place = part.place + skip.0;
        let bytes = e.keep;
        return Part { place, bytes };
    }
    part
}

fn cut_front(b: Block, e: Ends) -> Block
    requires { sane b e ≡ true }
    ensures { result ≡ front e.to.0 (part_at b e) b }
{
    let to = e.to;
    let part = part_at(b, e);
    let mut piece = b;
    piece.length = to;
    piece.part = part;
    piece
}

fn cut_behind(b: Block, e: Ends) -> Block
    requires { (sane b e ≡ true) × (0 < e.from.0) }
    ensures { result ≡ behind e.from.0 e.to.0 (part_at b e) b }
{
    let from = e.from;
    let to = e.to;
    let nothing = Part {
        place: 0,
        bytes: Bytes(0),
    };
    let left = left_of(b, from);
    let part = part_at(b, e);
    let is_item = block::is_item(b.kind);
    let start = b.clock as u64 + from.0;
    let clock = start as u32;
    let rest = to.0 - from.0;
    let units = Units(rest);
    let mut piece = b;
    piece.clock = clock;
    piece.length = units;
    piece.has_left = is_item;
    piece.left_client = left.client;
    piece.left_clock = left.clock;
    piece.has_parent = false;
    piece.parent_client = 0;
    piece.parent_clock = 0;
    piece.has_name = false;
    piece.name = nothing;
    piece.part = part;
    piece
}

// What stands between both ends of a row.
#[tactic(auto, unfolding(crate::specs::Plan::cut_at, crate::specs::Cut::is_whole))]
pub fn cut(b: Block, e: Ends) -> Block
    requires { sane b e ≡ true }
    ensures { result ≡ cut_at b e }
{
    let from = e.from;
    let to = e.to;
    let length = b.length;
    if from.0 != 0 {
        return cut_behind(b, e);
    }
    if to.0 != length.0 {
        return cut_front(b, e);
    }
    b
}
