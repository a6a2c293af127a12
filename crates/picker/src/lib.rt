// A sorter looks at one front after another: it takes the front's block, or finds what the front waits for. What a block waits for is a rule's (stages).
#![tactic(auto)]

pub mod fronts;
pub mod rule13;
pub mod rule28;
pub mod stages;

ghost use Rattle.std.specs.Prelude.{◌≡◌, ◌*◌, ◌≤◌, ltb, length};
ghost use Rattle.numbers.specs.Number.{pick};
ghost use Rattle.slots.specs.Slots.{slots_from, Falling};
ghost use Rattle.picker.specs.Picker.{met_at, awaiting_at, considered, ready, looked};
ghost use Rattle.picker.specs.Picker.{moved, lift, one_more, pointed, looks, desk, offered};

use block::{Block, Id};
use fronts::Front;
use stages::Dependency;

// The front that is looked at: its slot and its row, or NOWHERE; how many steps were made; how many looks are left.
#[derive(Clone, Copy)]
pub struct Look {
    pub slot: usize,
    pub row: usize,
    pub steps: usize,
    pub left: usize,
}

pub const NOWHERE: usize = 18446744073709551615;

// ---- what a front waits for

// A front that waits for an id, whose client has slot p, if it is named.
fn wait_for(f: Front, stage: usize, p: usize, named: bool, id: Id) -> Front
    ensures { result ≡ awaiting_at f stage p named id }
{
    let (slot, need) = if named {
        (p, u64::from(id.clock) + 1)
    } else {
        (0, fronts::NEVER)
    };
    Front {
        slot,
        need,
        stage,
        missing: id.client,
        ..f
    }
}

// Whether an id is met where its client has slot p, if it is named.
pub fn is_met(reach: &[u64], p: usize, named: bool, id: Id) -> bool
    ensures { result ≡ met_at reach.now p named id }
{
    named && p < reach.len() && u64::from(id.clock) < reach[p]
}

// The front of a block that nothing holds.
fn set_ready(f: Front) -> Front
    ensures { result ≡ ready f }
{
    Front { need: 0, ..f }
}

// A front, so many stages having been looked at, this one last, unless they were before: it is ready, or it waits. Slot `near` may be the id's client's.
fn consider(
    slots: &[u64],
    n: usize,
    reach: &[u64],
    f: Front,
    near: usize,
    k: usize,
    a: Dependency,
) -> Front
    requires { (3 * n ≤ length slots.now) × Falling (slots_from slots.now 0 n) }
    ensures { result ≡ pick (ltb f.stage k) (considered (slots_from slots.now 0 n) reach.now f k a) (ready f) }
{
    let id = a.id;
    if !a.there {
        return set_ready(f);
    }
    if k <= f.stage {
        return set_ready(f);
    }
    let p = slots::rank_near(slots, n, near, id.client);
    let named = slots::is_at(slots, n, p, id.client);
    if is_met(reach, p, named, id) {
        return set_ready(f);
    }
    wait_for(f, k, p, named, id)
}

// A front whose block is looked at: it is ready (its need is 0), or it waits. What was met once is not asked for again. The front has slot `own`. The stages
// are written out, the last of any rule last: in a loop over them the block is copied at each turn.
fn examine(
    rule: u8,
    slots: &[u64],
    n: usize,
    reach: &[u64],
    f: Front,
    own: usize,
    b: Block,
) -> Front
    requires { (3 * n ≤ length slots.now) × Falling (slots_from slots.now 0 n) }
    ensures { result ≡ looked rule (slots_from slots.now 0 n) reach.now f b }
{
    let first = stages::at(rule, b, 0);
    let left = consider(slots, n, reach, f, own, 1, first);
    if left.need != 0 {
        return left;
    }
    let second = stages::at(rule, b, 1);
    let right = consider(slots, n, reach, f, own, 2, second);
    if right.need != 0 {
        return right;
    }
    let third = stages::at(rule, b, 2);
    let parent = consider(slots, n, reach, f, own, 3, third);
    if parent.need != 0 {
        return parent;
    }
    let fourth = stages::at(rule, b, 3);
    consider(slots, n, reach, f, own, 4, fourth)
}

// ---- a block that is taken

// Places and counts stay below the brim.
pub fn one_more(n: usize) -> usize
    ensures { result ≡ one_more n }
{
    if n < parts::BRIM {
        return n + 1;
    }
    n
}

// The front after row i was taken.
fn move_on(f: Front, i: usize) -> Front
    ensures { result ≡ moved f i }
{
    let next = one_more(i);
    if f.left <= 1 {
        return Front {
            next,
            ..fronts::none()
        };
    }
    fronts::begin(next, f.left - 1)
}

// The reach of slot p rises to the block's end. A Skip lifts nothing.
pub fn raise(reach: &mut [u64], p: usize, b: Block)
    ensures { reach.new ≡ lift reach.old p b }
{
    let kind = b.kind;
    let length = b.length;
    if kind == block::SKIP {
        return;
    }
    if numbers::MAX_CLOCK < length.0 {
        return;
    }
    if reach.len() <= p {
        return;
    }
    let end = u64::from(b.clock) + length.0;
    reach[p] = reach[p].max(end);
}

// ---- one look after another

// The front that is looked at next, if a look is left.
fn point(fronts: &[u64], reach: &[u64], n: usize, steps: usize, left: usize) -> Look
    ensures { result ≡ pointed fronts.now reach.now n steps left }
{
    let nowhere = Look {
        slot: 0,
        row: NOWHERE,
        steps,
        left,
    };
    if left == 0 {
        return nowhere;
    }
    let slot = fronts::first_due(fronts, reach, n);
    if n <= slot {
        return nowhere;
    }
    let f = fronts::front_at(fronts, slot);
    Look {
        slot,
        row: f.next,
        steps,
        left,
    }
}

// The first front that is looked at. A block is looked at once for each stage at most, and once to be taken.
pub fn begin(rule: u8, fronts: &[u64], reach: &[u64], n: usize, blocks: usize) -> Look
    ensures { result ≡ pointed fronts.now reach.now n 0 (looks rule blocks) }
{
    if numbers::MAX_BLOCKS < blocks as u64 {
        return point(fronts, reach, n, 0, 0);
    }
    let each = stages::count(rule) + 1;
    let left = each * blocks;
    point(fronts, reach, n, 0, left)
}

// The front has this block: it waits, or the block is taken. Then the next front.
pub fn offer(
    rule: u8,
    slots: &[u64],
    n: usize,
    p: Look,
    reach: &mut [u64],
    fronts: &mut [u64],
    order: &mut [u64],
    b: Block,
) -> Look
    requires { (3 * n ≤ length slots.now) × Falling (slots_from slots.now 0 n) }
    ensures { (result ≡ (offered rule (slots_from slots.now 0 n) (desk p reach.old fronts.old order.old) b).at)
        × (reach.new ≡ (offered rule (slots_from slots.now 0 n)
        (desk p reach.old fronts.old order.old) b).reach)
        × (fronts.new ≡ (offered rule (slots_from slots.now 0 n)
        (desk p reach.old fronts.old order.old) b).fronts)
        × (order.new ≡ (offered rule (slots_from slots.now 0 n)
        (desk p reach.old fronts.old order.old) b).order) }
{
    let f = fronts::front_at(fronts, p.slot);
    let left = p.left.saturating_sub(1);
    let g = examine(rule, slots, n, reach, f, p.slot, b);
    if g.need != 0 {
        fronts::put_front(fronts, p.slot, g);
        return point(fronts, reach, n, p.steps, left);
    }
    let m = move_on(f, p.row);
    raise(reach, p.slot, b);
    fronts::put_front(fronts, p.slot, m);
    numbers::words::put_word(order, p.steps, p.row as u64);
    let steps = one_more(p.steps);
    point(fronts, reach, n, steps, left)
}
