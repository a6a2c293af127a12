// What a sorter by held ids reports of a client that has blocks left: the first id that is not met, found by the numbers of the blocks that hold its ids.
#![tactic(auto)]

ghost use Rattle.std.specs.Prelude.{◌≡◌, ◌+◌, ◌*◌, ◌≤◌, length};
ghost use Rattle.std.proofs.lemmas.List.Edits.{sets};
ghost use Rattle.slots.specs.Slots.{slot_at, slots_from, Falling};
ghost use Rattle.picker.specs.Picker.{holds};
ghost use Rattle.awaited.specs.Awaited.{is_left, first_unmet, waiting_words};

use block::{Block, Id};
use picker::fronts::Front;
use picker::stages::Dependency;

// Whether a dependency is there and not met, by the counts of taken blocks.
fn is_held_up(slots: &[u64], n: usize, reach: &[u64], a: Dependency) -> bool
    requires { (3 * n ≤ length slots.now) × Falling (slots_from slots.now 0 n) }
    ensures { result ≡ holds (slots_from slots.now 0 n) reach.now a }
{
    let id = a.id;
    if !a.there {
        return false;
    }
    let p = slots::rank_of(slots, n, id.client);
    let named = slots::is_at(slots, n, p, id.client);
    !picker::is_met(reach, p, named, id)
}

// The first id of a block that is not met, b being the block by number.
pub fn first_unmet(slots: &[u64], n: usize, reach: &[u64], a: Block, b: Block) -> Id
    requires { (3 * n ≤ length slots.now) × Falling (slots_from slots.now 0 n) }
    ensures { result ≡ first_unmet (slots_from slots.now 0 n) reach.now a b }
{
    let first = picker::stages::at(28, b, 0);
    if is_held_up(slots, n, reach, first) {
        let left = picker::stages::at(28, a, 0);
        return left.id;
    }
    let second = picker::stages::at(28, b, 1);
    if is_held_up(slots, n, reach, second) {
        let right = picker::stages::at(28, a, 1);
        return right.id;
    }
    let parent = picker::stages::at(28, a, 2);
    parent.id
}

// Whether a front has a block left, in one of so many rows.
pub fn is_left(f: Front, rows: usize) -> bool
    ensures { result ≡ is_left f rows }
{
    f.left != 0 && f.next < rows
}

// What slot i waits for, from word `at` on: its client, and the id. The place after.
pub fn put_waiting(slots: &[u64], i: usize, id: Id, out: &mut [u64], at: usize) -> usize
    requires { (3 * (i + 1) ≤ length slots.now) × (at ≤ 3 * i) }
    ensures { (result ≡ at + 3) × (out.new ≡ sets out.old at (waiting_words (slot_at slots.now i) id)) }
{
    let client = slots[3 * i];
    numbers::words::put_word(out, at, client);
    numbers::words::put_word(out, at + 1, id.client);
    numbers::words::put_word(out, at + 2, u64::from(id.clock));
    at + 3
}
