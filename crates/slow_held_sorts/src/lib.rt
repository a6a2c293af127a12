// The public call that sorts by held ids slowly (W-211). It asks nothing of its caller. An answer begins with its refusal, zeros for done; a refusal has zeros
// for counts and leaves zeros in what was lent.
#![tactic(auto)]

ghost use Rattle.slow_held_sorts.specs.Promises.{SortHeldSlowly};

use block::Block;
use held_answers::SortedHeld;
use numbers::Refusal;

// What `sort_held` answers, found by a sorter that can be checked by reading it (`sweeper`): it sweeps over all clients, lowest first, takes each one's fronts
// while they are ready, and sweeps again until a sweep takes nothing. Tables, reports and refusals are those of `sort_held`; only the order differs.
pub fn sort_held_slowly(
    form: u8,
    update: &[u8],
    held: &[u8],
    rows: &mut [Block],
    ranges: &mut [u64],
    given: &mut [u64],
    order: &mut [u64],
    counts: &mut [u64],
    pending: &mut [u64],
) -> SortedHeld
    ensures { SortHeldSlowly form update.now held.now rows.old ranges.old given.old
        order.old counts.old pending.old result rows.new ranges.new given.new
        order.new counts.new pending.new }
{
    let read = updates::read_update(form, update, rows, ranges);
    if read.refusal.number != 0 {
        return held_sorts::refuse(rows, ranges, given, order, counts, pending, read.refusal);
    }
    let ids = held_answers::read_held(held, given);
    if ids.refused {
        return held_sorts::refuse(
            rows,
            ranges,
            given,
            order,
            counts,
            pending,
            Refusal {
                number: ids.number,
                place: 0,
            },
        );
    }
    let sorted = slow_held_sorter::sweep_kept(
        rows,
        read.blocks,
        given,
        ids.ranges,
        order,
        counts,
        pending,
    );
    let number = sort_answers::judge(sorted, order.len(), counts.len(), 0, pending.len());
    if number != 0 {
        return held_sorts::refuse(
            rows,
            ranges,
            given,
            order,
            counts,
            pending,
            Refusal { number, place: 0 },
        );
    }
    held_answers::done(read, ids.ranges, sorted)
}
