// The public call that sorts slowly (W-211). It asks nothing of its caller. An answer begins with its refusal, zeros for done; a refusal has zeros for counts
// and leaves zeros in what was lent.
#![tactic(auto)]

ghost use Rattle.slow_sorts.specs.Promises.{SortSlowly};

use block::Block;
use numbers::Refusal;
use sort_answers::Sorted;

// What `sort` answers, found by a sorter that can be checked by reading it (`sweeper`): it sweeps over all clients, lowest first, takes each one's fronts while
// they are ready, and sweeps again until a sweep takes nothing. Tables, reports and refusals are those of `sort`; only the order differs.
pub fn sort_slowly(
    rule: u8,
    form: u8,
    update: &[u8],
    vector: &[u8],
    rows: &mut [Block],
    ranges: &mut [u64],
    order: &mut [u64],
    counts: &mut [u64],
    reaches: &mut [u64],
    pending: &mut [u64],
) -> Sorted
    ensures { SortSlowly rule form update.now vector.now rows.old ranges.old order.old
        counts.old reaches.old pending.old
        result rows.new ranges.new order.new counts.new reaches.new pending.new }
{
    if !sort_answers::is_rule(rule) {
        return sorts::refuse(
            rows,
            ranges,
            order,
            counts,
            reaches,
            pending,
            Refusal {
                number: 12,
                place: 0,
            },
        );
    }
    let read = updates::read_update(form, update, rows, ranges);
    if read.refusal.number != 0 {
        return sorts::refuse(rows, ranges, order, counts, reaches, pending, read.refusal);
    }
    let sorted = slow_sorter::sweep_read(
        rule,
        vector,
        rows,
        read.blocks,
        order,
        counts,
        reaches,
        pending,
    );
    let number = sort_answers::judge(
        sorted,
        order.len(),
        counts.len(),
        reaches.len(),
        pending.len(),
    );
    if number != 0 {
        return sorts::refuse(
            rows,
            ranges,
            order,
            counts,
            reaches,
            pending,
            Refusal { number, place: 0 },
        );
    }
    sort_answers::done(read, sorted)
}
