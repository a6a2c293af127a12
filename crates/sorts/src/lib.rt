// The public call that sorts. It asks nothing of its caller. An answer begins with its refusal, zeros for done; a refusal has zeros for counts and leaves
// zeros in what was lent.
#![tactic(auto)]

ghost use Rattle.std.specs.Prelude.{◌≡◌, [], length};
ghost use Rattle.numbers.specs.Output.{padded};
ghost use Rattle.updates.specs.Promises.{refused, table_of, range_words};
ghost use Rattle.sort_answers.specs.Answers.{refused_with, answered};
ghost use Rattle.sorts.specs.Promises.{SortUpdate};

use block::Block;
use numbers::Refusal;
use sort_answers::Sorted;

// A refusal, and zeros in all that was lent.
pub fn refuse(
    rows: &mut [Block],
    ranges: &mut [u64],
    order: &mut [u64],
    counts: &mut [u64],
    reaches: &mut [u64],
    pending: &mut [u64],
    why: Refusal,
) -> Sorted
    ensures { (result ≡ answered (refused_with why)) × (rows.new ≡ table_of (length rows.old) (refused why))
        × (ranges.new ≡ range_words (length ranges.old) (refused why)) × (order.new ≡ padded (length order.old) [])
        × (counts.new ≡ padded (length counts.old) []) × (reaches.new ≡ padded (length reaches.old) [])
        × (pending.new ≡ padded (length pending.old) []) }
{
    table::clear(rows, 0);
    numbers::words::clear(ranges, 0);
    numbers::words::clear(order, 0);
    numbers::words::clear(counts, 0);
    numbers::words::clear(reaches, 0);
    numbers::words::clear(pending, 0);
    sort_answers::none(why)
}

// The blocks of an update of one form, sorted by a rule (13 or 28) against a state vector: their numbers in the order in which they are taken (a word
// each); and, highest client first, how many blocks were taken of each client that has any (two words each), how far each client reaches, the
// vector's too (two words), and what each client waits for that has blocks left: the client of the first id that is not met, and how far that reaches
// (three words). Under rule 28 a block waits for its dependencies on other clients, under rule 13 for its own client's reach to come to its clock,
// too. Both tables are filled with what was read.
pub fn sort(
    rule: u8,
    form: u8,
    update: &[u8],
    vector: &[u8],
    rows: &mut [Block],
    ranges: &mut [u64],
    order: &mut [u64],
    counts: &mut [u64],
    reaches: &mut [u64],
    pending: &mut [u64],
) -> Sorted
    ensures { SortUpdate rule form update.now vector.now rows.old ranges.old order.old
        counts.old reaches.old pending.old
        result rows.new ranges.new order.new counts.new reaches.new pending.new }
{
    if !sort_answers::is_rule(rule) {
        return refuse(
            rows,
            ranges,
            order,
            counts,
            reaches,
            pending,
            Refusal {
                number: 12,
                place: 0,
            },
        );
    }
    let read = updates::read_update(form, update, rows, ranges);
    if read.refusal.number != 0 {
        return refuse(rows, ranges, order, counts, reaches, pending, read.refusal);
    }
    let sorted = sorter::sort_read(
        rule,
        vector,
        rows,
        read.blocks,
        order,
        counts,
        reaches,
        pending,
    );
    let number = sort_answers::judge(
        sorted,
        order.len(),
        counts.len(),
        reaches.len(),
        pending.len(),
    );
    if number != 0 {
        return refuse(
            rows,
            ranges,
            order,
            counts,
            reaches,
            pending,
            Refusal { number, place: 0 },
        );
    }
    sort_answers::done(read, sorted)
}
