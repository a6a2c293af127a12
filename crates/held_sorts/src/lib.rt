// The public call that sorts by held ids. It asks nothing of its caller. An answer begins with its refusal, zeros for done; a refusal has zeros for counts and
// leaves zeros in what was lent.
#![tactic(auto)]

ghost use Rattle.std.specs.Prelude.{◌≡◌, [], length};
ghost use Rattle.numbers.specs.Output.{padded};
ghost use Rattle.updates.specs.Promises.{refused, table_of, range_words};
ghost use Rattle.held_answers.specs.Answers.{refused_with, answered};
ghost use Rattle.held_sorts.specs.Promises.{SortUpdateHeld};

use block::Block;
use held_answers::SortedHeld;
use numbers::Refusal;

// A refusal, and zeros in all that was lent.
pub fn refuse(
    rows: &mut [Block],
    ranges: &mut [u64],
    given: &mut [u64],
    order: &mut [u64],
    counts: &mut [u64],
    pending: &mut [u64],
    why: Refusal,
) -> SortedHeld
    ensures { (result ≡ answered (refused_with why)) × (rows.new ≡ table_of (length rows.old) (refused why))
        × (ranges.new ≡ range_words (length ranges.old) (refused why))
        × (given.new ≡ padded (length given.old) []) × (order.new ≡ padded (length order.old) [])
        × (counts.new ≡ padded (length counts.old) []) × (pending.new ≡ padded (length pending.old) []) }
{
    table::clear(rows, 0);
    numbers::words::clear(ranges, 0);
    numbers::words::clear(given, 0);
    numbers::words::clear(order, 0);
    numbers::words::clear(counts, 0);
    numbers::words::clear(pending, 0);
    held_answers::none(why)
}

// The blocks of an update of one form, sorted by held ids, which are laid out as a form 1 delete set: their numbers in the order in which they are taken
// (a word each); and, highest client first, how many blocks were taken of each client that has any (two words each), and what each client waits for that
// has blocks left: the first id that is not held, its client and its clock (three words). A block waits for its dependencies on other clients until each
// is held: by what was given, or by a taken block that is no Skip. All three tables are filled with what was read; the held ranges are in normal form.
pub fn sort_held(
    form: u8,
    update: &[u8],
    held: &[u8],
    rows: &mut [Block],
    ranges: &mut [u64],
    given: &mut [u64],
    order: &mut [u64],
    counts: &mut [u64],
    pending: &mut [u64],
) -> SortedHeld
    ensures { SortUpdateHeld form update.now held.now rows.old ranges.old given.old
        order.old counts.old pending.old result rows.new ranges.new given.new
        order.new counts.new pending.new }
{
    let read = updates::read_update(form, update, rows, ranges);
    if read.refusal.number != 0 {
        return refuse(rows, ranges, given, order, counts, pending, read.refusal);
    }
    let ids = held_answers::read_held(held, given);
    if ids.refused {
        return refuse(
            rows,
            ranges,
            given,
            order,
            counts,
            pending,
            Refusal {
                number: ids.number,
                place: 0,
            },
        );
    }
    let sorted = held_sorter::sort_kept(
        rows,
        read.blocks,
        given,
        ids.ranges,
        order,
        counts,
        pending,
    );
    let number = sort_answers::judge(sorted, order.len(), counts.len(), 0, pending.len());
    if number != 0 {
        return refuse(
            rows,
            ranges,
            given,
            order,
            counts,
            pending,
            Refusal { number, place: 0 },
        );
    }
    held_answers::done(read, ids.ranges, sorted)
}
