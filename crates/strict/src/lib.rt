// The public call that reads an update for the archive: no byte of it may stay unexplained. It asks nothing of its caller, and answers as `read_update` does.
#![tactic(auto)]

ghost use Rattle.std.specs.Prelude.{◌≡◌, ◌≢◌};
ghost use Rattle.cells.specs.Cells.{Small, Enough};
ghost use Rattle.updates.specs.Promises.{refused, Leaves};
ghost use Rattle.strict.specs.Promises.{beforehand, ReadStrictly};

use block::Block;
use numbers::Refusal;
use updates::Update;

// What is refused before anything is read: what `read_update` refuses then, and of form 2 a flag that is not 0 (14). An update of no bytes has no flag.
fn refused_beforehand(form: u8, update: &[u8]) -> u8
    ensures { result ≡ beforehand form update.now }
{
    let early = updates::refused_early(form, update);
    if early != 0 {
        return early;
    }
    if form == 1 {
        return 0;
    }
    if update.len() == 0 {
        return 0;
    }
    if update[0] != 0 {
        return 14;
    }
    0
}

// Nothing is left in what was lent.
fn refuse(rows: &mut [Block], ranges: &mut [u64], why: Refusal) -> Update
    ensures { Leaves (refused why) rows.old ranges.old result rows.new ranges.new }
{
    table::clear(rows, 0);
    numbers::words::clear(ranges, 0);
    updates::none(why)
}

// Over words that are lent: behind the last block they hold where each column stands.
fn read_over(
    form: u8,
    update: &[u8],
    w: &mut [u64],
    rows: &mut [Block],
    ranges: &mut [u64],
) -> Update
    requires { Small w.old × (form ≢ 1 → Enough update.now w.old) × (beforehand form update.now ≡ 0) }
    ensures { ReadStrictly form update.now rows.old ranges.old result rows.new ranges.new }
{
    match reader::read_blocks_over(form, update, w, rows) {
        Ok((blocks, at)) => match deletes::read_delete_set(form, update, at, ranges) {
            Ok((count, end)) => {
                let place = unread::lowest(form, update.len(), w, end);
                if place < update.len() {
                    return refuse(rows, ranges, Refusal { number: 15, place });
                }
                Update {
                    refusal: Refusal {
                        number: 0,
                        place: 0,
                    },
                    blocks,
                    ranges: count,
                }
            }
            Err(why) => {
                table::clear(rows, 0);
                updates::none(why)
            }
        },
        Err(why) => {
            numbers::words::clear(ranges, 0);
            updates::none(why)
        }
    }
}

// An update of form 1 or 2, as `read_update` reads it, if its flag is 0 (14) and no byte of it stays unread (15, at the lowest of them).
pub fn read_update_strict(form: u8, update: &[u8], rows: &mut [Block], ranges: &mut [u64]) -> Update
    ensures { ReadStrictly form update.now rows.old ranges.old result rows.new ranges.new }
{
    let early = refused_beforehand(form, update);
    if early != 0 {
        let why = Refusal {
            number: early,
            place: 0,
        };
        return refuse(rows, ranges, why);
    }
    let mut words = [0u64; 580];
    let w = &mut words[..];
    read_over(form, update, w, rows, ranges)
}
