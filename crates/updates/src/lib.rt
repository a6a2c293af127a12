// The public call that reads an update. It asks nothing of its caller. An answer begins with its refusal, zeros for done; a refusal has zeros for counts
// and leaves zeros in what was lent.
#![tactic(auto)]

ghost use Rattle.std.specs.Prelude.{◌≡◌};
ghost use Rattle.updates.specs.Promises.{early, refused, answer, ReadUpdate};

use block::Block;
use numbers::Refusal;

// How many blocks and how many delete ranges were read.
#[repr(C)]
#[derive(Clone, Copy)]
pub struct Update {
    pub refusal: Refusal,
    pub blocks: usize,
    pub ranges: usize,
}

// What is refused before anything is read: 12, an unknown form; 3, an update over its length. 0 is neither.
pub fn refused_early(form: u8, update: &[u8]) -> u8
    ensures { result ≡ early form update.now }
{
    if form != 1 {
        if form != 2 {
            return 12;
        }
    }
    if numbers::MAX_UPDATE < update.len() {
        return 3;
    }
    0
}

// A refusal, and counts of 0.
pub fn none(why: Refusal) -> Update
    ensures { result ≡ answer (refused why) }
{
    Update {
        refusal: why,
        blocks: 0,
        ranges: 0,
    }
}

// An update of form 1 or 2: its blocks in reading order in `rows`, its delete ranges in normal form in `ranges`, three words a range.
pub fn read_update(form: u8, update: &[u8], rows: &mut [Block], ranges: &mut [u64]) -> Update
    ensures { ReadUpdate form update.now rows.old ranges.old result rows.new ranges.new }
{
    let early = refused_early(form, update);
    if early != 0 {
        table::clear(rows, 0);
        numbers::words::clear(ranges, 0);
        return none(Refusal {
            number: early,
            place: 0,
        });
    }
    match reader::read_blocks(form, update, rows) {
        Ok((blocks, at)) => match deletes::read_delete_set(form, update, at, ranges) {
            Ok((count, _)) => Update {
                refusal: Refusal {
                    number: 0,
                    place: 0,
                },
                blocks,
                ranges: count,
            },
            Err(why) => {
                table::clear(rows, 0);
                none(why)
            }
        },
        Err(why) => {
            numbers::words::clear(ranges, 0);
            none(why)
        }
    }
}
