// The public calls that write updates. None asks anything of its caller. An answer begins with its refusal, zeros for done; a refusal has zeros for
// counts and leaves zeros in what was lent.
#![tactic(auto)]

ghost use Rattle.std.specs.Prelude.{◌≡◌, [], length};
ghost use Rattle.numbers.specs.Output.{padded};
ghost use Rattle.updates.specs.Promises.{known, refused, table_of, range_words};
ghost use Rattle.diffs.specs.Promises.{refused_with, answered, Diffs, empty_vector};

use block::Block;
use numbers::Refusal;

// How many bytes were written, and how many blocks and delete ranges were read.
#[repr(C)]
#[derive(Clone, Copy)]
pub struct Diff {
    pub refusal: Refusal,
    pub bytes: usize,
    pub blocks: usize,
    pub ranges: usize,
}

#[tactic(auto, unfolding(updates::specs::Promises::known))]
fn is_known(form: u8) -> bool
    ensures { result ≡ known form }
{
    form == 1 || form == 2
}

// A refusal, and counts of 0.
#[tactic(auto, unfolding(crate::specs::Promises::answered))]
fn none(why: Refusal) -> Diff
    ensures { result ≡ answered (refused_with why) }
{
    Diff {
        refusal: why,
        bytes: 0,
        blocks: 0,
        ranges: 0,
    }
}

// A refusal, and zeros in all that was lent.
fn refuse(rows: &mut [Block], ranges: &mut [u64], out: &mut [u8], why: Refusal) -> Diff
    ensures { (result ≡ answered (refused_with why)) × (rows.new ≡ table_of (length rows.old) (refused why))
        × (ranges.new ≡ range_words (length ranges.old) (refused why)) × (out.new ≡ padded (length out.old) []) }
{
    table::clear(rows, 0);
    numbers::words::clear(ranges, 0);
    numbers::clear(out, 0);
    none(why)
}

// An update of one form, less what a state vector says that the other side has, written in the form `to`; both tables are filled with what was read.
pub fn encode_diff(
    form: u8,
    update: &[u8],
    vector: &[u8],
    to: u8,
    rows: &mut [Block],
    ranges: &mut [u64],
    out: &mut [u8],
) -> Diff
    ensures { Diffs form update.now vector.now to rows.old ranges.old out.old
        result rows.new ranges.new out.new }
{
    if !is_known(to) {
        return refuse(
            rows,
            ranges,
            out,
            Refusal {
                number: 12,
                place: 0,
            },
        );
    }
    let read = updates::read_update(form, update, rows, ranges);
    if read.refusal.number != 0 {
        return refuse(rows, ranges, out, read.refusal);
    }
    let written = writing::encode_read(
        update,
        vector,
        form,
        to,
        rows,
        read.blocks,
        ranges,
        read.ranges,
        out,
    );
    if written.number != 0 {
        return refuse(
            rows,
            ranges,
            out,
            Refusal {
                number: written.number,
                place: 0,
            },
        );
    }
    Diff {
        refusal: Refusal {
            number: 0,
            place: 0,
        },
        bytes: written.bytes,
        blocks: read.blocks,
        ranges: read.ranges,
    }
}

// A whole update written in the form `to`: the diff against a vector that names no client.
pub fn encode_update(
    form: u8,
    update: &[u8],
    to: u8,
    rows: &mut [Block],
    ranges: &mut [u64],
    out: &mut [u8],
) -> Diff
    ensures { Diffs form update.now empty_vector to rows.old ranges.old out.old
        result rows.new ranges.new out.new }
{
    let mut zeros = [0u8; 16];
    let vector = &mut zeros[..];
    encode_diff(form, update, vector, to, rows, ranges, out)
}
