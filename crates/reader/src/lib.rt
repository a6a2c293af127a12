// The blocks of an update, read into lent rows.
#![tactic(auto)]

ghost use Rattle.std.specs.Prelude.{◌≡◌, ◌≢◌, length, replicate};
ghost use Rattle.cells.specs.Cells.{Small, Enough};
ghost use Rattle.grammar.specs.Course.{fit};
ghost use Rattle.decoder.specs.Update.{in_columns, blocks_of};
ghost use Rattle.update.specs.Steps.{reads, comes, Fine};
ghost use Rattle.reader.specs.Reader.{filled_of, rows_of, Stands, keyless};

use block::Block;
use numbers::Refusal;
use update::{Spot, Step};

// From the first section on, where the words stand; they stand behind the last block then. How many rows hold a block, and the place after the blocks;
// or why there are none.
fn read_sections(
    form: u8,
    update: &[u8],
    w: &mut [u64],
    rows: &mut [Block],
    first: Spot,
) -> Result<(usize, usize), Refusal>
    requires { Small w.old × Fine (replicate 64 0) first }
    ensures { (result ≡ filled_of (length rows.old) (comes form update.now (replicate 64 0) w.old first))
        × (rows.new ≡ rows_of (length rows.old) (comes form update.now (replicate 64 0) w.old first))
        × Stands (fit (length rows.old) (reads form update.now (replicate 64 0) w.old first)) w.new
        × Small w.new }
{
    let mut fields = [0u64; 24];
    let r = &mut fields[..];
    let mut memory = [0u64; 64];
    let seen = &mut memory[..];
    let mut s = first;
    let mut n = 0;
    loop {
        match update::next(form, update, w, r, seen, s) {
            Ok(Step::Block(place, t)) => {
                if rows.len() <= n {
                    table::clear(rows, 0);
                    return Err(Refusal { number: 8, place });
                }
                let b = item::row_in(r);
                table::fill(rows, n, b);
                n += 1;
                s = t;
            }
            Ok(Step::On(t)) => s = t,
            Ok(Step::Done(at)) => {
                table::clear(rows, n);
                return Ok((n, at));
            }
            Err(why) => {
                table::clear(rows, 0);
                return Err(why);
            }
        }
    }
}

// The blocks of an update in the first rows; the others have none. After a refusal no row has one. Of form 2 the words hold the columns as they are behind
// the last block. How many rows hold a block, and the place after the blocks.
pub fn read_blocks_over(
    form: u8,
    update: &[u8],
    w: &mut [u64],
    rows: &mut [Block],
) -> Result<(usize, usize), Refusal>
    requires { Small w.old × (form ≢ 1 → Enough update.now w.old) }
    ensures { (result ≡ filled_of (length rows.old) (blocks_of form update.now))
        × (rows.new ≡ rows_of (length rows.old) (blocks_of form update.now))
        × (form ≢ 1 → Stands (fit (length rows.old) (in_columns update.now)) w.new) × Small w.new }
{
    match update::begin(form, update, w) {
        Ok(first) => read_sections(form, update, w, rows, first),
        Err(why) => {
            table::clear(rows, 0);
            Err(why)
        }
    }
}

// The same, over words of its own. Those for keys are 512, and setting them to zero takes 20 to 30 ns of the 144 of a message of one block.
pub fn read_blocks(form: u8, update: &[u8], rows: &mut [Block]) -> Result<(usize, usize), Refusal>
    ensures { (result ≡ filled_of (length rows.old) (blocks_of form update.now))
        × (rows.new ≡ rows_of (length rows.old) (blocks_of form update.now)) }
{
    if is_keyless(form, update) {
        let mut few = [0u64; 68];
        let v = &mut few[..];
        return read_blocks_over(form, update, v, rows);
    }
    let mut words = [0u64; 580];
    let w = &mut words[..];
    read_blocks_over(form, update, w, rows)
}

// Whether no key of an update can be read by its number, so that there need be no words for keys: in form 1, and where form 2's key column is empty.
fn is_keyless(form: u8, update: &[u8]) -> bool
    ensures { result ≡ keyless form update.now }
{
    if form == 1 {
        return true;
    }
    if update.len() < 2 {
        return true;
    }
    update[1] == 0
}
