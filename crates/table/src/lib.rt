// The block table: the few functions that touch its rows. All else sees one row by value.
#![tactic(auto)]

ghost use Rattle.std.specs.Prelude.{◌≡◌, ◌<◌, length, get_or, set};
ghost use Rattle.block.specs.Row.{no_block};
ghost use Rattle.table.specs.Rows.{cleared_from};

use block::Block;

// Row i.
pub fn fetch(rows: &[Block], i: usize) -> Block
    requires { i < length rows.now }
    ensures { result ≡ get_or rows.now i no_block }
{
    rows[i]
}

// Row i is b.
pub fn fill(rows: &mut [Block], i: usize, b: Block)
    requires { i < length rows.old }
    ensures { rows.new ≡ set rows.old i b }
{
    rows[i] = b;
}

// The rows from `from` on have no block from now on. No byte of a row is padding, so this is compiled to one memset.
// Kept, point 3 (docs/BENCHMARK.md, "by one `memset`"): std's fill is compiled to a memset of all rows but the last, and then the last.
pub fn clear(rows: &mut [Block], from: usize)
    ensures { rows.new ≡ cleared_from from rows.old }
{
    let none = block::none();
    for i in from..rows.len() {
        fill(rows, i, none);
    }
}
