// Where the stored part of a block lies in its update: the whole update is read, with no table.
#![tactic(auto)]

ghost use Rattle.std.specs.Prelude.{◌≡◌, replicate};
ghost use Rattle.cells.specs.Cells.{Small};
ghost use Rattle.update.specs.Steps.{comes, Fine};
ghost use Rattle.content.specs.Content.{is_given, stored, content_at};
ghost use Rattle.content.specs.ContentInner.{scanned_of};

use block::Block;
use numbers::Refusal;
use text::Part;
use update::{Spot, Step};

// Reads all blocks, and keeps block n: its row, or the row that has none; and the place after all blocks.
pub fn scan(
    form: u8,
    update: &[u8],
    w: &mut [u64],
    s: Spot,
    n: usize,
) -> Result<(Block, usize), Refusal>
    requires { Small w.old × Fine (replicate 64 0) s }
    ensures { result ≡ scanned_of n (comes form update.now (replicate 64 0) w.old s) }
{
    let mut fields = [0u64; 24];
    let mut memory = [0u64; 64];
    let mut s = s;
    let mut ahead = n;
    let mut found = false;
    let mut row = block::none();
    loop {
        match update::next(form, update, w, &mut fields, &mut memory, s)? {
            Step::Block(_, t) => {
                s = t;
                if !found {
                    if ahead == 0 {
                        found = true;
                        row = item::row_in(&fields);
                    } else {
                        ahead -= 1;
                    }
                }
            }
            Step::On(t) => s = t,
            Step::Done(at) => return Ok((row, at)),
        }
    }
}

fn is_given(kind: u8) -> bool
    ensures { result ≡ is_given kind }
{
    match kind {
        block::BINARY => true,
        block::TEXT => true,
        _ => false,
    }
}

// The stored part of a binary or a text; 11 for all others.
fn stored_part(b: Block) -> Result<Part, Refusal>
    ensures { result ≡ stored b }
{
    if is_given(b.kind) {
        let part = b.part;
        return Ok(part);
    }
    Err(Refusal {
        number: 11,
        place: 0,
    })
}

// Block n's stored part, once the update has been read to its end.
pub fn find(form: u8, update: &[u8], n: usize) -> Result<Part, Refusal>
    ensures { result ≡ content_at form update.now n }
{
    let mut words = [0u64; 580];
    let s = update::begin(form, update, &mut words)?;
    let (row, at) = scan(form, update, &mut words, s, n)?;
    deletes::check_delete_set(form, update, at)?;
    stored_part(row)
}
