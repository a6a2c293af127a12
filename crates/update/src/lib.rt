// The blocks of an update, in either form, one at a time: each step reads a section's head or a block. A spot moves by value; where reading stands and the
// row that is being read lie in words that the loop lends.
#![tactic(auto)]

ghost use Rattle.std.specs.Prelude.{◌≡◌, ◌≢◌, ◌≤◌, length};
ghost use Rattle.cells.specs.Cells.{Small, Enough};
ghost use Rattle.update.specs.Steps.{Fine, Stepped, Counted, Starts};

use cells::{AT, PLACE};
use numbers::Refusal;

// What is still to come: sections, and blocks of this section; how many blocks may still be announced; how many clients were seen; the client
// of this section and the clock of its next block.
#[derive(Clone, Copy)]
pub struct Spot {
    pub sections: u64,
    pub blocks: u64,
    pub room: u64,
    pub seen: usize,
    pub client: u64,
    pub clock: u64,
}

// A step: the row's words hold a block to keep, whose info byte stands at the place; a section's head, or an item of length 0, which is dropped; the end of
// all blocks, with the place after it.
#[derive(Clone, Copy)]
pub enum Step {
    Block(usize, Spot),
    On(Spot),
    Done(usize),
}

// A section's head: block count, client, first clock. The client is remembered.
fn read_section(
    form: u8,
    update: &[u8],
    w: &mut [u64],
    r: &mut [u64],
    memory: &mut [u64],
    s: Spot,
) -> Result<Step, Refusal>
    requires { Small w.old × Fine memory.old s × (1 ≤ s.sections) × (s.blocks ≡ 0) }
    ensures { Stepped form update.now memory.old w.old r.old s
        memory.new w.new r.new result }
{
    let Some(count) = fields::read_var(update, w, s.room) else {
        return Err(cells::why(w));
    };
    let Some(client) = fields::read_client(form, update, w) else {
        return Err(cells::why(w));
    };
    let place = w[PLACE] as usize;
    let seen = s.seen;
    if numbers::words::is_among(memory, seen, client) {
        return Err(Refusal { number: 4, place });
    }
    let Some(clock) = fields::read_var(update, w, numbers::MAX_CLOCK) else {
        return Err(cells::why(w));
    };
    memory[seen] = client;
    let head = Spot {
        sections: s.sections - 1,
        blocks: count,
        room: s.room - count,
        seen: seen + 1,
        client,
        clock,
    };
    Ok(Step::On(head))
}

fn read_block(
    form: u8,
    update: &[u8],
    w: &mut [u64],
    r: &mut [u64],
    memory: &mut [u64],
    s: Spot,
) -> Result<Step, Refusal>
    requires { Small w.old × (length r.old ≡ 24) × Fine memory.old s × (1 ≤ s.blocks) }
    ensures { Stepped form update.now memory.old w.old r.old s
        memory.new w.new r.new result }
{
    let Some(at) = item::read_block(form, update, w, r, s.client, s.clock) else {
        return Err(cells::why(w));
    };
    let place = at as usize;
    let len = item::length_in(r);
    if numbers::MAX_CLOCK < len {
        return Err(Refusal { number: 3, place });
    }
    let end = s.clock + len;
    if numbers::MAX_CLOCK < end {
        return Err(Refusal { number: 3, place });
    }
    let mut t = s;
    t.blocks = s.blocks - 1;
    t.clock = end;
    if item::is_dropped(r) {
        return Ok(Step::On(t));
    }
    Ok(Step::Block(place, t))
}

// The next step; `memory` holds the clients seen.
pub fn next(
    form: u8,
    update: &[u8],
    w: &mut [u64],
    r: &mut [u64],
    memory: &mut [u64],
    s: Spot,
) -> Result<Step, Refusal>
    requires { Small w.old × (length r.old ≡ 24) × Fine memory.old s }
    ensures { Stepped form update.now memory.old w.old r.old s
        memory.new w.new r.new result }
{
    if s.blocks == 0 {
        if s.sections == 0 {
            let at = w[AT] as usize;
            return Ok(Step::Done(at));
        }
        return read_section(form, update, w, r, memory, s);
    }
    read_block(form, update, w, r, memory, s)
}

// The section count, where the blocks begin.
fn read_count(form: u8, update: &[u8], w: &mut [u64]) -> Result<Spot, Refusal>
    requires { Small w.old }
    ensures { Counted form update.now w.old w.new result }
{
    let Some(sections) = fields::read_var(update, w, numbers::MAX_CLIENTS) else {
        return Err(cells::why(w));
    };
    let first = Spot {
        sections,
        blocks: 0,
        room: numbers::MAX_BLOCKS,
        seen: 0,
        client: 0,
        clock: 0,
    };
    Ok(first)
}

// Before the first section: the form opened, the section count read.
pub fn begin(form: u8, update: &[u8], w: &mut [u64]) -> Result<Spot, Refusal>
    requires { Small w.old × (form ≢ 1 → Enough update.now w.old) }
    ensures { Starts form update.now w.new result }
{
    if form == 1 {
        w[AT] = 0;
        return read_count(form, update, w);
    }
    let Some(_) = opening::open(update, w) else {
        return Err(cells::why(w));
    };
    read_count(form, update, w)
}
