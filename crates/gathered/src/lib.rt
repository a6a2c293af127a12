// The rows of an update, gathered while it is read, with no table: a row for each client with kept blocks, highest client first, four words a row. A
// section has a row, and a word in the order of clients; the same order tells whether a client was seen.
#![tactic(auto)]

ghost use Rattle.std.specs.Prelude.{◌≡◌, ◌≢◌, [], ◌≤◌, ◌<◌, length, take};
ghost use Rattle.numbers.specs.Limits.{max_clock, max_clients, max_blocks};
ghost use Rattle.cells.specs.Cells.{Small, Enough};
ghost use Rattle.grammar.specs.Course.{things};
ghost use Rattle.tally.specs.Tally.{Descends, clients_in};
ghost use Rattle.gathered.specs.RowsOf.{first_clock, told_of};
ghost use Rattle.gathered.specs.Gathered.{Ends, sections_from, blocks_from, Begins, Headed, Tallies, Scans, Tells};

use cells::{AT, PLACE};
use numbers::Refusal;
use summary::WORDS;
use update::{Spot, Step};

// Where a block's row of words has its clock and its length.
const CLOCK: usize = 1;

const LENGTH: usize = 2;

// The section count: the form opened, if it has columns.
fn begin(form: u8, update: &[u8], w: &mut [u64]) -> Option<u64>
    requires { Small w.old × (form ≢ 1 → Enough update.now w.old) }
    ensures { Small w.new × Begins form update.now w.new result }
{
    if form == 1 {
        w[AT] = 0;
        return fields::read_var(update, w, numbers::MAX_CLIENTS);
    }
    opening::open(update, w)?;
    fields::read_var(update, w, numbers::MAX_CLIENTS)
}

// A section's head: how many blocks, whose, and from which clock on. As `update` reads it, but a client seen before is found in the order of clients,
// where this one is put.
fn read_head(
    form: u8,
    update: &[u8],
    w: &mut [u64],
    order: &mut [u64],
    seen: usize,
    room: u64,
) -> Result<(u64, u64, u64), Refusal>
    requires { Small w.old × (seen < length order.old) × (seen < 64) × Descends (clients_in (take seen order.old)) }
    ensures { Small w.new × (length order.new ≡ length order.old)
        × Headed form update.now w.old order.old seen room w.new order.new result }
{
    let Some(count) = fields::read_var(update, w, room) else {
        return Err(cells::why(w));
    };
    let Some(client) = fields::read_client(form, update, w) else {
        return Err(cells::why(w));
    };
    let place = w[PLACE] as usize;
    let new = tally::insert(order, seen, client);
    if !new {
        return Err(Refusal { number: 4, place });
    }
    let Some(clock) = fields::read_var(update, w, numbers::MAX_CLOCK) else {
        return Err(cells::why(w));
    };
    Ok((count, client, clock))
}

// The first clock, with one block more.
fn earliest(count: u64, first: u64, clock: u64) -> u64
    ensures { (count ≡ 0 → result ≡ clock) × (0 < count → result ≡ first) }
{
    if count == 0 {
        return clock;
    }
    first
}

// So many blocks of a client, from a clock on: the first's clock, the last's end, how many are kept. These are the steps of `update` through a section
// behind which there is none, so no client need be remembered there.
fn tally_blocks(
    form: u8,
    update: &[u8],
    w: &mut [u64],
    r: &mut [u64],
    blocks: u64,
    client: u64,
    clock: u64,
) -> Result<(u64, u64, u64), Refusal>
    requires { Small w.old × (length r.old ≡ 24) × (blocks ≤ max_blocks) × (clock ≤ max_clock)
        × Ends (things (blocks_from form update.now blocks client clock w.old)) }
    ensures { Small w.new × (length r.new ≡ 24)
        × Tallies (blocks_from form update.now blocks client clock w.old) w.new result }
{
    let mut memory = [0u64; 1];
    let mut s = Spot {
        sections: 0,
        blocks,
        room: 0,
        seen: 0,
        client,
        clock,
    };
    let mut first: u64 = 0;
    let mut end: u64 = 0;
    let mut count: u64 = 0;
    while 0 < s.blocks {
        match update::next(form, update, w, r, &mut memory, s)? {
            Step::Block(_, t) => {
                s = t;
                let start = r[CLOCK];
                first = earliest(count, first, start);
                end = start + r[LENGTH];
                count += 1;
            }
            Step::On(t) => s = t,
            Step::Done(at) => {
                w[AT] = at as u64;
                return Ok((first, end, count));
            }
        }
    }
    Ok((first, end, count))
}

// Reads all blocks: a row a section, in the order of sections, and a word a section, in the order of clients; how many sections there are, and the
// place after all blocks.
fn scan(
    form: u8,
    update: &[u8],
    w: &mut [u64],
    sections: u64,
    rows: &mut [u64],
    order: &mut [u64],
) -> Result<(usize, usize), Refusal>
    requires { Small w.old × (sections ≤ max_clients) × (length rows.old ≡ 256) × (length order.old ≡ 64)
        × Ends (things (sections_from form update.now sections [] max_blocks w.old)) }
    ensures { Scans (sections_from form update.now sections [] max_blocks w.old) rows.new order.new result }
{
    let mut fields = [0u64; 24];
    let mut room = numbers::MAX_BLOCKS;
    let n = sections as usize;
    for seen in 0..n {
        let (blocks, client, clock) = read_head(form, update, w, order, seen, room)?;
        let (first, end, count) = tally_blocks(
            form,
            update,
            w,
            &mut fields,
            blocks,
            client,
            clock,
        )?;
        summary::put_words(rows, WORDS * seen, client, first, end, count);
        room -= blocks;
    }
    let at = w[AT] as usize;
    Ok((n, at))
}

// The rows of an update, once it has been read to its end: how many there are.
pub fn gather(form: u8, update: &[u8], rows: &mut [u64]) -> Result<usize, Refusal>
    requires { length rows.old ≡ 256 }
    ensures { Tells (told_of form update.now) rows.new result }
{
    let mut words = [0u64; 580];
    let Some(sections) = begin(form, update, &mut words) else {
        return Err(cells::why(&words));
    };
    let mut table = [0u64; 256];
    let mut order = [0u64; 64];
    let (n, at) = scan(form, update, &mut words, sections, &mut table, &mut order)?;
    deletes::check_delete_set(form, update, at)?;
    Ok(tally::ordered(&table, &order, n, rows))
}
