// The fields of an update over the words in which reading stands: in line in form 1, from the columns in any other. Each gives back what it read, or says in
// the words why not.
#![tactic(auto)]

ghost use Rattle.std.specs.Prelude.{◌≡◌, ◌+◌, ◌≤◌, ◌<◌, length};
ghost use Rattle.grammar.specs.Grammar as grammar;
ghost use Rattle.decoder.specs.Line.{up_to, byte_at, bytes_at, checked};
ghost use Rattle.decoder.specs.Columned.{onto};
ghost use Rattle.decoder.specs.ColumnedInner.{fields};
ghost use Rattle.cells.specs.Cells as cells;
ghost use Rattle.cells.specs.Cells.{NumberDrawn, at_in, state_in, Small, Beside, given};
ghost use Rattle.fields.specs.Fields.{clock_at, Narrow, part_given, text_given, Given, PartGiven, TextGiven, Rising, TextDrawn};

use cells::{AT, PLACE};
use numbers::Read;
use text::Taken;

// ---- in line

// A number up to a limit.
pub fn read_var(update: &[u8], w: &mut [u64], most: u64) -> Option<u64>
    requires { Small w.old }
    ensures { Given w.old w.new result (onto (state_in w.old) (up_to most update.now (at_in w.old))) }
{
    let at = w[AT] as usize;
    let n = numbers::read_unsigned(update, at);
    let Read::Number(v, e) = n else {
        let why = numbers::why_read(n);
        return cells::refuse(w, why.number, why.place);
    };
    if most < v {
        return cells::refuse(w, 3, at);
    }
    w[AT] = e as u64;
    w[PLACE] = at as u64;
    Some(v)
}

fn read_u8(update: &[u8], w: &mut [u64]) -> Option<u64>
    requires { Small w.old }
    ensures { Given w.old w.new result (onto (state_in w.old) (byte_at update.now (at_in w.old))) }
{
    let at = w[AT] as usize;
    if update.len() <= at {
        return cells::refuse(w, 1, update.len());
    }
    let v = update[at] as u64;
    let next = at + 1;
    w[AT] = next as u64;
    w[PLACE] = at as u64;
    Some(v)
}

// A length and so many bytes: their place and how many they are go to words k and k + 1 of the row.
pub fn read_buf(update: &[u8], w: &mut [u64], r: &mut [u64], k: usize) -> Option<()>
    requires { Small w.old × (k + 1 < length r.old) }
    ensures { PartGiven update.now k w.old w.new r.old r.new result }
{
    let at = w[AT] as usize;
    let n = numbers::read_unsigned(update, at);
    let Read::Number(size, from) = n else {
        let why = numbers::why_read(n);
        cells::refuse(w, why.number, why.place);
        return None;
    };
    let left = (update.len() - from) as u64;
    if left < size {
        cells::refuse(w, 1, update.len());
        return None;
    }
    let end = from + size as usize;
    r[k] = from as u64;
    r[k + 1] = size;
    w[AT] = end as u64;
    Some(())
}

// So many bytes that are a text: its units are given back.
fn read_string(update: &[u8], w: &mut [u64], r: &mut [u64], k: usize) -> Option<u64>
    requires { Small w.old × (k + 1 < length r.old) }
    ensures { TextGiven k w.old w.new r.old r.new result
        (onto (state_in w.old) (checked update.now (bytes_at update.now (at_in w.old)))) }
{
    read_buf(update, w, r, k)?;
    let from = r[k] as usize;
    let end = from + r[k + 1] as usize;
    let c = text::count_units(update, from, end);
    if !c.whole {
        return cells::refuse(w, 6, from);
    }
    let units = c.units;
    Some(units.0)
}

// ---- as the form has it

pub fn read_client(form: u8, update: &[u8], w: &mut [u64]) -> Option<u64>
    requires { Small w.old }
    ensures { Given w.old w.new result (fields form update.now (grammar.number grammar.client) (state_in w.old)) }
{
    if form == 1 {
        return read_var(update, w, numbers::MAX_VALUE);
    }
    cells::draw_number(update, w, 1)
}

// The next value of difference column k; in form 1 a clock in line. Called from two places, clocks of ids and numbers of keys, so that it stays a function of
// its own and what reads an id becomes part of its caller: measured, a tenth of reading.
pub fn read_difference(form: u8, update: &[u8], w: &mut [u64], k: usize) -> Option<u64>
    requires { Small w.old × cells.Narrow k }
    ensures { Rising form update.now k w.old w.new result }
{
    if form == 1 {
        return read_var(update, w, numbers::MAX_CLOCK);
    }
    cells::draw_difference(update, w, k)
}

// The clock of an id: of a left id (2) or of a right one (3).
pub fn read_clock(form: u8, update: &[u8], w: &mut [u64], k: usize) -> Option<u64>
    requires { Small w.old × Narrow k }
    ensures { Given w.old w.new result (fields form update.now (grammar.number (clock_at k)) (state_in w.old)) }
{
    read_difference(form, update, w, k)
}

pub fn read_info(form: u8, update: &[u8], w: &mut [u64]) -> Option<u64>
    requires { Small w.old }
    ensures { Given w.old w.new result (fields form update.now (grammar.number grammar.info) (state_in w.old)) }
{
    if form == 1 {
        return read_u8(update, w);
    }
    cells::draw_byte(update, w, 4)
}

pub fn read_parent_info(form: u8, update: &[u8], w: &mut [u64]) -> Option<u64>
    requires { Small w.old }
    ensures { Given w.old w.new result
        (fields form update.now (grammar.number grammar.parent_info) (state_in w.old)) }
{
    if form == 1 {
        return read_var(update, w, numbers::MAX_CLOCK);
    }
    cells::draw_byte(update, w, 6)
}

// A length must be a clock.
pub fn read_len(form: u8, update: &[u8], w: &mut [u64]) -> Option<u64>
    requires { Small w.old }
    ensures { Given w.old w.new result (fields form update.now (grammar.number grammar.len) (state_in w.old)) }
{
    if form == 1 {
        return read_var(update, w, numbers::MAX_CLOCK);
    }
    let v = cells::draw_number(update, w, 8)?;
    if numbers::MAX_CLOCK < v {
        let place = w[PLACE] as usize;
        return cells::refuse(w, 3, place);
    }
    Some(v)
}

// The units of the next text.
fn draw_units(update: &[u8], w: &mut [u64]) -> Option<u64>
    requires { Small w.old }
    ensures { NumberDrawn update.now 5 w.old w.new result }
{
    if w[38] == 0 {
        return cells::begin_numbers(update, w, 5);
    }
    cells::draw_number(update, w, 5)
}

// The text's place and bytes go to words k and k + 1 of the row; its units, which are the number drawn, are given back.
fn draw_text(update: &[u8], w: &mut [u64], r: &mut [u64], k: usize) -> Option<u64>
    requires { Small w.old × (k + 1 < length r.old) }
    ensures { TextDrawn update.now k w.old w.new r.old r.new result }
{
    let units = draw_units(update, w)?;
    let to = w[39] as usize;
    let at = w[40] as usize;
    let end = w[41] as usize;
    match string::take_text(cells::upto(update, to), at, end, units) {
        Taken::Took(bytes) => {
            let size = bytes.0;
            let next = at + size;
            w[40] = next as u64;
            r[k] = at as u64;
            r[k + 1] = size as u64;
            Some(units)
        }
        Taken::Refused(number) => cells::refuse(w, number, at),
    }
}

// A text: its place and bytes go to words k and k + 1 of the row, its units are given back.
pub fn read_text(form: u8, update: &[u8], w: &mut [u64], r: &mut [u64], k: usize) -> Option<u64>
    requires { Small w.old × (k + 1 < length r.old) }
    ensures { TextGiven k w.old w.new r.old r.new result
        (fields form update.now grammar.text (state_in w.old)) }
{
    if form == 1 {
        return read_string(update, w, r, k);
    }
    draw_text(update, w, r, k)
}
