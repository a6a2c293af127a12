// Keys, values and type numbers of an update over the words in which reading stands. In form 2 a key has a number: one that was read is that key again, any
// other takes the next text, which joins the keys read; so what the words have of a key is its place.
#![tactic(auto)]

ghost use Rattle.std.specs.Prelude.{◌≡◌, ◌+◌, ◌≤◌, ◌<◌, length, get_or};
ghost use Rattle.block.specs.Row.{no_part};
ghost use Rattle.grammar.specs.Grammar as grammar;
ghost use Rattle.decoder.specs.Line.{word_of};
ghost use Rattle.decoder.specs.States.{max_keys};
ghost use Rattle.decoder.specs.Columned.{text_in, joining, key_in};
ghost use Rattle.decoder.specs.ColumnedInner.{fields};
ghost use Rattle.cells.specs.Cells.{key_count, keys_in, state_in, Small, Beside, part_in};
ghost use Rattle.fields.specs.Fields.{Given, WordGiven};

use anys::Skipped;
use cells::{AT, PLACE};

// ---- keys

// A text of which the bytes alone are wanted.
fn read_word(form: u8, update: &[u8], w: &mut [u64], r: &mut [u64], k: usize) -> Option<()>
    requires { Small w.old × (k + 1 < length r.old) }
    ensures { WordGiven k w.old w.new r.old r.new result
        (word_of (fields form update.now grammar.text (state_in w.old))) }
{
    fields::read_text(form, update, w, r, k)?;
    Some(())
}

// The key that was read under this number.
fn known_key(w: &[u64], r: &mut [u64], k: usize, number: usize)
    requires { Small w.now × (k + 1 < length r.old) × (number < key_count w.now) × (580 ≤ length w.now) }
    ensures { Beside k r.old r.new × (part_in r.new k ≡ get_or (keys_in w.now) number no_part) }
{
    let base = cells::KEYS + 2 * number;
    r[k] = w[base];
    r[k + 1] = w[base + 1];
}

// The next text, which is a key from now on.
fn new_key(update: &[u8], w: &mut [u64], r: &mut [u64], k: usize, count: usize) -> Option<()>
    requires { Small w.old × (k + 1 < length r.old) × (count ≡ key_count w.old) × (count < max_keys) × (580 ≤ length w.old) }
    ensures { WordGiven k w.old w.new r.old r.new result
        (joining (text_in update.now (state_in w.old))) }
{
    read_word(2, update, w, r, k)?;
    let base = cells::KEYS + 2 * count;
    w[base] = r[k];
    w[base + 1] = r[k + 1];
    let more = count + 1;
    w[cells::KEY_COUNT] = more as u64;
    Some(())
}

// A key of form 2, by its number.
fn draw_key(update: &[u8], w: &mut [u64], r: &mut [u64], k: usize) -> Option<()>
    requires { Small w.old × (k + 1 < length r.old) }
    ensures { WordGiven k w.old w.new r.old r.new result
        (key_in update.now (state_in w.old)) }
{
    let number = fields::read_difference(2, update, w, 0)?;
    let count = w[cells::KEY_COUNT];
    if number < count {
        known_key(w, r, k, number as usize);
        return Some(());
    }
    if cells::MAX_KEYS <= count {
        let place = w[PLACE] as usize;
        cells::refuse(w, 3, place);
        return None;
    }
    new_key(update, w, r, k, count as usize)
}

// A mark's key or a node name: its place and bytes go to words k and k + 1 of the row.
pub fn read_key(form: u8, update: &[u8], w: &mut [u64], r: &mut [u64], k: usize) -> Option<()>
    requires { Small w.old × (k + 1 < length r.old) }
    ensures { WordGiven k w.old w.new r.old r.new result
        (fields form update.now grammar.key (state_in w.old)) }
{
    if form == 1 {
        return read_word(form, update, w, r, k);
    }
    draw_key(update, w, r, k)
}

// ---- values

// So many plain values in line: a value of an unknown kind is blamed at `blame`.
pub fn read_values(
    form: u8,
    update: &[u8],
    w: &mut [u64],
    r: &mut [u64],
    k: usize,
    blame: usize,
    n: u64,
) -> Option<()>
    requires { Small w.old × (k + 1 < length r.old) }
    ensures { WordGiven k w.old w.new r.old r.new result
        (fields form update.now (grammar.values blame n) (state_in w.old)) }
{
    let at = w[AT] as usize;
    match anys::skip_anys(update, blame, at, n) {
        Skipped::At(end) => {
            let size = end - at;
            r[k] = at as u64;
            r[k + 1] = size as u64;
            w[AT] = end as u64;
            Some(())
        }
        Skipped::Refused(why) => {
            cells::refuse(w, why.number, why.place);
            None
        }
    }
}

// A mark's value: JSON text in form 1, one plain value in form 2.
pub fn read_value(
    form: u8,
    update: &[u8],
    w: &mut [u64],
    r: &mut [u64],
    k: usize,
    blame: usize,
) -> Option<()>
    requires { Small w.old × (k + 1 < length r.old) }
    ensures { WordGiven k w.old w.new r.old r.new result
        (fields form update.now (grammar.value blame) (state_in w.old)) }
{
    if form != 1 {
        return read_values(form, update, w, r, k, blame, 1);
    }
    read_word(form, update, w, r, k)
}

// ---- type numbers

// Any unsigned number in form 1, one of the type column in form 2.
pub fn read_type(form: u8, update: &[u8], w: &mut [u64]) -> Option<u64>
    requires { Small w.old }
    ensures { Given w.old w.new result
        (fields form update.now (grammar.number grammar.type_number) (state_in w.old)) }
{
    if form == 1 {
        return fields::read_var(update, w, numbers::MAX_UNSIGNED);
    }
    cells::draw_number(update, w, 7)
}
