// Whole slices in one pass: values are judged as they are written, for a refusal leaves zeros anyway. Where room ends nothing more is written, and the
// judging goes on, so that 3 comes before 13 and 13 before 10. The state is words of its own, not a `Writer`: so it stays in registers.
#![tactic(auto)]

ghost use Rattle.std.specs.Prelude.{◌≡◌, true, ◌+◌, ◌-◌, ◌^◌, ◌≤◌, ◌<◌, length, drop};
ghost use Rattle.std.proofs.lemmas.List.Edits.{sets};
ghost use Rattle.numbers.specs.Number.{pick};
ghost use Rattle.text.specs.Utf8.{well_formed};
ghost use Rattle.runs.specs.Runs.{coding};
ghost use Rattle.runs.specs.RunsInner.{key_most};
ghost use Rattle.runs.specs.Writer.{Sound, last_fits_in};
ghost use Rattle.string.specs.String.{text_head};
ghost use Rattle.once.specs.Once.{ends_run, ended_run, PutAt, end_answer, end_bytes, Writes};
ghost use Rattle.once.specs.Texts.{TookPlain, take_next, WritesTexts};

use numbers::Written;
use runs::ColumnKind;
use runs::writer::Writer;
use text::{Taken, Units};

// Whether the key k ends a run of a key that stood so often.
#[tactic(auto, unfolding(crate::specs::Once::ends_run))]
fn is_ended(key: u64, count: u64, k: u64) -> bool
    ensures { result ≡ ends_run key count k }
{
    count != 0 && k != key
}

// Whether the run that k ends, if it ends one, can be stored.
fn is_storable(column: ColumnKind, key: u64, count: u64, k: u64) -> bool
    ensures { result ≡ pick (ends_run key count k) ((coding column).fits (count - 1)) true }
{
    if !is_ended(key, count, k) {
        return true;
    }
    let n = count - 1;
    match column {
        ColumnKind::Number => n <= numbers::MAX_COUNT + 1,
        ColumnKind::Difference => n <= numbers::MAX_COUNT + 1,
        ColumnKind::Byte => n <= numbers::MAX_COUNT,
    }
}

// How often the key k stands then.
fn count_with(key: u64, count: u64, k: u64) -> u64
    requires { count < 2 ^ 63 }
    ensures { result ≡ pick (ends_run key count k) 1 (count + 1) }
{
    if is_ended(key, count, k) {
        return 1;
    }
    count + 1
}

// A run, if there is room: the place after it, or the one past the end. How long it is, is asked only near the end: no run has more than 21 bytes.
fn put_within(out: &mut [u8], column: ColumnKind, at: usize, k: u64, n: u64) -> usize
    requires { k ≤ key_most column }
    ensures { PutAt out.old at ((coding column).spell k n) result out.new }
{
    let past = out.len() + 1;
    if out.len() < at {
        return past;
    }
    let room = out.len() - at;
    if 21 <= room {
        return runs::put_run(out, column, at, k, n);
    }
    let size = runs::run_size(column, k, n);
    if room < size {
        return past;
    }
    runs::put_run(out, column, at, k, n)
}

// The run that k ends, if it ends one.
fn put_ended(out: &mut [u8], column: ColumnKind, at: usize, key: u64, count: u64, k: u64) -> usize
    requires { (key ≤ key_most column) × (at ≤ length out.old + 1) }
    ensures { PutAt out.old at (ended_run column key count k) result out.new }
{
    if !is_ended(key, count, k) {
        return at;
    }
    let n = count - 1;
    put_within(out, column, at, key, n)
}

// The end of a column whose values were judged and put so far: 3 for the last run, 13, then 10.
fn end(out: &mut [u8], w: Writer, far: bool) -> Written
    requires { Sound w }
    ensures { (result ≡ end_answer out.old w far) × (out.new ≡ end_bytes out.old w far) }
{
    let at = w.at;
    if !runs::judge::last_fits(w) {
        return numbers::refuse(out, 3);
    }
    if far {
        return numbers::refuse(out, 13);
    }
    if out.len() < at {
        return numbers::refuse(out, 10);
    }
    runs::writer::close(out, w)
}

// ---- whole slices

// Clocks: 3, 13, then 10. A run's key is held to its limit where the run begins.
pub fn write_differences(out: &mut [u8], values: &[u64]) -> Written
    ensures { Writes ColumnKind.Difference values.now out.old result out.new }
{
    let mut at: usize = 0;
    let mut last: u64 = 0;
    let mut key: u64 = 0;
    let mut count: u64 = 0;
    let mut far = false;
    for &v in values {
        if numbers::MAX_CLOCK < v {
            return numbers::refuse(out, 3);
        }
        let k = runs::difference::key_between(last, v);
        last = v;
        if k == key {
            count += 1;
            continue;
        }
        if !is_storable(ColumnKind::Difference, key, count, k) {
            return numbers::refuse(out, 3);
        }
        far = runs::judge::far_with(ColumnKind::Difference, far, k);
        at = put_ended(out, ColumnKind::Difference, at, key, count, k);
        count = 1;
        key = k;
    }
    end(
        out,
        Writer {
            column: ColumnKind::Difference,
            at,
            last,
            key,
            count,
        },
        far,
    )
}

// Numbers, each its own key: 3, then 10.
pub fn write_numbers(out: &mut [u8], values: &[u64]) -> Written
    ensures { Writes ColumnKind.Number values.now out.old result out.new }
{
    let mut at: usize = 0;
    let mut key: u64 = 0;
    let mut count: u64 = 0;
    for &v in values {
        if numbers::MAX_VALUE < v {
            return numbers::refuse(out, 3);
        }
        if !is_storable(ColumnKind::Number, key, count, v) {
            return numbers::refuse(out, 3);
        }
        at = put_ended(out, ColumnKind::Number, at, key, count, v);
        count = count_with(key, count, v);
        key = v;
    }
    end(
        out,
        Writer {
            column: ColumnKind::Number,
            at,
            last: key,
            key,
            count,
        },
        false,
    )
}

// Bytes: each is its own key, and none is over the limit.
pub fn write_bytes(out: &mut [u8], values: &[u8]) -> Written
    ensures { Writes ColumnKind.Byte values.now out.old result out.new }
{
    let mut at: usize = 0;
    let mut key: u64 = 0;
    let mut count: u64 = 0;
    for &b in values {
        let v = b as u64;
        if !is_storable(ColumnKind::Byte, key, count, v) {
            return numbers::refuse(out, 3);
        }
        at = put_ended(out, ColumnKind::Byte, at, key, count, v);
        count = count_with(key, count, v);
        key = v;
    }
    end(
        out,
        Writer {
            column: ColumnKind::Byte,
            at,
            last: key,
            key,
            count,
        },
        false,
    )
}

// ---- texts

// Where the texts taken so far end, and whether the next was there.
#[derive(Clone, Copy)]
pub struct Taking {
    pub at: usize,
    pub found: bool,
}

// Whether the text of u units at `at` is u plain bytes: then nothing else is to be looked at.
fn is_plain(text: &[u8], at: usize, u: u64) -> bool
    requires { at ≤ length text.now }
    ensures { result ≡ true → TookPlain text.now at u }
{
    let room = (text.len() - at) as u64;
    if room < u {
        return false;
    }
    let stop = at + u as usize;
    text::plain_to(text, at, stop) == stop
}

fn take_next(text: &[u8], t: Taking, u: u64) -> Taking
    requires { t.at ≤ length text.now }
    ensures { (result ≡ take_next text.now t u) × (result.at ≤ length text.now) }
{
    let at = t.at;
    if !t.found {
        return t;
    }
    if is_plain(text, at, u) {
        let stop = at + u as usize;
        return Taking {
            at: stop,
            found: true,
        };
    }
    match text::take_units(text, at, text.len(), Units(u), 7) {
        Taken::Took(bytes) => {
            let past = at + bytes.0;
            Taking {
                at: past,
                found: true,
            }
        }
        Taken::Refused(_) => Taking { at, found: false },
    }
}

// The text's length and bytes, at the start; the caller has room for them.
fn put_text(out: &mut [u8], text: &[u8]) -> usize
    requires { length (text_head text.now) ≤ length out.old }
    ensures { (result ≡ length (text_head text.now)) × (out.new ≡ sets out.old 0 (text_head text.now)) }
{
    let at = numbers::write_unsigned(out, 0, text.len() as u64);
    // Kept, point 3 (the C interface): std's copy calls memmove, a name that the archive needs for nothing else.
    for i in 0..text.len() {
        out[at + i] = text[i];
    }
    at + text.len()
}

// The same, if there is room: the place after them, or the one past the end.
fn put_head(out: &mut [u8], text: &[u8]) -> usize
    ensures { PutAt out.old 0 (text_head text.now) result out.new }
{
    let beyond = out.len() + 1;
    let size = numbers::size_unsigned(text.len() as u64);
    if out.len() < size {
        return beyond;
    }
    if out.len() - size < text.len() {
        return beyond;
    }
    put_text(out, text)
}

// The refusal of text that was taken up to `at`: 6, or else this one. What was taken is UTF-8, so only what follows it is checked.
fn six_or(text: &[u8], at: usize, number: u8) -> u8
    requires { at ≤ length text.now }
    ensures { result ≡ pick (well_formed (drop at text.now)) number 6 }
{
    if text::check(text, at, text.len()) {
        return number;
    }
    6
}

// Of unit lengths that all are within their limits: 3 for the last run, 7 where a text was not there, or 0.
fn three_or_seven(w: Writer, found: bool) -> u8
    ensures { result ≡ pick (last_fits_in w) (pick found 0 7) 3 }
{
    if !runs::judge::last_fits(w) {
        return 3;
    }
    if found {
        return 0;
    }
    7
}

// The text and its unit lengths: 6, 3, 7, then 10.
pub fn write_texts(out: &mut [u8], text: &[u8], units: &[u64]) -> Written
    ensures { WritesTexts text.now units.now out.old result out.new }
{
    let mut at = put_head(out, text);
    let mut t = Taking { at: 0, found: true };
    let mut key: u64 = 0;
    let mut count: u64 = 0;
    for &u in units {
        if numbers::MAX_VALUE < u {
            let number = six_or(text, t.at, 3);
            return numbers::refuse(out, number);
        }
        if !is_storable(ColumnKind::Number, key, count, u) {
            let number = six_or(text, t.at, 3);
            return numbers::refuse(out, number);
        }
        at = put_ended(out, ColumnKind::Number, at, key, count, u);
        count = count_with(key, count, u);
        key = u;
        t = take_next(text, t, u);
    }
    let w = Writer {
        column: ColumnKind::Number,
        at,
        last: key,
        key,
        count,
    };
    let number = six_or(text, t.at, three_or_seven(w, t.found));
    if number != 0 {
        return numbers::refuse(out, number);
    }
    end(out, w, false)
}
