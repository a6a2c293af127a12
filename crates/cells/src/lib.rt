// Where reading stands, as words that the loop over blocks lends: the columns of form 2, the place in line, and why a field was refused. A draw stores a few
// words and gives back one, where a state given back by value was 390 bytes.
#![tactic(auto)]

ghost use Rattle.std.specs.Prelude.{◌≡◌, ◌≢◌, ◌+◌, ◌≤◌, ◌<◌, take, eqb, None};
ghost use Rattle.columns.specs.Number as numbers;
ghost use Rattle.columns.specs.Difference as differences;
ghost use Rattle.columns.specs.Difference.{outside, key_read};
ghost use Rattle.cells.specs.Cells.{cell, why_in, Small, Wide, Narrow, Elsewhere};
ghost use Rattle.cells.specs.Cells.{NumberPut, DifferencePut, BytePut, NumberDrawn, DifferenceDrawn, ByteDrawn};

use numbers::{Read, Refusal, Signed};

// How many words there are, with those for keys, and which of them are no column's.
pub const WORDS: usize = 580;

pub const AT: usize = 63;

pub const PLACE: usize = 64;

pub const NUMBER: usize = 65;

pub const BLAMED: usize = 66;

// How many keys were read; their places and bytes begin behind it.
pub const KEY_COUNT: usize = 67;

pub const KEYS: usize = 68;

// How many keys form 2 may have.
pub const MAX_KEYS: u64 = 256;

// A number that is drawn is Some, and the words have the place that it is blamed at; a field in its row is Some(()). None: the words say why.
pub fn refuse(w: &mut [u64], number: u8, place: usize) -> Option<u64>
    requires { Small w.old }
    ensures { (result ≡ None) × Small w.new × Elsewhere 9 w.old w.new
        × (why_in w.new ≡ record { number = number; place = place }) }
{
    w[NUMBER] = number as u64;
    w[BLAMED] = place as u64;
    None
}

pub fn why(w: &[u64]) -> Refusal
    requires { Small w.now }
    ensures { result ≡ why_in w.now }
{
    let number = w[NUMBER] as u8;
    let place = w[BLAMED] as usize;
    Refusal { number, place }
}

// The column up to its end; one that ends past the update is the whole of it.
pub fn upto(update: &[u8], to: usize) -> &[u8]
    ensures { result.now ≡ take to update.now }
{
    if update.len() <= to {
        return update;
    }
    &update[..to]
}

// ---- the next value of column k

// A run under way takes two words.
pub fn draw_number(update: &[u8], w: &mut [u64], k: usize) -> Option<u64>
    requires { Small w.old × Wide k }
    ensures { NumberDrawn update.now k w.old w.new result }
{
    let b = 7 * k;
    let count = w[b + 3];
    if count == 0 {
        return begin_numbers(update, w, k);
    }
    let from = w[b + 1];
    let last = w[b + 2];
    if numbers::MAX_VALUE < last {
        return refuse(w, 3, from as usize);
    }
    w[b + 3] = count - 1;
    w[PLACE] = from;
    Some(last)
}

// The run that begins at the column's place, and its first value. Called from two places: a function with one caller becomes part of it, and `draw_number`
// should stay small enough to become part of its own.
pub fn begin_numbers(update: &[u8], w: &mut [u64], k: usize) -> Option<u64>
    requires { Small w.old × Wide k × (cell w.old k 3 ≡ 0) }
    ensures { NumberDrawn update.now k w.old w.new result }
{
    let b = 7 * k;
    let at = w[b] as usize;
    let end = w[b + 4] as usize;
    let column = upto(update, end);
    let s = numbers::read_signed(column, at);
    let Signed::Value(minus, x, e) = s else {
        let why = numbers::why_signed(s);
        return refuse(w, why.number, why.place);
    };
    if minus {
        let n = numbers::read_unsigned(column, e);
        let Read::Number(c, f) = n else {
            let why = numbers::why_read(n);
            return refuse(w, why.number, why.place);
        };
        if numbers::MAX_COUNT < c {
            return refuse(w, 3, e);
        }
        return put_number(w, k, f, at, x, c + 1);
    }
    put_number(w, k, e, at, x, 0)
}

// The run of x that begins at `from`, its first value drawn: it stands `left` times more.
fn put_number(w: &mut [u64], k: usize, past: usize, from: usize, x: u64, left: u64) -> Option<u64>
    requires { Small w.old × Wide k }
    ensures { NumberPut k w.old w.new result (numbers.drawn (numbers.place_at past from x (left + 1))) }
{
    if numbers::MAX_VALUE < x {
        return refuse(w, 3, from);
    }
    let b = 7 * k;
    w[b] = past as u64;
    w[b + 1] = from as u64;
    w[b + 2] = x;
    w[b + 3] = left;
    w[PLACE] = from as u64;
    Some(x)
}

fn is_outside(minus: bool, x: u64) -> bool
    ensures { result ≡ outside minus x }
{
    if minus {
        return 2147483648 < x;
    }
    2147483648 <= x
}

// The difference that was read, plus 2^31.
fn key_read(minus: bool, x: u64) -> u64
    requires { x ≤ 2147483648 }
    ensures { (result ≡ key_read minus x) × (result ≤ 4294967295) }
{
    if minus {
        return 2147483648 - (x + 1) / 2;
    }
    2147483648 + x / 2
}

pub fn draw_difference(update: &[u8], w: &mut [u64], k: usize) -> Option<u64>
    requires { Small w.old × Narrow k }
    ensures { DifferenceDrawn update.now k w.old w.new result }
{
    let b = 7 * k;
    let count = w[b + 3];
    if count == 0 {
        return begin_differences(update, w, k);
    }
    let from = w[b + 1];
    let sum = w[b + 2] + w[b + 5];
    if sum < 2147483648 {
        return refuse(w, 3, from as usize);
    }
    let v = sum - 2147483648;
    if numbers::MAX_CLOCK < v {
        return refuse(w, 3, from as usize);
    }
    w[b + 2] = v;
    w[b + 3] = count - 1;
    w[PLACE] = from;
    Some(v)
}

fn begin_differences(update: &[u8], w: &mut [u64], k: usize) -> Option<u64>
    requires { Small w.old × Narrow k × (cell w.old k 3 ≡ 0) }
    ensures { DifferenceDrawn update.now k w.old w.new result }
{
    let b = 7 * k;
    let at = w[b] as usize;
    let end = w[b + 4] as usize;
    let column = upto(update, end);
    let s = numbers::read_signed(column, at);
    let Signed::Value(minus, x, e) = s else {
        let why = numbers::why_signed(s);
        return refuse(w, why.number, why.place);
    };
    if is_outside(minus, x) {
        return refuse(w, 3, at);
    }
    let key = key_read(minus, x);
    if x % 2 == 1 {
        let n = numbers::read_unsigned(column, e);
        let Read::Number(c, f) = n else {
            let why = numbers::why_read(n);
            return refuse(w, why.number, why.place);
        };
        if numbers::MAX_COUNT < c {
            return refuse(w, 3, e);
        }
        return put_difference(w, k, f, at, key, c + 1);
    }
    put_difference(w, k, e, at, key, 0)
}

// The run of a difference that begins at `from`, its first value drawn onto the value before: it applies `left` times more.
fn put_difference(
    w: &mut [u64],
    k: usize,
    past: usize,
    from: usize,
    key: u64,
    left: u64,
) -> Option<u64>
    requires { Small w.old × Narrow k × (key ≤ 4294967295) × (cell w.old k 0 < cell w.old k 4) }
    ensures { DifferencePut k w.old w.new result
        (differences.drawn (differences.place_at past from (cell w.old k 2) key (left + 1))) }
{
    let b = 7 * k;
    let sum = w[b + 2] + key;
    if sum < 2147483648 {
        return refuse(w, 3, from);
    }
    let v = sum - 2147483648;
    if numbers::MAX_CLOCK < v {
        return refuse(w, 3, from);
    }
    w[b] = past as u64;
    w[b + 1] = from as u64;
    w[b + 2] = v;
    w[b + 3] = left;
    w[b + 5] = key;
    w[PLACE] = from as u64;
    Some(v)
}

pub fn draw_byte(update: &[u8], w: &mut [u64], k: usize) -> Option<u64>
    requires { Small w.old × Wide k }
    ensures { ByteDrawn update.now k w.old w.new result }
{
    let b = 7 * k;
    let from = w[b + 1];
    let last = w[b + 2];
    if w[b + 5] == 1 {
        w[PLACE] = from;
        return Some(last);
    }
    let count = w[b + 3];
    if count == 0 {
        return begin_bytes(update, w, k);
    }
    w[b + 3] = count - 1;
    w[PLACE] = from;
    Some(last)
}

fn begin_bytes(update: &[u8], w: &mut [u64], k: usize) -> Option<u64>
    requires { Small w.old × Wide k × (cell w.old k 3 ≡ 0) × (cell w.old k 5 ≢ 1) }
    ensures { ByteDrawn update.now k w.old w.new result }
{
    let b = 7 * k;
    let at = w[b] as usize;
    let end = w[b + 4] as usize;
    let column = upto(update, end);
    if column.len() <= at {
        return refuse(w, 1, column.len());
    }
    let v = column[at] as u64;
    let e = at + 1;
    if column.len() <= e {
        put_byte(w, k, e, at, v, 0, 1);
        return Some(v);
    }
    let n = numbers::read_unsigned(column, e);
    let Read::Number(c, f) = n else {
        let why = numbers::why_read(n);
        return refuse(w, why.number, why.place);
    };
    if numbers::MAX_COUNT < c {
        return refuse(w, 3, e);
    }
    put_byte(w, k, f, at, v, c, 0);
    Some(v)
}

// The run of a byte that begins at `from`, its first value drawn: it stands `left` times more, or (1) without end.
fn put_byte(w: &mut [u64], k: usize, past: usize, from: usize, v: u64, left: u64, endless: u64)
    requires { Small w.old × Wide k }
    ensures { BytePut k w.old w.new (record { at = past; from = from; last = v; count = left; endless = eqb endless 1 }) }
{
    let b = 7 * k;
    w[b] = past as u64;
    w[b + 1] = from as u64;
    w[b + 2] = v;
    w[b + 3] = left;
    w[b + 5] = endless;
    w[PLACE] = from as u64;
}
