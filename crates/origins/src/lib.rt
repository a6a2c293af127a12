// Where a value that was drawn from an update came from: its bytes, its run, its base and its difference, as a line of words.
#![tactic(auto)]

ghost use Rattle.std.specs.Prelude.{◌≡◌, ◌+◌, ◌*◌, ◌≤◌, length};
ghost use Rattle.numbers.specs.Number.{read_unsigned, read_signed};
ghost use Rattle.block.specs.Row.{no_part};
ghost use Rattle.cells.specs.Cells.{numbers_in, differences_in, bytes_in, state_in, Small};
ghost use Rattle.origins.specs.Origins as origins;
ghost use Rattle.origins.specs.Numerals.{numeral};
ghost use Rattle.origins.specs.Sheets.{line_in, lines_from, Above};

use cells::{AT, KEY_COUNT};
use numbers::{Read, Signed, words};
use text::{Bytes, Part};

// Where a value stands: the place of its first byte in the update, of a run the run's first byte, and how many bytes it has there. Source 0: in line. 1: a run,
// of which it is the `which`-th value of so many. 2: a byte that stands without end.
#[derive(Clone, Copy)]
pub struct Stand {
    pub place: u64,
    pub bytes: u64,
    pub source: u64,
    pub which: u64,
    pub of: u64,
}

// A value that is a difference from a base, the value before: sign 1 plus, 2 minus. Zeros where it is none.
#[derive(Clone, Copy)]
pub struct Rise {
    pub base: u64,
    pub sign: u64,
    pub size: u64,
}

// A draw: which field (`roles`), its value, where it stands, what it is a difference from, and the stored bytes that it leads to.
#[derive(Clone, Copy)]
pub struct Line {
    pub field: u64,
    pub value: u64,
    pub stand: Stand,
    pub rise: Rise,
    pub part: Part,
}

// ---- how many values a run has, by its bytes

// The count at a place, and so many more; none where a run cannot have so many.
fn counted(s: &[u8], at: usize, more: u64) -> u64
    requires { more ≤ 2 }
    ensures { result ≡ origins.times_read more (read_unsigned s.now at) }
{
    let Read::Number(c, _) = numbers::read_unsigned(s, at) else {
        return 0;
    };
    if numbers::MAX_COUNT < c {
        return 0;
    }
    c + more
}

fn number_times(s: &[u8], from: usize) -> u64
    ensures { result ≡ origins.number_times s.now (read_signed s.now from) }
{
    let Signed::Value(minus, _, e) = numbers::read_signed(s, from) else {
        return 0;
    };
    if minus {
        return counted(s, e, 2);
    }
    1
}

fn difference_times(s: &[u8], from: usize) -> u64
    ensures { result ≡ origins.difference_times s.now (read_signed s.now from) }
{
    let Signed::Value(_, x, e) = numbers::read_signed(s, from) else {
        return 0;
    };
    if x % 2 == 0 {
        return 1;
    }
    counted(s, e, 2)
}

// A column's last byte has no count behind it.
fn byte_times(s: &[u8], from: usize) -> u64
    ensures { result ≡ origins.byte_times s.now from }
{
    if s.len() <= from {
        return 0;
    }
    counted(s, from + 1, 1)
}

// ---- where a value stands

fn in_line(from: u64, to: u64) -> Stand
    ensures { result ≡ origins.line_stand from to }
{
    let bytes = words::less(to, from);
    Stand {
        place: from,
        bytes,
        source: 0,
        which: 0,
        of: 0,
    }
}

fn in_run(from: u64, to: u64, n: u64, left: u64) -> Stand
    ensures { result ≡ origins.in_run from to n left }
{
    let bytes = words::less(to, from);
    let which = words::less(n, left);
    Stand {
        place: from,
        bytes,
        source: 1,
        which,
        of: n,
    }
}

fn endless(from: u64, to: u64) -> Stand
    ensures { result ≡ origins.endless from to }
{
    let bytes = words::less(to, from);
    Stand {
        place: from,
        bytes,
        source: 2,
        which: 0,
        of: 0,
    }
}

// Of the value that column k gave last.
fn number_stand(update: &[u8], w: &[u64], k: usize) -> Stand
    requires { Small w.now × (k ≤ 8) }
    ensures { result ≡ origins.number_stand update.now (numbers_in w.now k) }
{
    let b = 7 * k;
    let at = w[b];
    let from = w[b + 1];
    let left = w[b + 3];
    let to = w[b + 4] as usize;
    let n = number_times(cells::upto(update, to), from as usize);
    in_run(from, at, n, left)
}

fn difference_stand(update: &[u8], w: &[u64], k: usize) -> Stand
    requires { Small w.now × (k ≤ 8) }
    ensures { result ≡ origins.difference_stand update.now (differences_in w.now k) }
{
    let b = 7 * k;
    let at = w[b];
    let from = w[b + 1];
    let left = w[b + 3];
    let to = w[b + 4] as usize;
    let n = difference_times(cells::upto(update, to), from as usize);
    in_run(from, at, n, left)
}

fn byte_stand(update: &[u8], w: &[u64], k: usize) -> Stand
    requires { Small w.now × (k ≤ 8) }
    ensures { result ≡ origins.byte_stand update.now (bytes_in w.now k) }
{
    let b = 7 * k;
    let at = w[b];
    let from = w[b + 1];
    if w[b + 5] == 1 {
        return endless(from, at);
    }
    let left = w[b + 3];
    let to = w[b + 4] as usize;
    let n = byte_times(cells::upto(update, to), from as usize);
    in_run(from, at, n, left)
}

// ---- a base and a difference from it

fn no_rise() -> Rise
    ensures { result ≡ origins.no_rise }
{
    Rise {
        base: 0,
        sign: 0,
        size: 0,
    }
}

// The difference comes as its key: it plus 2^31.
fn rising(base: u64, key: u64) -> Rise
    ensures { result ≡ origins.rising base key }
{
    if key < 2147483648 {
        let down = 2147483648 - key;
        return Rise {
            base,
            sign: 2,
            size: down,
        };
    }
    let up = key - 2147483648;
    Rise {
        base,
        sign: 1,
        size: up,
    }
}

// ---- a number that was drawn

// A number: from a column in form 2, or in line, up to so much.
#[derive(Clone, Copy)]
pub enum Number {
    Client,
    LeftClock,
    RightClock,
    Info,
    ParentInfo,
    Len,
    TypeNumber,
    UpTo(u64),
}

fn stand_in(update: &[u8], w: &[u64], n: Number, from: u64) -> Stand
    requires { Small w.now }
    ensures { result ≡ origins.stand_in update.now (numeral n) from (state_in w.now) }
{
    match n {
        Number::Client => number_stand(update, w, 1),
        Number::LeftClock => difference_stand(update, w, 2),
        Number::RightClock => difference_stand(update, w, 3),
        Number::Info => byte_stand(update, w, 4),
        Number::ParentInfo => byte_stand(update, w, 6),
        Number::Len => number_stand(update, w, 8),
        Number::TypeNumber => number_stand(update, w, 7),
        Number::UpTo(_) => in_line(from, w[AT]),
    }
}

pub fn base_of(w: &[u64], n: Number) -> u64
    requires { Small w.now }
    ensures { result ≡ origins.base_of (numeral n) (state_in w.now) }
{
    match n {
        Number::Client => 0,
        Number::LeftClock => w[16],
        Number::RightClock => w[23],
        Number::Info => 0,
        Number::ParentInfo => 0,
        Number::Len => 0,
        Number::TypeNumber => 0,
        Number::UpTo(_) => 0,
    }
}

fn rise_of(w: &[u64], n: Number, base: u64) -> Rise
    requires { Small w.now }
    ensures { result ≡ origins.rise_of (numeral n) base (state_in w.now) }
{
    match n {
        Number::Client => no_rise(),
        Number::LeftClock => rising(base, w[19]),
        Number::RightClock => rising(base, w[26]),
        Number::Info => no_rise(),
        Number::ParentInfo => no_rise(),
        Number::Len => no_rise(),
        Number::TypeNumber => no_rise(),
        Number::UpTo(_) => no_rise(),
    }
}

// ---- lines

fn no_part() -> Part
    ensures { result ≡ no_part }
{
    Part {
        place: 0,
        bytes: Bytes(0),
    }
}

pub fn plain_line(code: u64, v: u64, from: u64, to: u64) -> Line
    ensures { result ≡ origins.plain_line code v from to }
{
    let stand = in_line(from, to);
    let rise = no_rise();
    let part = no_part();
    Line {
        field: code,
        value: v,
        stand,
        rise,
        part,
    }
}

pub fn number_line(
    update: &[u8],
    w: &[u64],
    code: u64,
    n: Number,
    v: u64,
    from: u64,
    base: u64,
) -> Line
    requires { Small w.now }
    ensures { result ≡ origins.number_line update.now code (numeral n) v from base (state_in w.now) }
{
    let stand = stand_in(update, w, n, from);
    let rise = rise_of(w, n, base);
    let part = no_part();
    Line {
        field: code,
        value: v,
        stand,
        rise,
        part,
    }
}

// Stored bytes, which begin where what leads them ends.
pub fn stored_line(code: u64, v: u64, part: Part, from: u64) -> Line
    ensures { result ≡ origins.stored_line code v part from }
{
    let to = part.place as u64;
    let stand = in_line(from, to);
    let rise = no_rise();
    Line {
        field: code,
        value: v,
        stand,
        rise,
        part,
    }
}

pub fn text_line(update: &[u8], w: &[u64], code: u64, part: Part) -> Line
    requires { Small w.now }
    ensures { result ≡ origins.text_line update.now code part (state_in w.now) }
{
    let stand = number_stand(update, w, 5);
    let rise = no_rise();
    Line {
        field: code,
        value: w[37],
        stand,
        rise,
        part,
    }
}

fn key_line(update: &[u8], w: &[u64], code: u64, part: Part, base: u64) -> Line
    requires { Small w.now }
    ensures { result ≡ origins.key_line update.now code part base (state_in w.now) }
{
    let stand = difference_stand(update, w, 0);
    let rise = rising(base, w[5]);
    Line {
        field: code,
        value: w[2],
        stand,
        rise,
        part,
    }
}

// Line i of a sheet, twelve words a line.
pub fn put_line(sheet: &mut [u64], i: usize, l: Line)
    requires { 12 * (i + 1) ≤ length sheet.old }
    ensures { Above i sheet.old sheet.new × (line_in sheet.new i ≡ l) }
{
    let b = 12 * i;
    let stand = l.stand;
    let rise = l.rise;
    let part = l.part;
    let bytes = part.bytes;
    sheet[b] = l.field;
    sheet[b + 1] = l.value;
    sheet[b + 2] = stand.place;
    sheet[b + 3] = stand.bytes;
    sheet[b + 4] = stand.source;
    sheet[b + 5] = stand.which;
    sheet[b + 6] = stand.of;
    sheet[b + 7] = rise.base;
    sheet[b + 8] = rise.sign;
    sheet[b + 9] = rise.size;
    sheet[b + 10] = part.place as u64;
    sheet[b + 11] = bytes.0 as u64;
}

// A key of form 2 from line i on, its number and, where there were fewer keys before, its text; how many lines that is.
pub fn put_key(
    update: &[u8],
    w: &[u64],
    sheet: &mut [u64],
    i: usize,
    code: u64,
    part: Part,
    base: u64,
    keys: u64,
) -> usize
    requires { Small w.now × (12 * (i + 2) ≤ length sheet.old) }
    ensures { Above i sheet.old sheet.new × (1 ≤ result) × (result ≤ 2)
        × (lines_from sheet.new i result ≡ origins.key_lines update.now code part base keys (state_in w.now)) }
{
    let next = i + 1;
    let l = key_line(update, w, code, part, base);
    put_line(sheet, i, l);
    if w[KEY_COUNT] <= keys {
        return 1;
    }
    let t = text_line(update, w, 27, part);
    put_line(sheet, next, t);
    2
}
