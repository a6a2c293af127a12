// Columns in bulk: as many values as what is lent has room for, or up to the first draw that is refused; zeros behind them. The answer says how many
// and the place after them, and a refusal only where the very first draw is refused: then the place is as it was, and what was lent is all zero.
// A draw is written here a second time, beside `columns` and `string`, with one caller each: so it becomes part of its loop (docs/DECISIONS.md).
#![tactic(auto)]

ghost use Rattle.std.specs.Prelude.{◌≡◌, true, ◌++◌, ◌+◌, ◌-◌, ◌≤◌, ◌<◌, eqb, length, take, drop, replicate};
ghost use Rattle.numbers.specs.Number.{low_part, spelt, answer_at, read_signed, pick, none};
ghost use Rattle.columns.specs.Number as numbers;
ghost use Rattle.columns.specs.Difference as differences;
ghost use Rattle.columns.specs.Byte as bytes;
ghost use Rattle.string.specs.String.{units_taken, next_text};
ghost use Rattle.bulk.specs.BulkInner.{TookPlain};
ghost use Rattle.bulk.specs.Promises.{ReadNumbers, ReadDifferences, ReadBytes, ReadTexts};

use columns::{byte, difference, number};
use numbers::{Read, Refusal, Signed, words};
use text::{Bytes, Part, Taken};

// The refusal that is told after i values.
fn told(i: usize, why: Refusal) -> Refusal
    ensures { result ≡ pick (eqb i 0) why none }
{
    if i == 0 {
        return why;
    }
    Refusal {
        number: 0,
        place: 0,
    }
}

// ---- numbers

#[repr(C)]
#[derive(Clone, Copy)]
pub struct NumbersRead {
    pub refusal: Refusal,
    pub count: usize,
    pub place: number::Place,
}

fn draw_number(c: number::Place) -> number::Answer
    requires { 1 ≤ c.count }
    ensures { result ≡ numbers.drawn c }
{
    let at = c.at;
    let from = c.from;
    let last = c.last;
    if numbers::MAX_VALUE < last {
        return number::Answer::Bad(Refusal {
            number: 3,
            place: from,
        });
    }
    let left = c.count - 1;
    number::Answer::Next(
        last,
        number::Place {
            at,
            from,
            last,
            count: left,
        },
    )
}

// The rest of a signed number that began at `first`, its low six bits being `value`: as `numbers` has it, part of the loop.
fn number_rest(s: &[u8], first: usize, at: usize, value: u64) -> Read
    requires { value < 64 }
    ensures { result ≡ answer_at s.now first (low_part 64 value (spelt 8 at (drop at s.now))) }
{
    let mut unit: u64 = 64;
    let mut value = value;
    for k in 0..8 {
        let i = at + k;
        if s.len() <= i {
            return Read::Refused(Refusal {
                number: 1,
                place: s.len(),
            });
        }
        let b = s[i] as u64;
        if b < 128 {
            return Read::Number(value + unit * b, i + 1);
        }
        value += unit * (b - 128);
        unit *= 128;
    }
    Read::Refused(Refusal {
        number: 2,
        place: first,
    })
}

fn read_number(s: &[u8], at: usize) -> Signed
    ensures { result ≡ read_signed s.now at }
{
    if s.len() <= at {
        return Signed::Wrong(Refusal {
            number: 1,
            place: s.len(),
        });
    }
    let b = s[at] as u64;
    let next = at + 1;
    let low = b % 64;
    let minus = b / 64 % 2 == 1;
    if b < 128 {
        return Signed::Value(minus, low, next);
    }
    match number_rest(s, at, next, low) {
        Read::Number(x, e) => Signed::Value(minus, x, e),
        Read::Refused(why) => Signed::Wrong(why),
    }
}

// A run whose number is read: where its count has more than one byte, or is not there.
fn long_run(column: &[u8], from: usize, minus: bool, x: u64, e: usize) -> number::Answer
    ensures { result ≡ numbers.begun column.now from (Signed.Value minus x e) }
{
    if !minus {
        return draw_number(number::Place {
            at: e,
            from,
            last: x,
            count: 1,
        });
    }
    let k = numbers::read_unsigned(column, e);
    let Read::Number(c, f) = k else {
        return number::Answer::Bad(numbers::why_read(k));
    };
    if numbers::MAX_COUNT < c {
        return number::Answer::Bad(Refusal {
            number: 3,
            place: e,
        });
    }
    let times = (c + 2) as u32;
    draw_number(number::Place {
        at: f,
        from,
        last: x,
        count: times,
    })
}

fn one_if(minus: bool) -> usize
    ensures { result ≡ pick minus 1 0 }
{
    minus as usize
}

// A run whose number is read. Whether a count follows is not asked but counted with: it is as often so as not, and a wrong guess takes longer.
fn run_of(column: &[u8], from: usize, minus: bool, x: u64, e: usize) -> number::Answer
    ensures { result ≡ numbers.begun column.now from (Signed.Value minus x e) }
{
    if e < column.len() {
        let m = one_if(minus);
        let c = m * column[e] as usize;
        if c < 128 {
            let next = e + m;
            let times = (1 + m + c) as u32;
            return draw_number(number::Place {
                at: next,
                from,
                last: x,
                count: times,
            });
        }
    }
    long_run(column, from, minus, x, e)
}

fn number_run(column: &[u8], at: usize) -> number::Answer
    ensures { result ≡ numbers.begun column.now at (read_signed column.now at) }
{
    let r = read_number(column, at);
    let Signed::Value(minus, x, e) = r else {
        return number::Answer::Bad(numbers::why_signed(r));
    };
    run_of(column, at, minus, x, e)
}

fn next_number(column: &[u8], place: number::Place) -> number::Answer
    ensures { result ≡ numbers.next_number column.now place }
{
    let at = place.at;
    if 0 < place.count {
        return draw_number(place);
    }
    number_run(column, at)
}

// How many of a run are put: the one that was drawn and those that are left, as far as there is room.
fn as_many(left: u32, room: usize) -> usize
    requires { 1 ≤ room }
    ensures { (1 ≤ result) × (result ≤ room) × (result ≤ left + 1) }
{
    room.min(left as usize + 1)
}

// The value v, six times from `at` on: how often is known when it is compiled.
fn fill_six(out: &mut [u64], at: usize, v: u64)
    requires { at + 6 ≤ length out.old }
    ensures { take (at + 6) out.new ≡ take at out.old ++ replicate 6 v }
{
    for i in 0..6 {
        out[at + i] = v;
    }
}

// The value v, n times from `at` on. A short run is put as six at once: what stands behind it is put later, or cleared, and how long it is need not be guessed.
fn spread(out: &mut [u64], at: usize, n: usize, v: u64)
    requires { at + n ≤ length out.old }
    ensures { take (at + n) out.new ≡ take at out.old ++ replicate n v }
{
    if n <= 6 {
        let room = out.len() - at;
        if 6 <= room {
            fill_six(out, at, v);
            return;
        }
    }
    out[at..at + n].fill(v);
}

// The place after m more of the run.
fn less_drawn(d: number::Place, m: usize) -> number::Place
    requires { m ≤ d.count }
    ensures { result ≡ numbers.place_at d.at d.from d.last (d.count - m) }
{
    let at = d.at;
    let from = d.from;
    let last = d.last;
    let count = d.count - m as u32;
    number::Place {
        at,
        from,
        last,
        count,
    }
}

pub fn read_numbers(column: &[u8], place: number::Place, out: &mut [u64]) -> NumbersRead
    ensures { ReadNumbers column.now place out.old result out.new }
{
    let mut c = place;
    let mut i = 0;
    // Kept, point 3 (no plainer): a turn goes on by a whole run, not by one value.
    while i < out.len() {
        let r = next_number(column, c);
        let number::Answer::Next(v, d) = r else {
            words::clear(out, i);
            let why = number::why(r);
            let refusal = told(i, why);
            return NumbersRead {
                refusal,
                count: i,
                place: c,
            };
        };
        let room = out.len() - i;
        let left = d.count;
        let n = as_many(left, room);
        spread(out, i, n, v);
        i += n;
        c = less_drawn(d, n - 1);
    }
    NumbersRead {
        refusal: Refusal {
            number: 0,
            place: 0,
        },
        count: i,
        place: c,
    }
}

// ---- differences

#[repr(C)]
#[derive(Clone, Copy)]
pub struct DifferencesRead {
    pub refusal: Refusal,
    pub count: usize,
    pub place: difference::Place,
}

fn draw_difference(c: difference::Place) -> difference::Answer
    requires { 1 ≤ c.count }
    ensures { result ≡ differences.drawn c }
{
    let at = c.at;
    let from = c.from;
    let key = c.key;
    let sum = c.last as u64 + key as u64;
    if sum < 2147483648 {
        return difference::Answer::Bad(Refusal {
            number: 3,
            place: from,
        });
    }
    let v = sum - 2147483648;
    if numbers::MAX_CLOCK < v {
        return difference::Answer::Bad(Refusal {
            number: 3,
            place: from,
        });
    }
    let clock = v as u32;
    let left = c.count - 1;
    difference::Answer::Next(
        clock,
        difference::Place {
            at,
            from,
            last: clock,
            key,
            count: left,
        },
    )
}

fn is_outside(minus: bool, x: u64) -> bool
    ensures { result ≡ differences.outside minus x }
{
    if minus {
        return 2147483648 < x;
    }
    2147483648 <= x
}

fn key_read(minus: bool, x: u64) -> u32
    requires { x ≤ 2147483648 }
    ensures { result ≡ differences.key_read minus x }
{
    if minus {
        return (2147483648 - (x + 1) / 2) as u32;
    }
    (2147483648 + x / 2) as u32
}

fn difference_run(column: &[u8], at: usize, last: u32) -> difference::Answer
    ensures { result ≡ differences.begun column.now at last (read_signed column.now at) }
{
    let r = numbers::read_signed(column, at);
    let Signed::Value(minus, x, e) = r else {
        return difference::Answer::Bad(numbers::why_signed(r));
    };
    if is_outside(minus, x) {
        let place = at;
        return difference::Answer::Bad(Refusal { number: 3, place });
    }
    let key = key_read(minus, x);
    if x % 2 == 0 {
        return draw_difference(difference::Place {
            at: e,
            from: at,
            last,
            key,
            count: 1,
        });
    }
    let k = numbers::read_unsigned(column, e);
    let Read::Number(c, f) = k else {
        return difference::Answer::Bad(numbers::why_read(k));
    };
    if numbers::MAX_COUNT < c {
        let place = e;
        return difference::Answer::Bad(Refusal { number: 3, place });
    }
    let times = (c + 2) as u32;
    draw_difference(difference::Place {
        at: f,
        from: at,
        last,
        key,
        count: times,
    })
}

fn next_difference(column: &[u8], place: difference::Place) -> difference::Answer
    ensures { result ≡ differences.next_difference column.now place }
{
    let at = place.at;
    let last = place.last;
    if 0 < place.count {
        return draw_difference(place);
    }
    difference_run(column, at, last)
}

pub fn read_differences(column: &[u8], place: difference::Place, out: &mut [u64]) -> DifferencesRead
    ensures { ReadDifferences column.now place out.old result out.new }
{
    let mut c = place;
    for i in 0..out.len() {
        let r = next_difference(column, c);
        let difference::Answer::Next(v, d) = r else {
            words::clear(out, i);
            let why = difference::why(r);
            let refusal = told(i, why);
            return DifferencesRead {
                refusal,
                count: i,
                place: c,
            };
        };
        out[i] = v as u64;
        c = d;
    }
    DifferencesRead {
        refusal: Refusal {
            number: 0,
            place: 0,
        },
        count: out.len(),
        place: c,
    }
}

// ---- bytes

#[repr(C)]
#[derive(Clone, Copy)]
pub struct BytesRead {
    pub refusal: Refusal,
    pub count: usize,
    pub place: byte::Place,
}

fn byte_run(column: &[u8], at: usize) -> byte::Answer
    ensures { result ≡ bytes.begun column.now at }
{
    if column.len() <= at {
        let place = column.len();
        return byte::Answer::Bad(Refusal { number: 1, place });
    }
    let b = column[at];
    let e = at + 1;
    if column.len() <= e {
        let run = byte::Place {
            at: e,
            from: at,
            last: b,
            count: 0,
            endless: true,
        };
        return byte::Answer::Next(b, run);
    }
    let k = numbers::read_unsigned(column, e);
    let Read::Number(c, f) = k else {
        return byte::Answer::Bad(numbers::why_read(k));
    };
    if numbers::MAX_COUNT < c {
        let place = e;
        return byte::Answer::Bad(Refusal { number: 3, place });
    }
    let left = c as u32;
    let run = byte::Place {
        at: f,
        from: at,
        last: b,
        count: left,
        endless: false,
    };
    byte::Answer::Next(b, run)
}

fn next_byte(column: &[u8], place: byte::Place) -> byte::Answer
    ensures { result ≡ bytes.next_byte column.now place }
{
    let at = place.at;
    let from = place.from;
    let last = place.last;
    let count = place.count;
    if place.endless {
        return byte::Answer::Next(last, place);
    }
    if 0 < count {
        let left = count - 1;
        return byte::Answer::Next(
            last,
            byte::Place {
                at,
                from,
                last,
                count: left,
                endless: false,
            },
        );
    }
    byte_run(column, at)
}

pub fn read_bytes(column: &[u8], place: byte::Place, out: &mut [u8]) -> BytesRead
    ensures { ReadBytes column.now place out.old result out.new }
{
    let mut c = place;
    for i in 0..out.len() {
        let r = next_byte(column, c);
        let byte::Answer::Next(v, d) = r else {
            numbers::clear(out, i);
            let why = byte::why(r);
            let refusal = told(i, why);
            return BytesRead {
                refusal,
                count: i,
                place: c,
            };
        };
        out[i] = v;
        c = d;
    }
    BytesRead {
        refusal: Refusal {
            number: 0,
            place: 0,
        },
        count: out.len(),
        place: c,
    }
}

// ---- texts

#[repr(C)]
#[derive(Clone, Copy)]
pub struct TextsRead {
    pub refusal: Refusal,
    pub count: usize,
    pub place: string::Place,
}

// A draw of a unit length: as `next_number`, with a caller of its own.
// Kept, point 2 (speed): a function with one caller becomes part of it; with several a number takes 14.0 ns and not 6.0 (docs/DECISIONS.md).
fn unit_run(column: &[u8], at: usize) -> number::Answer
    ensures { result ≡ numbers.begun column.now at (read_signed column.now at) }
{
    let r = numbers::read_signed(column, at);
    let Signed::Value(minus, x, e) = r else {
        return number::Answer::Bad(numbers::why_signed(r));
    };
    long_run(column, at, minus, x, e)
}

fn next_unit(column: &[u8], place: number::Place) -> number::Answer
    ensures { result ≡ numbers.next_number column.now place }
{
    let at = place.at;
    if 0 < place.count {
        return draw_number(place);
    }
    unit_run(column, at)
}

// Whether the text of u units at `at`, among those up to `end`, is u plain bytes.
fn is_plain(column: &[u8], at: usize, end: usize, u: u64) -> bool
    ensures { result ≡ true → TookPlain column.now at end u }
{
    if column.len() < end {
        return false;
    }
    if end < at {
        return false;
    }
    let room = (end - at) as u64;
    if room < u {
        return false;
    }
    let stop = at + u as usize;
    text::plain_to(column, at, stop) == stop
}

// The text of u units, and the place after it. Plain text is looked at here: what has many callers is handed its answer through memory.
fn take(column: &[u8], at: usize, end: usize, u: u64, units: number::Place) -> string::Answer
    ensures { result ≡ units_taken column.now at end u units }
{
    if is_plain(column, at, end, u) {
        let n = u as usize;
        let next = at + n;
        return string::Answer::Next(
            Part {
                place: at,
                bytes: Bytes(n),
            },
            string::Place {
                at: next,
                end,
                units,
            },
        );
    }
    match string::take_text(column, at, end, u) {
        Taken::Took(bytes) => {
            let next = at + bytes.0;
            string::Answer::Next(
                Part { place: at, bytes },
                string::Place {
                    at: next,
                    end,
                    units,
                },
            )
        }
        Taken::Refused(n) => string::Answer::Bad(Refusal {
            number: n,
            place: at,
        }),
    }
}

fn next_text(column: &[u8], place: string::Place) -> string::Answer
    ensures { result ≡ next_text column.now place }
{
    let at = place.at;
    let end = place.end;
    let units = place.units;
    let r = next_unit(column, units);
    let number::Answer::Next(u, rest) = r else {
        return string::Answer::Bad(number::why(r));
    };
    take(column, at, end, u, rest)
}

// Of each text two words, its place and its length in bytes.
pub fn read_texts(column: &[u8], place: string::Place, out: &mut [u64]) -> TextsRead
    ensures { ReadTexts column.now place out.old result out.new }
{
    let room = out.len() / 2;
    let mut c = place;
    for i in 0..room {
        let at = 2 * i;
        let r = next_text(column, c);
        let string::Answer::Next(p, d) = r else {
            words::clear(out, at);
            let why = string::why(r);
            let refusal = told(i, why);
            return TextsRead {
                refusal,
                count: i,
                place: c,
            };
        };
        let bytes = p.bytes;
        out[at] = p.place as u64;
        out[at + 1] = bytes.0 as u64;
        c = d;
    }
    words::clear(out, 2 * room);
    TextsRead {
        refusal: Refusal {
            number: 0,
            place: 0,
        },
        count: room,
        place: c,
    }
}
