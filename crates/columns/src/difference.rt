// The difference column: a signed e whose half, rounded down, is added to the value before; an odd e is followed by how often, less two.
// 03 01 is 1, 2, 3; 0a 41 00 is 5, 4, 3. A difference d is kept as d + 2^31, so that it is a natural number: its key.
ghost use Rattle.std.specs.Prelude.{◌≡◌, ◌≤◌};
ghost use Rattle.numbers.specs.Number.{read_signed};
ghost use Rattle.columns.specs.Difference.{start_at, drawn, outside, key_read, begun, next_difference};
ghost use Rattle.columns.specs.DifferenceInner.{why_difference};

use numbers::{Read, Refusal, Signed};

// The next byte, the run's first byte, the value before, the difference's key, and how often it still applies.
#[repr(C)]
#[derive(Clone, Copy)]
pub struct Place {
    pub at: usize,
    pub from: usize,
    pub last: u32,
    pub key: u32,
    pub count: u32,
}

#[derive(Clone, Copy)]
pub enum Answer {
    Next(u32, Place),
    Bad(Refusal),
}

// The place before a column's first value: the base is 0.
pub fn start(at: usize) -> Place
    ensures { result ≡ start_at at }
{
    Place {
        at,
        from: at,
        last: 0,
        key: 2147483648,
        count: 0,
    }
}

// The difference is added to the value before; what it leads to must be a clock.
fn draw(c: Place) -> Answer
    requires { 1 ≤ c.count }
    ensures { result ≡ drawn c }
{
    let at = c.at;
    let from = c.from;
    let key = c.key;
    let sum = c.last as u64 + key as u64;
    if sum < 2147483648 {
        return Answer::Bad(Refusal {
            number: 3,
            place: from,
        });
    }
    let v = sum - 2147483648;
    if numbers::MAX_CLOCK < v {
        return Answer::Bad(Refusal {
            number: 3,
            place: from,
        });
    }
    let clock = v as u32;
    let left = c.count - 1;
    Answer::Next(
        clock,
        Place {
            at,
            from,
            last: clock,
            key,
            count: left,
        },
    )
}

// Whether e is outside -2^31 to 2^31-1.
fn is_outside(minus: bool, x: u64) -> bool
    ensures { result ≡ outside minus x }
{
    if minus {
        return 2147483648 < x;
    }
    2147483648 <= x
}

// The key of e/2, rounded down for minus too.
fn key_read(minus: bool, x: u64) -> u32
    requires { x ≤ 2147483648 }
    ensures { result ≡ key_read minus x }
{
    if minus {
        return (2147483648 - (x + 1) / 2) as u32;
    }
    (2147483648 + x / 2) as u32
}

// The run that begins at `at`, onto the value before.
fn next_run(column: &[u8], at: usize, last: u32) -> Answer
    ensures { result ≡ begun column.now at last (read_signed column.now at) }
{
    let r = numbers::read_signed(column, at);
    let Signed::Value(minus, x, e) = r else {
        return Answer::Bad(numbers::why_signed(r));
    };
    if is_outside(minus, x) {
        let place = at;
        return Answer::Bad(Refusal { number: 3, place });
    }
    let key = key_read(minus, x);
    if x % 2 == 0 {
        return draw(Place {
            at: e,
            from: at,
            last,
            key,
            count: 1,
        });
    }
    let k = numbers::read_unsigned(column, e);
    let Read::Number(c, f) = k else {
        return Answer::Bad(numbers::why_read(k));
    };
    if numbers::MAX_COUNT < c {
        let place = e;
        return Answer::Bad(Refusal { number: 3, place });
    }
    let times = (c + 2) as u32;
    draw(Place {
        at: f,
        from: at,
        last,
        key,
        count: times,
    })
}

pub fn next(column: &[u8], place: Place) -> Answer
    ensures { result ≡ next_difference column.now place }
{
    let at = place.at;
    let last = place.last;
    if 0 < place.count {
        return draw(place);
    }
    next_run(column, at, last)
}

// Why a read was refused, for the `else` of a `let .. else`.
pub fn why(r: Answer) -> Refusal
    ensures { result ≡ why_difference r }
{
    match r {
        Answer::Next(_, _) => Refusal {
            number: 0,
            place: 0,
        },
        Answer::Bad(w) => w,
    }
}
