// The number column: a signed number, and for minus (minus zero too) how often it stands, less two. 45 00 is 5, 5; 40 03 is five zeros.
ghost use Rattle.std.specs.Prelude.{◌≡◌, ◌≤◌};
ghost use Rattle.numbers.specs.Number.{read_signed};
ghost use Rattle.columns.specs.Number.{start_at, drawn, begun, next_number};
ghost use Rattle.columns.specs.NumberInner.{why_number};

use numbers::{Read, Refusal, Signed};

// The next byte, the run's first byte, its value, and how often that still stands.
#[repr(C)]
#[derive(Clone, Copy)]
pub struct Place {
    pub at: usize,
    pub from: usize,
    pub last: u64,
    pub count: u32,
}

#[derive(Clone, Copy)]
pub enum Answer {
    Next(u64, Place),
    Bad(Refusal),
}

// The place before a column's first value.
pub fn start(at: usize) -> Place
    ensures { result ≡ start_at at }
{
    Place {
        at,
        from: at,
        last: 0,
        count: 0,
    }
}

// The value of the run under way, of which some are left; its limit is tested now.
fn draw(c: Place) -> Answer
    requires { 1 ≤ c.count }
    ensures { result ≡ drawn c }
{
    let at = c.at;
    let from = c.from;
    let last = c.last;
    if numbers::MAX_VALUE < last {
        return Answer::Bad(Refusal {
            number: 3,
            place: from,
        });
    }
    let left = c.count - 1;
    Answer::Next(
        last,
        Place {
            at,
            from,
            last,
            count: left,
        },
    )
}

// The run that begins at `at`. It stands apart, so that `next` is small.
fn next_run(column: &[u8], at: usize) -> Answer
    ensures { result ≡ begun column.now at (read_signed column.now at) }
{
    let r = numbers::read_signed(column, at);
    let Signed::Value(minus, x, e) = r else {
        return Answer::Bad(numbers::why_signed(r));
    };
    if !minus {
        return draw(Place {
            at: e,
            from: at,
            last: x,
            count: 1,
        });
    }
    let k = numbers::read_unsigned(column, e);
    let Read::Number(c, f) = k else {
        return Answer::Bad(numbers::why_read(k));
    };
    if numbers::MAX_COUNT < c {
        return Answer::Bad(Refusal {
            number: 3,
            place: e,
        });
    }
    let times = (c + 2) as u32;
    draw(Place {
        at: f,
        from: at,
        last: x,
        count: times,
    })
}

pub fn next(column: &[u8], place: Place) -> Answer
    ensures { result ≡ next_number column.now place }
{
    let at = place.at;
    if 0 < place.count {
        return draw(place);
    }
    next_run(column, at)
}

// Why a read was refused, for the `else` of a `let .. else`.
pub fn why(r: Answer) -> Refusal
    ensures { result ≡ why_number r }
{
    match r {
        Answer::Next(_, _) => Refusal {
            number: 0,
            place: 0,
        },
        Answer::Bad(w) => w,
    }
}
