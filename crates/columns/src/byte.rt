// The byte column: a byte, then how often it stands, less one; with no byte left after it, it stands without end. 04 01 00 is 4, 4, then 0.
ghost use Rattle.std.specs.Prelude.{◌≡◌};
ghost use Rattle.columns.specs.Byte.{start_at, begun, next_byte};
ghost use Rattle.columns.specs.ByteInner.{why_byte};

use numbers::{Read, Refusal};

// The next byte, the run's first byte, its value, and how often that still stands, or that it stands without end.
#[repr(C)]
#[derive(Clone, Copy)]
pub struct Place {
    pub at: usize,
    pub from: usize,
    pub last: u8,
    pub count: u32,
    pub endless: bool,
}

#[derive(Clone, Copy)]
pub enum Answer {
    Next(u8, Place),
    Bad(Refusal),
}

// The place before a column's first value.
pub fn start(at: usize) -> Place
    ensures { result ≡ start_at at }
{
    Place {
        at,
        from: at,
        last: 0,
        count: 0,
        endless: false,
    }
}

// The run that begins at `at`, with its first value drawn.
fn next_run(column: &[u8], at: usize) -> Answer
    ensures { result ≡ begun column.now at }
{
    if column.len() <= at {
        let place = column.len();
        return Answer::Bad(Refusal { number: 1, place });
    }
    let b = column[at];
    let e = at + 1;
    if column.len() <= e {
        let run = Place {
            at: e,
            from: at,
            last: b,
            count: 0,
            endless: true,
        };
        return Answer::Next(b, run);
    }
    let k = numbers::read_unsigned(column, e);
    let Read::Number(c, f) = k else {
        return Answer::Bad(numbers::why_read(k));
    };
    if numbers::MAX_COUNT < c {
        let place = e;
        return Answer::Bad(Refusal { number: 3, place });
    }
    let left = c as u32;
    let run = Place {
        at: f,
        from: at,
        last: b,
        count: left,
        endless: false,
    };
    Answer::Next(b, run)
}

pub fn next(column: &[u8], place: Place) -> Answer
    ensures { result ≡ next_byte column.now place }
{
    let at = place.at;
    let from = place.from;
    let last = place.last;
    let count = place.count;
    if place.endless {
        return Answer::Next(last, place);
    }
    if 0 < count {
        let left = count - 1;
        return Answer::Next(
            last,
            Place {
                at,
                from,
                last,
                count: left,
                endless: false,
            },
        );
    }
    next_run(column, at)
}

// Why a read was refused, for the `else` of a `let .. else`.
pub fn why(r: Answer) -> Refusal
    ensures { result ≡ why_byte r }
{
    match r {
        Answer::Next(_, _) => Refusal {
            number: 0,
            place: 0,
        },
        Answer::Bad(w) => w,
    }
}
