// Column readers: a column's bytes with a place in them. A read answers and moves the reader on; a refused read changes nothing in it.
// One reader serves the four columns: its place says which one it is in. All is decided by value, in `begin` and `step_of`.
#![tactic(auto)]

ghost use Rattle.std.specs.Prelude.{◌≡◌};
ghost use Rattle.columns.specs.Number.{next_number};
ghost use Rattle.columns.specs.Difference.{next_difference};
ghost use Rattle.columns.specs.Byte.{next_byte};
ghost use Rattle.string.specs.String.{open_text, next_text};
ghost use Rattle.readers.specs.Readers.{valued, refused, text_start, start_of, number_step, difference_step, byte_step, text_step, step_of};
ghost use Rattle.readers.specs.Promises.{Open, Next};

use columns::{byte, difference, number};
use numbers::Refusal;
use text::{Bytes, Part};

#[derive(Clone, Copy)]
pub enum Kind {
    Number,
    Difference,
    Byte,
    Text,
}

// A place in a column, by its kind.
#[derive(Clone, Copy)]
pub enum Place {
    Number(number::Place),
    Difference(difference::Place),
    Byte(byte::Place),
    Text(string::Place),
}

#[derive(Clone, Copy)]
pub struct Column<'a> {
    pub bytes: &'a [u8],
    pub place: Place,
}

#[derive(Clone, Copy)]
pub struct Opened<'a> {
    pub refusal: Refusal,
    pub column: Column<'a>,
}

// The value that was read, or where in the column the text lies that was read; the other is zero.
#[derive(Clone, Copy)]
pub struct Answer {
    pub refusal: Refusal,
    pub value: u64,
    pub part: Part,
}

// ---- by value

fn value_of(value: u64) -> Answer
    ensures { result ≡ valued value }
{
    Answer {
        refusal: Refusal {
            number: 0,
            place: 0,
        },
        value,
        part: Part {
            place: 0,
            bytes: Bytes(0),
        },
    }
}

fn refuse(why: Refusal) -> Answer
    ensures { result ≡ refused why }
{
    Answer {
        refusal: why,
        value: 0,
        part: Part {
            place: 0,
            bytes: Bytes(0),
        },
    }
}

#[derive(Clone, Copy)]
pub struct Start {
    pub refusal: Refusal,
    pub place: Place,
}

// A text column alone can be refused here; it stands at its end then, so that every read says 1.
fn begin_text(column: &[u8]) -> Start
    ensures { result ≡ text_start column.now (open_text column.now 0) }
{
    match string::open(column, 0) {
        string::Opened::At(first) => Start {
            refusal: Refusal {
                number: 0,
                place: 0,
            },
            place: Place::Text(first),
        },
        string::Opened::Not(why) => {
            let end = column.len();
            let units = number::start(end);
            let shut = string::Place {
                at: end,
                end,
                units,
            };
            Start {
                refusal: why,
                place: Place::Text(shut),
            }
        }
    }
}

// The place before a column's first value.
fn begin(column: &[u8], kind: Kind) -> Start
    ensures { result ≡ start_of column.now kind }
{
    match kind {
        Kind::Number => {
            let first = number::start(0);
            Start {
                refusal: Refusal {
                    number: 0,
                    place: 0,
                },
                place: Place::Number(first),
            }
        }
        Kind::Difference => {
            let first = difference::start(0);
            Start {
                refusal: Refusal {
                    number: 0,
                    place: 0,
                },
                place: Place::Difference(first),
            }
        }
        Kind::Byte => {
            let first = byte::start(0);
            Start {
                refusal: Refusal {
                    number: 0,
                    place: 0,
                },
                place: Place::Byte(first),
            }
        }
        Kind::Text => begin_text(column),
    }
}

// An answer, and the place after it: the same place where the read is refused.
#[derive(Clone, Copy)]
pub struct Step {
    pub place: Place,
    pub answer: Answer,
}

fn number_step(column: &[u8], place: number::Place) -> Step
    ensures { result ≡ number_step place (next_number column.now place) }
{
    match number::next(column, place) {
        number::Answer::Next(value, after) => {
            let answer = value_of(value);
            Step {
                place: Place::Number(after),
                answer,
            }
        }
        number::Answer::Bad(why) => {
            let answer = refuse(why);
            Step {
                place: Place::Number(place),
                answer,
            }
        }
    }
}

fn difference_step(column: &[u8], place: difference::Place) -> Step
    ensures { result ≡ difference_step place (next_difference column.now place) }
{
    match difference::next(column, place) {
        difference::Answer::Next(value, after) => {
            let answer = value_of(value as u64);
            Step {
                place: Place::Difference(after),
                answer,
            }
        }
        difference::Answer::Bad(why) => {
            let answer = refuse(why);
            Step {
                place: Place::Difference(place),
                answer,
            }
        }
    }
}

fn byte_step(column: &[u8], place: byte::Place) -> Step
    ensures { result ≡ byte_step place (next_byte column.now place) }
{
    match byte::next(column, place) {
        byte::Answer::Next(value, after) => {
            let answer = value_of(value as u64);
            Step {
                place: Place::Byte(after),
                answer,
            }
        }
        byte::Answer::Bad(why) => {
            let answer = refuse(why);
            Step {
                place: Place::Byte(place),
                answer,
            }
        }
    }
}

fn text_step(column: &[u8], place: string::Place) -> Step
    ensures { result ≡ text_step place (next_text column.now place) }
{
    match string::next(column, place) {
        string::Answer::Next(part, after) => Step {
            place: Place::Text(after),
            answer: Answer {
                refusal: Refusal {
                    number: 0,
                    place: 0,
                },
                value: 0,
                part,
            },
        },
        string::Answer::Bad(why) => {
            let answer = refuse(why);
            Step {
                place: Place::Text(place),
                answer,
            }
        }
    }
}

fn step_of(column: &[u8], place: Place) -> Step
    ensures { result ≡ step_of column.now place }
{
    match place {
        Place::Number(p) => number_step(column, p),
        Place::Difference(p) => difference_step(column, p),
        Place::Byte(p) => byte_step(column, p),
        Place::Text(p) => text_step(column, p),
    }
}

// ---- the reader

// A reader of one whole column, before its first value. What is not a text column is never refused.
pub fn open<'a>(bytes: &'a [u8], kind: Kind) -> Opened<'a>
    ensures { Open bytes.entry kind result }
{
    let s = begin(bytes, kind);
    Opened {
        refusal: s.refusal,
        column: Column {
            bytes,
            place: s.place,
        },
    }
}

// The next value; after a refusal, the same refusal again.
pub fn next<'s, 'a>(column: &'s mut Column<'a>) -> Answer
    ensures { Next column.old result column.new }
{
    let s = step_of(column.bytes, column.place);
    column.place = s.place;
    s.answer
}

// ---- for callers that keep the bytes and a place: what these lend and give back is plain, so whoever calls them needs no proof by hand

// Where a reader stands that was opened on these bytes, and the refusal of its opening.
pub fn open_at(bytes: &[u8], kind: Kind) -> Start
    ensures { result ≡ start_of bytes.now kind }
{
    let opened = open(bytes, kind);
    Start {
        refusal: opened.refusal,
        place: opened.column.place,
    }
}

// A read of a reader that stands at this place: where it stands then, and its answer.
pub fn next_at(bytes: &[u8], place: Place) -> Step
    ensures { result ≡ step_of bytes.now place }
{
    let mut column = Column { bytes, place };
    let answer = next(&mut column);
    Step {
        place: column.place,
        answer,
    }
}
