// The text column: byte length, UTF-8 bytes, then a number column of unit lengths; a text takes whole characters until its units are used.
// 03 74 68 69 01 02 is "t", "hi".
#![tactic(auto)]

ghost use Rattle.std.specs.Prelude.{◌≡◌, ◌⊎◌, ◌+◌, ◌≤◌, length};
ghost use Rattle.std.proofs.Math.Seq.{slice};
ghost use Rattle.text.specs.Utf8.{take_units};
ghost use Rattle.string.specs.String.{open_text, units_taken, next_text};
ghost use Rattle.string.specs.StringInner.{TookWithin, why_text};

use columns::number;
use numbers::{Read, Refusal};
use text::{Part, Taken, Units};

// The next text's first byte, the end of all texts, and the place of the next unit length.
#[repr(C)]
#[derive(Clone, Copy)]
pub struct Place {
    pub at: usize,
    pub end: usize,
    pub units: number::Place,
}

#[derive(Clone, Copy)]
pub enum Opened {
    At(Place),
    Not(Refusal),
}

#[derive(Clone, Copy)]
pub enum Answer {
    Next(Part, Place),
    Bad(Refusal),
}

// The column that begins at `at`, opened: its text is there, and is UTF-8.
pub fn open(column: &[u8], at: usize) -> Opened
    ensures { result ≡ open_text column.now at }
{
    let r = numbers::read_unsigned(column, at);
    let Read::Number(n, e) = r else {
        return Opened::Not(numbers::why_read(r));
    };
    let left = (column.len() - e) as u64;
    if left < n {
        return Opened::Not(Refusal {
            number: 1,
            place: column.len(),
        });
    }
    let end = e + n as usize;
    if !text::check(column, e, end) {
        return Opened::Not(Refusal {
            number: 6,
            place: e,
        });
    }
    let units = number::start(end);
    Opened::At(Place { at: e, end, units })
}

fn least(a: usize, b: usize) -> usize
    ensures { (result ≤ a) × (result ≤ b) × ((result ≡ a) ⊎ (result ≡ b)) }
{
    if a < b { a } else { b }
}

// The bytes of the text of u units at `at`, among those up to `end`. A place that no reading made may lie anywhere, so it is brought within the bytes.
pub fn take_text(column: &[u8], at: usize, end: usize, u: u64) -> Taken
    ensures { (result ≡ take_units 7 u (slice at end column.now)) × TookWithin column.now at result }
{
    let to = least(end, column.len());
    let from = least(at, to);
    text::take_units(column, from, to, Units(u), 7)
}

// The same, with the place after it.
fn take(column: &[u8], at: usize, end: usize, u: u64, units: number::Place) -> Answer
    ensures { result ≡ units_taken column.now at end u units }
{
    match take_text(column, at, end, u) {
        Taken::Took(bytes) => {
            let next = at + bytes.0;
            Answer::Next(
                Part { place: at, bytes },
                Place {
                    at: next,
                    end,
                    units,
                },
            )
        }
        Taken::Refused(n) => Answer::Bad(Refusal {
            number: n,
            place: at,
        }),
    }
}

pub fn next(column: &[u8], place: Place) -> Answer
    ensures { result ≡ next_text column.now place }
{
    let at = place.at;
    let end = place.end;
    let units = place.units;
    let r = number::next(column, units);
    let number::Answer::Next(u, rest) = r else {
        return Answer::Bad(number::why(r));
    };
    take(column, at, end, u, rest)
}

// Why a read was refused, for the `else` of a `let .. else`.
pub fn why(r: Answer) -> Refusal
    ensures { result ≡ why_text r }
{
    match r {
        Answer::Next(_, _) => Refusal {
            number: 0,
            place: 0,
        },
        Answer::Bad(w) => w,
    }
}
