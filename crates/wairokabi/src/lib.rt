// The public calls. None asks anything of its caller: any bytes, any place, any number is answered. An answer of reading begins with its refusal, the
// number in document 01 and the byte that is blamed, zeros for done; any other with its number. A refusal has zeros for values and leaves zeros in what
// was lent, and a refused `next_..` gives back its place.
#![tactic(auto)]

ghost use Rattle.wairokabi.specs.Promises.{ReadUnsigned, ReadSigned, WriteUnsigned, WriteSigned, CountUnits, TakeText, CutText, OpenNumbers, NextNumber, OpenDifferences, NextDifference, OpenBytes, NextByte, OpenText, NextText, WriteNumbers, WriteDifferences, WriteBytes, WriteTexts, ReadStateVector, refused_cut, cut_answer};
ghost use Rattle.std.specs.Prelude.{◌≡◌};

use columns::{byte, difference, number};
use numbers::{Read, Refusal, Written};
use text::{Bytes, Part, Taken, Units};
use vector::Vector;

// ---- numbers

#[repr(C)]
#[derive(Clone, Copy)]
pub struct Unsigned {
    pub refusal: Refusal,
    pub value: u64,
    pub next: usize,
}

pub fn read_unsigned(s: &[u8], at: usize) -> Unsigned
    ensures { ReadUnsigned s.now at result }
{
    match numbers::read_unsigned(s, at) {
        Read::Number(value, next) => Unsigned {
            refusal: Refusal {
                number: 0,
                place: 0,
            },
            value,
            next,
        },
        Read::Refused(why) => Unsigned {
            refusal: why,
            value: 0,
            next: 0,
        },
    }
}

// A sign and a size: minus zero keeps its minus.
#[repr(C)]
#[derive(Clone, Copy)]
pub struct Signed {
    pub refusal: Refusal,
    pub minus: bool,
    pub magnitude: u64,
    pub next: usize,
}

pub fn read_signed(s: &[u8], at: usize) -> Signed
    ensures { ReadSigned s.now at result }
{
    match numbers::read_signed(s, at) {
        numbers::Signed::Value(minus, magnitude, next) => Signed {
            refusal: Refusal {
                number: 0,
                place: 0,
            },
            minus,
            magnitude,
            next,
        },
        numbers::Signed::Wrong(why) => Signed {
            refusal: why,
            minus: false,
            magnitude: 0,
            next: 0,
        },
    }
}

pub fn write_unsigned(out: &mut [u8], value: u64) -> Written
    ensures { WriteUnsigned out.old value result out.new }
{
    if numbers::MAX_UNSIGNED < value {
        return numbers::refuse(out, 3);
    }
    let size = numbers::size_unsigned(value);
    if out.len() < size {
        return numbers::refuse(out, 10);
    }
    let end = numbers::write_unsigned(out, 0, value);
    numbers::finish(out, end)
}

pub fn write_signed(out: &mut [u8], minus: bool, magnitude: u64) -> Written
    ensures { WriteSigned out.old minus magnitude result out.new }
{
    if numbers::MAX_SIGNED < magnitude {
        return numbers::refuse(out, 3);
    }
    let size = numbers::size_signed(magnitude);
    if out.len() < size {
        return numbers::refuse(out, 10);
    }
    let end = numbers::write_signed(out, 0, minus, magnitude);
    numbers::finish(out, end)
}

// ---- text

#[repr(C)]
#[derive(Clone, Copy)]
pub struct Counted {
    pub number: u8,
    pub units: Units,
}

// How many UTF-16 units a text has; 6 where it is not UTF-8.
pub fn count_units(text: &[u8]) -> Counted
    ensures { CountUnits text.now result }
{
    let c = text::count_units(text, 0, text.len());
    let units = c.units;
    if c.whole {
        return Counted { number: 0, units };
    }
    Counted {
        number: 6,
        units: Units(0),
    }
}

#[repr(C)]
#[derive(Clone, Copy)]
pub struct Cut {
    pub number: u8,
    pub bytes: Bytes,
}

fn refused_cut(number: u8) -> Cut
    ensures { result ≡ refused_cut number }
{
    Cut {
        number,
        bytes: Bytes(0),
    }
}

fn cut_of(t: Taken) -> Cut
    ensures { result ≡ cut_answer t }
{
    match t {
        Taken::Took(bytes) => Cut { number: 0, bytes },
        Taken::Refused(number) => refused_cut(number),
    }
}

// How many bytes the text of so many units at a place takes; 7 where they run past the text or end in a pair.
pub fn take_text(text: &[u8], at: usize, units: Units) -> Cut
    ensures { TakeText text.now at units result }
{
    if text.len() <= at {
        return cut_of(text::take_units(text, text.len(), text.len(), units, 7));
    }
    cut_of(text::take_units(text, at, text.len(), units, 7))
}

// Where a text is cut after so many units; 6 where it is not UTF-8, 7 where they run past it, 9 where they end in a pair. What was taken is
// UTF-8, so only what follows it is checked.
pub fn cut_text(text: &[u8], units: Units) -> Cut
    ensures { CutText text.now units result }
{
    match text::take_units(text, 0, text.len(), units, 9) {
        Taken::Took(bytes) => {
            let from = bytes.0;
            if !text::check(text, from, text.len()) {
                return refused_cut(6);
            }
            Cut { number: 0, bytes }
        }
        Taken::Refused(number) => {
            if !text::check(text, 0, text.len()) {
                return refused_cut(6);
            }
            refused_cut(number)
        }
    }
}

// ---- columns, read: a place by value, and the place after; a refused read gives back the place it was given

pub fn open_numbers(at: usize) -> number::Place
    ensures { OpenNumbers at result }
{
    number::start(at)
}

#[repr(C)]
#[derive(Clone, Copy)]
pub struct NumberNext {
    pub refusal: Refusal,
    pub value: u64,
    pub place: number::Place,
}

pub fn next_number(column: &[u8], place: number::Place) -> NumberNext
    ensures { NextNumber column.now place result }
{
    match number::next(column, place) {
        number::Answer::Next(value, after) => NumberNext {
            refusal: Refusal {
                number: 0,
                place: 0,
            },
            value,
            place: after,
        },
        number::Answer::Bad(why) => NumberNext {
            refusal: why,
            value: 0,
            place,
        },
    }
}

pub fn open_differences(at: usize) -> difference::Place
    ensures { OpenDifferences at result }
{
    difference::start(at)
}

#[repr(C)]
#[derive(Clone, Copy)]
pub struct DifferenceNext {
    pub refusal: Refusal,
    pub value: u32,
    pub place: difference::Place,
}

pub fn next_difference(column: &[u8], place: difference::Place) -> DifferenceNext
    ensures { NextDifference column.now place result }
{
    match difference::next(column, place) {
        difference::Answer::Next(value, after) => DifferenceNext {
            refusal: Refusal {
                number: 0,
                place: 0,
            },
            value,
            place: after,
        },
        difference::Answer::Bad(why) => DifferenceNext {
            refusal: why,
            value: 0,
            place,
        },
    }
}

pub fn open_bytes(at: usize) -> byte::Place
    ensures { OpenBytes at result }
{
    byte::start(at)
}

#[repr(C)]
#[derive(Clone, Copy)]
pub struct ByteNext {
    pub refusal: Refusal,
    pub value: u8,
    pub place: byte::Place,
}

pub fn next_byte(column: &[u8], place: byte::Place) -> ByteNext
    ensures { NextByte column.now place result }
{
    match byte::next(column, place) {
        byte::Answer::Next(value, after) => ByteNext {
            refusal: Refusal {
                number: 0,
                place: 0,
            },
            value,
            place: after,
        },
        byte::Answer::Bad(why) => ByteNext {
            refusal: why,
            value: 0,
            place,
        },
    }
}

#[repr(C)]
#[derive(Clone, Copy)]
pub struct TextOpened {
    pub refusal: Refusal,
    pub place: string::Place,
}

// A refused opening stands at the end of the column: every read from there says 1.
pub fn open_text(column: &[u8], at: usize) -> TextOpened
    ensures { OpenText column.now at result }
{
    match string::open(column, at) {
        string::Opened::At(place) => TextOpened {
            refusal: Refusal {
                number: 0,
                place: 0,
            },
            place,
        },
        string::Opened::Not(why) => {
            let end = column.len();
            let units = number::start(end);
            let shut = string::Place {
                at: end,
                end,
                units,
            };
            TextOpened {
                refusal: why,
                place: shut,
            }
        }
    }
}

#[repr(C)]
#[derive(Clone, Copy)]
pub struct TextNext {
    pub refusal: Refusal,
    pub part: Part,
    pub place: string::Place,
}

pub fn next_text(column: &[u8], place: string::Place) -> TextNext
    ensures { NextText column.now place result }
{
    match string::next(column, place) {
        string::Answer::Next(part, after) => TextNext {
            refusal: Refusal {
                number: 0,
                place: 0,
            },
            part,
            place: after,
        },
        string::Answer::Bad(why) => TextNext {
            refusal: why,
            part: Part {
                place: 0,
                bytes: Bytes(0),
            },
            place,
        },
    }
}

// ---- columns, written

pub fn write_numbers(out: &mut [u8], values: &[u64]) -> Written
    ensures { WriteNumbers out.old values.now result out.new }
{
    once::write_numbers(out, values)
}

pub fn write_differences(out: &mut [u8], values: &[u64]) -> Written
    ensures { WriteDifferences out.old values.now result out.new }
{
    once::write_differences(out, values)
}

pub fn write_bytes(out: &mut [u8], values: &[u8]) -> Written
    ensures { WriteBytes out.old values.now result out.new }
{
    once::write_bytes(out, values)
}

pub fn write_texts(out: &mut [u8], text: &[u8], units: &[u64]) -> Written
    ensures { WriteTexts out.old text.now units.now result out.new }
{
    once::write_texts(out, text, units)
}

// ---- state vectors

// The entries in reading order, two words each: client, clock.
pub fn read_state_vector(vector: &[u8], out: &mut [u64]) -> Vector
    ensures { ReadStateVector vector.now out.old result out.new }
{
    vector::read_state_vector(vector, out)
}
