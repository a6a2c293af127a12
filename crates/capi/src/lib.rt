// The C interface: each public call under its name with `wairokabi_` before it, and with its promise. include/wairokabi.h says the same in C.
#![tactic(auto)]

ghost use Rattle.std.specs.Prelude.{◌≡◌};
ghost use Rattle.wairokabi.specs.Promises.{ReadUnsigned, ReadSigned, WriteUnsigned, WriteSigned, CountUnits, TakeText, CutText, OpenNumbers, NextNumber, OpenDifferences, NextDifference, OpenBytes, NextByte, OpenText, NextText, WriteNumbers, WriteDifferences, WriteBytes, WriteTexts, ReadStateVector};
ghost use Rattle.bulk.specs.Promises.{ReadNumbers, ReadDifferences, ReadBytes, ReadTexts};
ghost use Rattle.updates.specs.Promises.{ReadUpdate};
ghost use Rattle.strict.specs.Promises.{ReadStrictly};
ghost use Rattle.contents.specs.Promises.{where_of};
ghost use Rattle.explains.specs.Promises.{Explains};
ghost use Rattle.listed.specs.Listed.{Lists};
ghost use Rattle.diffs.specs.Promises.{Diffs, empty_vector};
ghost use Rattle.sorts.specs.Promises.{SortUpdate};
ghost use Rattle.slow_sorts.specs.Promises.{SortSlowly};
ghost use Rattle.held_sorts.specs.Promises.{SortUpdateHeld};
ghost use Rattle.slow_held_sorts.specs.Promises.{SortHeldSlowly};
ghost use Rattle.summaries.specs.Promises.{WriteSummary, ReadSummary};

use block::Block;
use bulk::{BytesRead, DifferencesRead, NumbersRead, TextsRead};
use columns::{byte, difference, number};
use contents::Where;
use diffs::Diff;
use explains::Explained;
use held_answers::SortedHeld;
use numbers::Written;
use sort_answers::Sorted;
use summaries::{Summarized, SummaryRows};
use text::Units;
use updates::Update;
use vector::Vector;
use wairokabi::{
    ByteNext, Counted, Cut, DifferenceNext, NumberNext, Signed, TextNext, TextOpened, Unsigned,
};

// ---- updates

#[unsafe(no_mangle)]
pub extern "C" fn wairokabi_read_update(
    form: u8,
    update: &[u8],
    rows: &mut [Block],
    ranges: &mut [u64],
) -> Update
    ensures { ReadUpdate form update.now rows.old ranges.old result rows.new ranges.new }
{
    updates::read_update(form, update, rows, ranges)
}

#[unsafe(no_mangle)]
pub extern "C" fn wairokabi_read_update_strict(
    form: u8,
    update: &[u8],
    rows: &mut [Block],
    ranges: &mut [u64],
) -> Update
    ensures { ReadStrictly form update.now rows.old ranges.old result rows.new ranges.new }
{
    strict::read_update_strict(form, update, rows, ranges)
}

// Where the part lies that `content` hands back: C cannot be handed a part of the update itself.
#[unsafe(no_mangle)]
pub extern "C" fn wairokabi_content(form: u8, update: &[u8], n: usize) -> Where
    ensures { result ≡ where_of form update.now n }
{
    contents::look(form, update, n)
}

#[unsafe(no_mangle)]
pub extern "C" fn wairokabi_explain(form: u8, update: &[u8], n: usize, out: &mut [u64]) -> Explained
    ensures { Explains form update.now n out.old result out.new }
{
    explains::explain(form, update, n, out)
}

#[unsafe(no_mangle)]
pub extern "C" fn wairokabi_encode_diff(
    form: u8,
    update: &[u8],
    vector: &[u8],
    to: u8,
    rows: &mut [Block],
    ranges: &mut [u64],
    out: &mut [u8],
) -> Diff
    ensures { Diffs form update.now vector.now to rows.old ranges.old out.old
        result rows.new ranges.new out.new }
{
    diffs::encode_diff(form, update, vector, to, rows, ranges, out)
}

#[unsafe(no_mangle)]
pub extern "C" fn wairokabi_encode_update(
    form: u8,
    update: &[u8],
    to: u8,
    rows: &mut [Block],
    ranges: &mut [u64],
    out: &mut [u8],
) -> Diff
    ensures { Diffs form update.now empty_vector to rows.old ranges.old out.old
        result rows.new ranges.new out.new }
{
    diffs::encode_update(form, update, to, rows, ranges, out)
}

#[unsafe(no_mangle)]
pub extern "C" fn wairokabi_sort(
    rule: u8,
    form: u8,
    update: &[u8],
    vector: &[u8],
    rows: &mut [Block],
    ranges: &mut [u64],
    order: &mut [u64],
    counts: &mut [u64],
    reaches: &mut [u64],
    pending: &mut [u64],
) -> Sorted
    ensures { SortUpdate rule form update.now vector.now rows.old ranges.old order.old
        counts.old reaches.old pending.old
        result rows.new ranges.new order.new counts.new reaches.new pending.new }
{
    sorts::sort(
        rule, form, update, vector, rows, ranges, order, counts, reaches, pending,
    )
}

#[unsafe(no_mangle)]
pub extern "C" fn wairokabi_sort_slowly(
    rule: u8,
    form: u8,
    update: &[u8],
    vector: &[u8],
    rows: &mut [Block],
    ranges: &mut [u64],
    order: &mut [u64],
    counts: &mut [u64],
    reaches: &mut [u64],
    pending: &mut [u64],
) -> Sorted
    ensures { SortSlowly rule form update.now vector.now rows.old ranges.old order.old
        counts.old reaches.old pending.old
        result rows.new ranges.new order.new counts.new reaches.new pending.new }
{
    slow_sorts::sort_slowly(
        rule, form, update, vector, rows, ranges, order, counts, reaches, pending,
    )
}

#[unsafe(no_mangle)]
pub extern "C" fn wairokabi_sort_held(
    form: u8,
    update: &[u8],
    held: &[u8],
    rows: &mut [Block],
    ranges: &mut [u64],
    given: &mut [u64],
    order: &mut [u64],
    counts: &mut [u64],
    pending: &mut [u64],
) -> SortedHeld
    ensures { SortUpdateHeld form update.now held.now rows.old ranges.old given.old
        order.old counts.old pending.old result rows.new ranges.new given.new
        order.new counts.new pending.new }
{
    held_sorts::sort_held(
        form, update, held, rows, ranges, given, order, counts, pending,
    )
}

#[unsafe(no_mangle)]
pub extern "C" fn wairokabi_sort_held_slowly(
    form: u8,
    update: &[u8],
    held: &[u8],
    rows: &mut [Block],
    ranges: &mut [u64],
    given: &mut [u64],
    order: &mut [u64],
    counts: &mut [u64],
    pending: &mut [u64],
) -> SortedHeld
    ensures { SortHeldSlowly form update.now held.now rows.old ranges.old given.old
        order.old counts.old pending.old result rows.new ranges.new given.new
        order.new counts.new pending.new }
{
    slow_held_sorts::sort_held_slowly(
        form, update, held, rows, ranges, given, order, counts, pending,
    )
}

#[unsafe(no_mangle)]
pub extern "C" fn wairokabi_list(input: &[u8], out: &mut [u8]) -> Written
    ensures { Lists input.now out.old result out.new }
{
    listed::list(input, out)
}

#[unsafe(no_mangle)]
pub extern "C" fn wairokabi_read_state_vector(vector: &[u8], out: &mut [u64]) -> Vector
    ensures { ReadStateVector vector.now out.old result out.new }
{
    wairokabi::read_state_vector(vector, out)
}

// ---- summaries

#[unsafe(no_mangle)]
pub extern "C" fn wairokabi_write_summary(form: u8, update: &[u8], out: &mut [u8]) -> Summarized
    ensures { WriteSummary form update.now out.old result out.new }
{
    summaries::write_summary(form, update, out)
}

#[unsafe(no_mangle)]
pub extern "C" fn wairokabi_read_summary(bytes: &[u8], rows: &mut [u64]) -> SummaryRows
    ensures { ReadSummary bytes.now rows.old result rows.new }
{
    summaries::read_summary(bytes, rows)
}

// ---- numbers

#[unsafe(no_mangle)]
pub extern "C" fn wairokabi_read_unsigned(s: &[u8], at: usize) -> Unsigned
    ensures { ReadUnsigned s.now at result }
{
    wairokabi::read_unsigned(s, at)
}

#[unsafe(no_mangle)]
pub extern "C" fn wairokabi_read_signed(s: &[u8], at: usize) -> Signed
    ensures { ReadSigned s.now at result }
{
    wairokabi::read_signed(s, at)
}

#[unsafe(no_mangle)]
pub extern "C" fn wairokabi_write_unsigned(out: &mut [u8], value: u64) -> Written
    ensures { WriteUnsigned out.old value result out.new }
{
    wairokabi::write_unsigned(out, value)
}

#[unsafe(no_mangle)]
pub extern "C" fn wairokabi_write_signed(out: &mut [u8], minus: bool, magnitude: u64) -> Written
    ensures { WriteSigned out.old minus magnitude result out.new }
{
    wairokabi::write_signed(out, minus, magnitude)
}

// ---- text

#[unsafe(no_mangle)]
pub extern "C" fn wairokabi_count_units(text: &[u8]) -> Counted
    ensures { CountUnits text.now result }
{
    wairokabi::count_units(text)
}

#[unsafe(no_mangle)]
pub extern "C" fn wairokabi_take_text(text: &[u8], at: usize, units: Units) -> Cut
    ensures { TakeText text.now at units result }
{
    wairokabi::take_text(text, at, units)
}

#[unsafe(no_mangle)]
pub extern "C" fn wairokabi_cut_text(text: &[u8], units: Units) -> Cut
    ensures { CutText text.now units result }
{
    wairokabi::cut_text(text, units)
}

// ---- columns, read

#[unsafe(no_mangle)]
pub extern "C" fn wairokabi_open_numbers(at: usize) -> number::Place
    ensures { OpenNumbers at result }
{
    wairokabi::open_numbers(at)
}

#[unsafe(no_mangle)]
pub extern "C" fn wairokabi_next_number(column: &[u8], place: number::Place) -> NumberNext
    ensures { NextNumber column.now place result }
{
    wairokabi::next_number(column, place)
}

#[unsafe(no_mangle)]
pub extern "C" fn wairokabi_open_differences(at: usize) -> difference::Place
    ensures { OpenDifferences at result }
{
    wairokabi::open_differences(at)
}

#[unsafe(no_mangle)]
pub extern "C" fn wairokabi_next_difference(
    column: &[u8],
    place: difference::Place,
) -> DifferenceNext
    ensures { NextDifference column.now place result }
{
    wairokabi::next_difference(column, place)
}

#[unsafe(no_mangle)]
pub extern "C" fn wairokabi_open_bytes(at: usize) -> byte::Place
    ensures { OpenBytes at result }
{
    wairokabi::open_bytes(at)
}

#[unsafe(no_mangle)]
pub extern "C" fn wairokabi_next_byte(column: &[u8], place: byte::Place) -> ByteNext
    ensures { NextByte column.now place result }
{
    wairokabi::next_byte(column, place)
}

#[unsafe(no_mangle)]
pub extern "C" fn wairokabi_open_text(column: &[u8], at: usize) -> TextOpened
    ensures { OpenText column.now at result }
{
    wairokabi::open_text(column, at)
}

#[unsafe(no_mangle)]
pub extern "C" fn wairokabi_next_text(column: &[u8], place: string::Place) -> TextNext
    ensures { NextText column.now place result }
{
    wairokabi::next_text(column, place)
}

// ---- columns in bulk

#[unsafe(no_mangle)]
pub extern "C" fn wairokabi_read_numbers(
    column: &[u8],
    place: number::Place,
    out: &mut [u64],
) -> NumbersRead
    ensures { ReadNumbers column.now place out.old result out.new }
{
    bulk::read_numbers(column, place, out)
}

#[unsafe(no_mangle)]
pub extern "C" fn wairokabi_read_differences(
    column: &[u8],
    place: difference::Place,
    out: &mut [u64],
) -> DifferencesRead
    ensures { ReadDifferences column.now place out.old result out.new }
{
    bulk::read_differences(column, place, out)
}

#[unsafe(no_mangle)]
pub extern "C" fn wairokabi_read_bytes(
    column: &[u8],
    place: byte::Place,
    out: &mut [u8],
) -> BytesRead
    ensures { ReadBytes column.now place out.old result out.new }
{
    bulk::read_bytes(column, place, out)
}

#[unsafe(no_mangle)]
pub extern "C" fn wairokabi_read_texts(
    column: &[u8],
    place: string::Place,
    out: &mut [u64],
) -> TextsRead
    ensures { ReadTexts column.now place out.old result out.new }
{
    bulk::read_texts(column, place, out)
}

// ---- columns, written

#[unsafe(no_mangle)]
pub extern "C" fn wairokabi_write_numbers(out: &mut [u8], values: &[u64]) -> Written
    ensures { WriteNumbers out.old values.now result out.new }
{
    wairokabi::write_numbers(out, values)
}

#[unsafe(no_mangle)]
pub extern "C" fn wairokabi_write_differences(out: &mut [u8], values: &[u64]) -> Written
    ensures { WriteDifferences out.old values.now result out.new }
{
    wairokabi::write_differences(out, values)
}

#[unsafe(no_mangle)]
pub extern "C" fn wairokabi_write_bytes(out: &mut [u8], values: &[u8]) -> Written
    ensures { WriteBytes out.old values.now result out.new }
{
    wairokabi::write_bytes(out, values)
}

#[unsafe(no_mangle)]
pub extern "C" fn wairokabi_write_texts(out: &mut [u8], text: &[u8], units: &[u64]) -> Written
    ensures { WriteTexts out.old text.now units.now result out.new }
{
    wairokabi::write_texts(out, text, units)
}
