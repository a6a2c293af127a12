// The listing of an update, as text in lent bytes: what the program `listing` prints.
#![tactic(auto)]

ghost use Rattle.std.specs.Prelude.{◌≡◌, ◌+◌, ◌*◌, ◌^◌, ◌≤◌, ◌<◌, length, take};
ghost use Rattle.ranges.specs.TableInner.{rows_from};
ghost use Rattle.lines.specs.LinesInner.{overlay};
ghost use Rattle.listing_text.specs.Listing.{listing};
ghost use Rattle.listed.specs.Listed.{max_text, is_empty, listed_reading, listed_update, listed, Lists};

use block::Block;
use numbers::{Refusal, Written};

// The empty update of each form.
pub const EMPTY_V1: [u8; 2] = *b"\x00\x00";

pub const EMPTY_V2: [u8; 13] = *b"\x00\x00\x00\x00\x00\x00\x01\x00\x00\x00\x00\x00\x00";

// The bytes of an input, the form byte among them.
pub const MAX_INPUT: usize = 65536;

// No listing is longer: a header, the lines of 512 blocks and of 1,024 ranges, the end.
pub const MAX_TEXT: usize = 100957;

// `MAX_TEXT` is the number of the theorem that `list`, with so many bytes lent, is always done.
pub fn max_text() -> usize
    ensures { result ≡ max_text }
{
    MAX_TEXT
}

fn is_empty(form: u8, update: &[u8]) -> bool
    ensures { result ≡ is_empty form update.now }
{
    match form {
        1 => update == &EMPTY_V1[..],
        2 => update == &EMPTY_V2[..],
        _ => false,
    }
}

// The first rows of both tables, as a whole listing.
fn put_tables(
    out: &mut [u8],
    form: u8,
    rows: &[Block],
    blocks: usize,
    words: &[u64],
    ranges: usize,
) -> usize
    requires { (blocks ≤ length rows.now) × (3 * ranges ≤ length words.now) × (93 + 71 * blocks + 63 * ranges < 2 ^ 63) }
    ensures { (result ≡ length (listing form (take blocks rows.now) (rows_from words.now 0 ranges)))
        × (out.new ≡ overlay out.old 0
        (listing form (take blocks rows.now) (rows_from words.now 0 ranges))) }
{
    let past_header = listing_text::put_header(out, 0, form, blocks, ranges);
    let past_blocks = listing_text::put_blocks(out, past_header, rows, blocks);
    let past_ranges = listing_text::put_ranges(out, past_blocks, words, ranges);
    listing_text::put_end(out, past_ranges)
}

// The lines of an update, or of its refusal.
fn put_reading(form: u8, update: &[u8], out: &mut [u8]) -> usize
    ensures { (result ≡ length (listed_reading form update.now))
        × (out.new ≡ overlay out.old 0 (listed_reading form update.now)) }
{
    let none = block::none();
    let mut table = [none; 512];
    let rows = &mut table[..];
    let mut words = [0u64; 3072];
    let ranges = &mut words[..];
    let read = updates::read_update(form, update, rows, ranges);
    let why = read.refusal;
    if why.number == 0 {
        return put_tables(out, form, rows, read.blocks, ranges, read.ranges);
    }
    listing_text::put_refused(out, 0, why)
}

fn put_update(form: u8, update: &[u8], out: &mut [u8]) -> usize
    ensures { (result ≡ length (listed_update form update.now))
        × (out.new ≡ overlay out.old 0 (listed_update form update.now)) }
{
    if is_empty(form, update) {
        return listing_text::put_empty(out, 0);
    }
    put_reading(form, update, out)
}

fn put_listed(input: &[u8], out: &mut [u8]) -> usize
    ensures { (result ≡ length (listed input.now)) × (out.new ≡ overlay out.old 0 (listed input.now)) }
{
    if MAX_INPUT < input.len() {
        return listing_text::put_refused(
            out,
            0,
            Refusal {
                number: 3,
                place: 0,
            },
        );
    }
    if input.len() == 0 {
        return listing_text::put_refused(
            out,
            0,
            Refusal {
                number: 1,
                place: 0,
            },
        );
    }
    let form = input[0];
    put_update(form, &input[1..], out)
}

// The listing of a form byte with the update after it; 10 where it does not fit.
pub fn list(input: &[u8], out: &mut [u8]) -> Written
    ensures { Lists input.now out.old result out.new }
{
    let used = put_listed(input, out);
    if out.len() < used {
        return numbers::refuse(out, 10);
    }
    numbers::finish(out, used)
}
