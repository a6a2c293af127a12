// The lines of a listing, put into lent bytes: each call takes how many bytes the text has so far and gives how many it has then.
#![tactic(auto)]

ghost use Rattle.std.specs.Prelude.{◌≡◌, ◌+◌, ◌*◌, ◌^◌, ◌≤◌, ◌<◌, length, take};
ghost use Rattle.ranges.specs.Table.{range};
ghost use Rattle.ranges.specs.TableInner.{rows_from};
ghost use Rattle.lines.specs.LinesInner.{overlay};
ghost use Rattle.listing_text.specs.Listing.{number_then, named, kind_name, block_line, block_lines, range_line, range_lines};
ghost use Rattle.listing_text.specs.Listing.{header, end_line, empty_line, refused_line};

use block::Block;
use lines::{put_byte, put_decimal, put_text};
use numbers::Refusal;

// A number with the byte that ends it.
fn put_number(out: &mut [u8], used: usize, v: u64, end: u8) -> usize
    requires { used + 21 < 2 ^ 63 }
    ensures { (result ≡ used + length (number_then v end)) × (out.new ≡ overlay out.old used (number_then v end)) }
{
    let at = put_decimal(out, used, v);
    put_byte(out, at, end)
}

// A word before it.
fn put_named(out: &mut [u8], used: usize, word: &[u8], v: u64, end: u8) -> usize
    requires { used + length word.now + 21 < 2 ^ 63 }
    ensures { (result ≡ used + length (named word.now v end))
        × (out.new ≡ overlay out.old used (named word.now v end)) }
{
    let at = put_text(out, used, word);
    put_number(out, at, v, end)
}

fn put_kind(out: &mut [u8], used: usize, kind: u8) -> usize
    requires { used + 7 < 2 ^ 63 }
    ensures { (result ≡ used + length (kind_name kind)) × (out.new ≡ overlay out.old used (kind_name kind)) }
{
    match kind {
        block::GC => put_text(out, used, b"gc"),
        block::SKIP => put_text(out, used, b"skip"),
        block::DELETED => put_text(out, used, b"deleted"),
        block::BINARY => put_text(out, used, b"binary"),
        block::TEXT => put_text(out, used, b"text"),
        block::FORMAT => put_text(out, used, b"format"),
        block::TYPE => put_text(out, used, b"type"),
        block::ANY => put_text(out, used, b"any"),
        _ => used,
    }
}

pub fn put_block(out: &mut [u8], used: usize, b: Block) -> usize
    requires { used + 71 < 2 ^ 63 }
    ensures { (result ≡ used + length (block_line b)) × (out.new ≡ overlay out.old used (block_line b)) }
{
    let units = b.length;
    let past_client = put_number(out, used, b.client, b' ');
    let past_clock = put_number(out, past_client, b.clock as u64, b' ');
    let past_length = put_number(out, past_clock, units.0 as u64, b' ');
    let past_kind = put_kind(out, past_length, b.kind);
    put_byte(out, past_kind, b'\n')
}

pub fn put_range(out: &mut [u8], used: usize, client: u64, clock: u64, len: u64) -> usize
    requires { used + 63 < 2 ^ 63 }
    ensures { (result ≡ used + length (range_line (range client clock len)))
        × (out.new ≡ overlay out.old used (range_line (range client clock len))) }
{
    let past_client = put_number(out, used, client, b' ');
    let past_clock = put_number(out, past_client, clock, b' ');
    put_number(out, past_clock, len, b'\n')
}

// The first n of ranges that are lent as words, three a row.
pub fn put_ranges(out: &mut [u8], used: usize, words: &[u64], n: usize) -> usize
    requires { (used + 63 * n < 2 ^ 63) × (3 * n ≤ length words.now) }
    ensures { (result ≡ used + length (range_lines (rows_from words.now 0 n)))
        × (out.new ≡ overlay out.old used (range_lines (rows_from words.now 0 n))) }
{
    let mut at = used;
    for i in 0..n {
        let first = 3 * i;
        let client = words[first];
        let clock = words[first + 1];
        let len = words[first + 2];
        at = put_range(out, at, client, clock, len);
    }
    at
}

pub fn put_header(out: &mut [u8], used: usize, form: u8, blocks: usize, ranges: usize) -> usize
    requires { used + 89 < 2 ^ 63 }
    ensures { (result ≡ used + length (header form blocks ranges)) × (out.new ≡ overlay out.old used (header form blocks ranges)) }
{
    let past_form = put_named(out, used, b"update form ", form as u64, b' ');
    let past_blocks = put_named(out, past_form, b"blocks ", blocks as u64, b' ');
    put_named(out, past_blocks, b"ranges ", ranges as u64, b'\n')
}

pub fn put_end(out: &mut [u8], used: usize) -> usize
    requires { used + 4 < 2 ^ 63 }
    ensures { (result ≡ used + length end_line) × (out.new ≡ overlay out.old used end_line) }
{
    put_text(out, used, b"end\n")
}

pub fn put_empty(out: &mut [u8], used: usize) -> usize
    requires { used + 6 < 2 ^ 63 }
    ensures { (result ≡ used + length empty_line) × (out.new ≡ overlay out.old used empty_line) }
{
    put_text(out, used, b"empty\n")
}

// The number and the byte that is blamed.
pub fn put_refused(out: &mut [u8], used: usize, why: Refusal) -> usize
    requires { used + 53 < 2 ^ 63 }
    ensures { (result ≡ used + length (refused_line why)) × (out.new ≡ overlay out.old used (refused_line why)) }
{
    let past_number = put_named(out, used, b"refused ", why.number as u64, b' ');
    put_named(out, past_number, b"at ", why.place as u64, b'\n')
}

// The first n rows.
pub fn put_blocks(out: &mut [u8], used: usize, rows: &[Block], n: usize) -> usize
    requires { (used + 71 * n < 2 ^ 63) × (n ≤ length rows.now) }
    ensures { (result ≡ used + length (block_lines (take n rows.now)))
        × (out.new ≡ overlay out.old used (block_lines (take n rows.now))) }
{
    let mut at = used;
    for i in 0..n {
        let b = table::fetch(rows, i);
        at = put_block(out, at, b);
    }
    at
}
