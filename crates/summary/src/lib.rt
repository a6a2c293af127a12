// A summary's bytes: version, row count, then client, first clock, last end and blocks of each row, in bits, the most significant first. Rows stand in
// words, four a row. 10 20 00 00 00 00 00 05 00 00 00 00 00 00 00 08 00 04 says: client 5 from clock 0 up to 2, in one block.
#![tactic(auto)]

ghost use Rattle.std.specs.Prelude.{◌≡◌, ◌&&◌, [], ◌∷◌, ◌++◌, ◌+◌, ◌*◌, ◌/◌, ◌^◌, ◌≤◌, length, drop};
ghost use Rattle.std.proofs.lemmas.List.Edits.{sets};
ghost use Rattle.numbers.specs.Output.{padded};
ghost use Rattle.bits.specs.Bits.{in_bits, of_bytes};
ghost use Rattle.bits.specs.Places.{Adds, Starts};
ghost use Rattle.summary.specs.Summary.{one, row_bits, rows_bits, summary_bits, refused, filled, rows_after, read_of};
ghost use Rattle.summary.specs.Words.{summary_row, words_in, words_of};
ghost use Rattle.summary.specs.WordsInner.{row_in, rows_in, fine, Took, answer_of, Answers};

use numbers::words;

// How many rows at most, and how many words one has.
pub const MOST: usize = 64;

pub const WORDS: usize = 4;

const VERSION: u64 = 1;

// Bits of the version, of the row count, of a row's numbers, and of a row.
const VERSION_BITS: usize = 4;

const COUNT_BITS: usize = 7;

const CLIENT_BITS: usize = 53;

const CLOCK_BITS: usize = 31;

const BLOCKS_BITS: usize = 16;

const ROW_BITS: usize = 131;

const HEAD_BITS: usize = 11;

// ---- written

// The bytes of n rows.
pub fn size(n: usize) -> usize
    requires { n ≤ 64 }
    ensures { result ≡ (11 + 131 * n + 7) / 8 }
{
    (HEAD_BITS + ROW_BITS * n + 7) / 8
}

// A row's first 64 bits: its client, and the highest 11 bits of its first clock.
fn upper(client: u64, first: u64) -> u64
    ensures { in_bits 64 result ≡ in_bits 53 client ++ in_bits 11 (first / 2 ^ 20) }
{
    (client << 11) + ((first << 33) >> 53)
}

// The next 64: the lowest 20 bits of its first clock, its last end, and the highest 13 bits of its blocks.
fn lower(first: u64, end: u64, blocks: u64) -> u64
    ensures { in_bits 64 result ≡ in_bits 20 first ++ (in_bits 31 end ++ in_bits 13 (blocks / 2 ^ 3)) }
{
    let middle = (end << 33) >> 20;
    let low = (blocks << 48) >> 51;
    (first << 44) + (middle + low)
}

// The row that begins at word k, behind the bits that end at bit o.
fn put_row(out: &mut [u8], o: usize, rows: &[u64], k: usize)
    requires { (o + 131 ≤ 8 * length out.old) × (k + 4 ≤ length rows.now) × (o ≤ 65536) }
    ensures { Adds o (row_bits (row_in (drop k rows.now))) out.old out.new }
{
    let client = rows[k];
    let first = rows[k + 1];
    let end = rows[k + 2];
    let blocks = rows[k + 3];
    let a = upper(client, first);
    let b = lower(first, end, blocks);
    bits::put_wide(out, o, a, b, blocks);
}

fn put_rows(out: &mut [u8], rows: &[u64], n: usize)
    requires { (11 + 131 * n ≤ 8 * length out.old) × (4 * n ≤ length rows.now) × (n ≤ 64) }
    ensures { Adds 11 (rows_bits (rows_in n rows.now)) out.old out.new }
{
    for i in 0..n {
        put_row(out, HEAD_BITS + ROW_BITS * i, rows, WORDS * i);
    }
}

// The summary of n rows, at the start of the bytes.
pub fn write(out: &mut [u8], rows: &[u64], n: usize)
    requires { (11 + 131 * n ≤ 8 * length out.old) × (4 * n ≤ length rows.now) × (n ≤ 64) }
    ensures { (length out.new ≡ length out.old) × Starts (summary_bits one (rows_in n rows.now)) out.new }
{
    bits::put(out, 0, VERSION_BITS, VERSION);
    bits::put(out, VERSION_BITS, COUNT_BITS, n as u64);
    put_rows(out, rows, n);
}

// ---- read

// A client below the one above it, some blocks, a first clock that is not above the last end.
#[tactic(auto, unfolding(crate::specs::WordsInner::fine))]
fn is_fine(above: u64, client: u64, first: u64, end: u64, blocks: u64) -> bool
    ensures { result ≡ fine above (summary_row client first end blocks) }
{
    client < above && 0 < blocks && first <= end
}

// A row's words, from word k on.
pub fn put_words(rows: &mut [u64], k: usize, client: u64, first: u64, end: u64, blocks: u64)
    requires { k + 4 ≤ length rows.old }
    ensures { rows.new ≡ sets rows.old k (words_in (summary_row client first end blocks ∷ [])) }
{
    rows[k] = client;
    rows[k + 1] = first;
    rows[k + 2] = end;
    rows[k + 3] = blocks;
}

// n rows taken from bit 11 on, and whether they are fine; or a refusal: 1 where a row is cut off, 8 where it has no words.
fn take_rows(s: &[u8], rows: &mut [u64], n: usize) -> Result<bool, u8>
    requires { (2 ≤ length s.now) × (n ≤ 64) }
    ensures { (length rows.new ≡ length rows.old)
        × Took s.now n (length rows.old / 4) rows.new result }
{
    let mut above = numbers::MAX_VALUE + 1;
    let mut good = true;
    for i in 0..n {
        let o = HEAD_BITS + ROW_BITS * i;
        let k = WORDS * i;
        if s.len() < (o + ROW_BITS + 7) / 8 {
            return Err(1);
        }
        if rows.len() < k + WORDS {
            return Err(8);
        }
        let client = bits::get(s, o, CLIENT_BITS);
        let first = bits::get(s, o + 53, CLOCK_BITS);
        let end = bits::get(s, o + 84, CLOCK_BITS);
        let blocks = bits::get(s, o + 115, BLOCKS_BITS);
        put_words(rows, k, client, first, end, blocks);
        good &= is_fine(above, client, first, end, blocks);
        above = client;
    }
    Ok(good)
}

// Whether only zeros follow bit o, and no whole byte.
fn is_filled(s: &[u8], o: usize) -> bool
    requires { (o ≤ 8 * length s.now) × (o ≤ 65536) }
    ensures { result ≡ filled (drop o (of_bytes s.now)) }
{
    let bytes = (o + 7) / 8;
    if bytes < s.len() {
        return false;
    }
    let left = 8 * bytes - o;
    if left == 0 {
        return true;
    }
    bits::get(s, o, left) == 0
}

fn refuse(rows: &mut [u64], number: u8) -> Result<usize, u8>
    ensures { (result ≡ answer_of (refused number)) × (rows.new ≡ padded (length rows.old) (words_of (refused number))) }
{
    words::clear(rows, 0);
    Err(number)
}

// n rows, and what stands behind them: as `read`.
fn read_rows(s: &[u8], rows: &mut [u64], n: usize) -> Result<usize, u8>
    requires { (2 ≤ length s.now) × (n ≤ 64) }
    ensures { Answers (rows_after n (length rows.old / 4) [] (drop 11 (of_bytes s.now))) rows.old rows.new result }
{
    match take_rows(s, rows, n) {
        Ok(good) => {
            let zeros = is_filled(s, HEAD_BITS + ROW_BITS * n);
            if good & zeros {
                words::clear(rows, WORDS * n);
                return Ok(n);
            }
            refuse(rows, 17)
        }
        Err(v) => refuse(rows, v),
    }
}

// The rows of a summary, and zeros behind them: how many; or the number of a refusal, and zeros only.
pub fn read(s: &[u8], rows: &mut [u64]) -> Result<usize, u8>
    ensures { Answers (read_of (length rows.old / 4) s.now) rows.old rows.new result }
{
    if s.len() < 1 {
        return refuse(rows, 1);
    }
    if bits::get(s, 0, VERSION_BITS) != VERSION {
        return refuse(rows, 16);
    }
    if s.len() < 2 {
        return refuse(rows, 1);
    }
    let n = bits::get(s, VERSION_BITS, COUNT_BITS) as usize;
    if MOST < n {
        return refuse(rows, 3);
    }
    read_rows(s, rows, n)
}
