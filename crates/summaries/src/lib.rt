// The public calls on summaries: who is in an update, from which clock to which, in how many blocks, without opening it. They ask nothing of their callers.
#![tactic(auto)]

ghost use Rattle.std.specs.Prelude.{◌≡◌, [], ◌*◌, ◌≤◌, length, take};
ghost use Rattle.numbers.specs.Output.{padded};
ghost use Rattle.summary.specs.Summary.{one, summary_of};
ghost use Rattle.summary.specs.WordsInner.{rows_in};
ghost use Rattle.summaries.specs.Promises.{bytes, refused, fitted, summarized, made_bytes, WriteSummary, ReadSummary};

use numbers::Refusal;

// What a summary that is written says: a refusal, zeros for done, and how many bytes.
#[repr(C)]
#[derive(Clone, Copy)]
pub struct Summarized {
    pub refusal: Refusal,
    pub bytes: usize,
}

// What a summary that is read says: a refusal, zeros for done, and how many rows.
#[repr(C)]
#[derive(Clone, Copy)]
pub struct SummaryRows {
    pub refusal: Refusal,
    pub count: usize,
}

fn refuse(out: &mut [u8], why: Refusal) -> Summarized
    ensures { (result ≡ summarized (refused why)) × (out.new ≡ padded (length out.old) (made_bytes (refused why))) }
{
    numbers::clear(out, 0);
    Summarized {
        refusal: why,
        bytes: 0,
    }
}

// The summary of n rows, if the bytes lent take it.
fn write_rows(out: &mut [u8], rows: &[u64], n: usize) -> Summarized
    requires { (4 * n ≤ length rows.now) × (n ≤ 64) }
    ensures { (result ≡ summarized (fitted (length out.old) (bytes (summary_of one (rows_in n rows.now)))))
        × (out.new ≡ padded (length out.old)
        (made_bytes (fitted (length out.old) (bytes (summary_of one (rows_in n rows.now)))))) }
{
    let size = summary::size(n);
    if out.len() < size {
        return refuse(
            out,
            Refusal {
                number: 10,
                place: 0,
            },
        );
    }
    summary::write(out, rows, n);
    numbers::clear(out, size);
    Summarized {
        refusal: Refusal {
            number: 0,
            place: 0,
        },
        bytes: size,
    }
}

// The summary of an update: for each client with kept blocks, highest first, its first clock, its last end and how many blocks. No tables are lent.
pub fn write_summary(form: u8, update: &[u8], out: &mut [u8]) -> Summarized
    ensures { WriteSummary form update.now out.old result out.new }
{
    let unknown = Refusal {
        number: 12,
        place: 0,
    };
    if form < 1 {
        return refuse(out, unknown);
    }
    if 2 < form {
        return refuse(out, unknown);
    }
    if numbers::MAX_UPDATE < update.len() {
        return refuse(
            out,
            Refusal {
                number: 3,
                place: 0,
            },
        );
    }
    let mut rows = [0u64; 256];
    match gathered::gather(form, update, &mut rows) {
        Ok(n) => write_rows(out, &rows, n),
        Err(why) => refuse(out, why),
    }
}

// The rows of a summary, four words a row, and zeros behind them.
pub fn read_summary(bytes: &[u8], rows: &mut [u64]) -> SummaryRows
    ensures { ReadSummary bytes.now rows.old result rows.new }
{
    match summary::read(bytes, rows) {
        Ok(count) => SummaryRows {
            refusal: Refusal {
                number: 0,
                place: 0,
            },
            count,
        },
        Err(number) => SummaryRows {
            refusal: Refusal { number, place: 0 },
            count: 0,
        },
    }
}
