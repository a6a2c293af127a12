// The state of a column that is being written: what it has not written yet is its run. Here is the end of one.
ghost use Rattle.std.specs.Prelude.{◌≡◌, ◌+◌, ◌≤◌, length};
ghost use Rattle.std.proofs.lemmas.List.Edits.{sets};
ghost use Rattle.runs.specs.Writer.{finished, Sound, Closes};

use crate::ColumnKind;
use numbers::Written;

// The next place, the last value, its key, and how often that key stood so far.
#[derive(Clone, Copy)]
pub struct Writer {
    pub column: ColumnKind,
    pub at: usize,
    pub last: u64,
    pub key: u64,
    pub count: u64,
}

// How many bytes the end has written: those of the last run.
pub fn size_end(w: Writer) -> usize
    requires { Sound w }
    ensures { (result ≡ length (finished w)) × (result ≤ 20) }
{
    let column = w.column;
    if w.count == 0 {
        return 0;
    }
    let n = w.count - 1;
    crate::last_size(column, w.key, n)
}

pub fn finish(out: &mut [u8], w: Writer) -> usize
    requires { (w.at + length (finished w) ≤ length out.old) × Sound w }
    ensures { (result ≡ w.at + length (finished w)) × (out.new ≡ sets out.old w.at (finished w)) }
{
    let column = w.column;
    let at = w.at;
    if w.count == 0 {
        return at;
    }
    let n = w.count - 1;
    crate::put_last(out, column, at, w.key, n)
}

// The end of a column: its last run and zeros, or zeros alone where there is no room.
pub fn close(out: &mut [u8], w: Writer) -> Written
    requires { (w.at ≤ length out.old) × Sound w }
    ensures { Closes out.old w result out.new }
{
    let at = w.at;
    let size = size_end(w);
    let room = out.len() - at;
    if room < size {
        return numbers::refuse(out, 10);
    }
    let end = finish(out, w);
    numbers::finish(out, end)
}
