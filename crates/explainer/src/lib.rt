// The draws that made a block, each with its origin: the update's blocks are read again, draw by draw, up to the end of the one sought. Its lines lie in a
// sheet: those of its section's head are lines 0 to 2, that of its clock line 3, its own lines 4 and on.
#![tactic(auto)]

ghost use Rattle.std.specs.Prelude.{◌≡◌, false, ◌≤◌, length};
ghost use Rattle.cells.specs.Cells.{state_in, Small};
ghost use Rattle.origins.specs.Sheets.{lines_from};
ghost use Rattle.explainer.specs.Explanation.{explanation, clock_line};
ghost use Rattle.explainer.specs.Following.{Readable, Reads, line_for, Placed, is_found, ahead_of, followed};

use origins::{Line, Rise, Stand};
use roles::Plan;
use text::{Bytes, Part};

// The line that a draw is told at: the next of the block's own, but the head's have their places, and a block begins anew with its info byte.
fn line_for(code: u64, own: usize) -> usize
    ensures { result ≡ line_for code own }
{
    match code {
        1 => 0,
        2 => 0,
        3 => 1,
        4 => 2,
        6 => 4,
        _ => own,
    }
}

// The block sought has ended.
fn is_found(q: Plan, ahead: usize) -> bool
    ensures { result ≡ is_found q ahead }
{
    if ahead != 0 {
        return false;
    }
    roles::is_kept(q)
}

// How many kept blocks are ahead of it behind one that has ended.
fn ahead_of(q: Plan, ahead: usize) -> usize
    requires { is_found q ahead ≡ false }
    ensures { result ≡ ahead_of q ahead }
{
    if roles::is_kept(q) {
        return ahead - 1;
    }
    ahead
}

// The block's own clock is not drawn: it is the first clock and the lengths before it.
fn clock_line(q: Plan) -> Line
    ensures { result ≡ clock_line q }
{
    let part = Part {
        place: 0,
        bytes: Bytes(0),
    };
    let stand = Stand {
        place: 0,
        bytes: 0,
        source: 0,
        which: 0,
        of: 0,
    };
    let rise = Rise {
        base: q.first,
        sign: 1,
        size: numbers::words::less(q.clock, q.first),
    };
    Line {
        field: 5,
        value: q.clock,
        stand,
        rise,
        part,
    }
}

// The line that a draw is told at. A block's clock is told with its info byte.
fn place(sheet: &mut [u64], q: Plan, own: usize) -> usize
    requires { length sheet.old ≡ 192 }
    ensures { Placed q own sheet.old sheet.new result }
{
    let role = q.role;
    let code = roles::code_of(role);
    if code != 6 {
        return line_for(code, own);
    }
    let l = clock_line(q);
    origins::put_line(sheet, 3, l);
    4
}

// Reads all blocks up to the end of kept block n; how many lines it has, 0 where there is no such block.
fn follow(form: u8, update: &[u8], w: &mut [u64], n: usize, sheet: &mut [u64]) -> usize
    requires { Small w.old × (length sheet.old ≡ 192) × Reads form update.now (state_in w.old) }
    ensures { (lines_from sheet.new 0 result ≡ followed form update.now n (state_in w.old)) × (result ≤ 16) }
{
    let mut part = [0u64; 2];
    let mut q = roles::start();
    let mut ahead = n;
    let mut own: usize = 4;
    loop {
        if roles::is_ended(q) {
            if is_found(q, ahead) {
                return own;
            }
            ahead = ahead_of(q, ahead);
            q = roles::onward(q);
        } else {
            if roles::is_over(q) {
                return 0;
            }
            let i = place(sheet, q, own);
            let Some((v, p, k)) = telling::tell(form, update, w, &mut part, sheet, i, q) else {
                return 0;
            };
            own = i + k;
            q = roles::after(q, v, p);
        }
    }
}

// The lines of kept block n, in the sheet; how many they are, 0 where there is no such block. All blocks of the update can be read.
pub fn explain_block(form: u8, update: &[u8], n: usize, sheet: &mut [u64]) -> usize
    requires { (length sheet.old ≡ 192) × Readable form update.now }
    ensures { (lines_from sheet.new 0 result ≡ explanation form update.now n) × (result ≤ 16) }
{
    let mut words = [0u64; 580];
    if form == 1 {
        return follow(form, update, &mut words, n, sheet);
    }
    let Some(_) = opening::open(update, &mut words) else {
        return 0;
    };
    follow(form, update, &mut words, n, sheet)
}
