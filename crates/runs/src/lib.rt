// Runs: how the columns of numbers are written. Values come one at a time, equal neighbours become the longest run, and a run is spelled
// by its column's rule. Here are the rules; `writer` has the state, `judge` what may be refused. `once` writes whole slices.
#![tactic(auto)]

pub mod byte;
pub mod difference;
pub mod judge;
pub mod number;
pub mod writer;

ghost use Rattle.std.specs.Prelude.{◌≡◌, Bool, ◌+◌, ◌≤◌, length};
ghost use Rattle.std.proofs.lemmas.List.Edits.{sets};
ghost use Rattle.runs.specs.Runs.{coding};
ghost use Rattle.runs.specs.RunsInner.{key_most, signed_run};

// The columns of numbers.
#[derive(Clone, Copy)]
pub enum ColumnKind {
    Number,
    Difference,
    Byte,
}

// The size of a signed number that is followed by n - 1 where n is not 0.
pub fn counted_size(x: u64, n: u64) -> usize
    ensures { ((m : Bool) → result ≡ length (signed_run m x n)) × (result ≤ 20) }
{
    let head = numbers::size_signed(x);
    if n == 0 {
        return head;
    }
    head + numbers::size_unsigned(n - 1)
}

pub fn put_counted(out: &mut [u8], at: usize, minus: bool, x: u64, n: u64) -> usize
    requires { at + length (signed_run minus x n) ≤ length out.old }
    ensures { (result ≡ at + length (signed_run minus x n)) × (out.new ≡ sets out.old at (signed_run minus x n)) }
{
    let mid = numbers::write_signed(out, at, minus, x);
    if n == 0 {
        return mid;
    }
    numbers::write_unsigned(out, mid, n - 1)
}

pub fn run_size(column: ColumnKind, k: u64, n: u64) -> usize
    requires { k ≤ key_most column }
    ensures { (result ≡ length ((coding column).spell k n)) × (result ≤ 20) }
{
    match column {
        ColumnKind::Number => crate::number::run_size(k, n),
        ColumnKind::Difference => crate::difference::run_size(k, n),
        ColumnKind::Byte => crate::byte::run_size(k, n),
    }
}

pub fn last_size(column: ColumnKind, k: u64, n: u64) -> usize
    requires { k ≤ key_most column }
    ensures { (result ≡ length ((coding column).final k n)) × (result ≤ 20) }
{
    match column {
        ColumnKind::Number => crate::number::run_size(k, n),
        ColumnKind::Difference => crate::difference::run_size(k, n),
        ColumnKind::Byte => 1,
    }
}

pub fn put_run(out: &mut [u8], column: ColumnKind, at: usize, k: u64, n: u64) -> usize
    requires { (at + length ((coding column).spell k n) ≤ length out.old) × (k ≤ key_most column) }
    ensures { (result ≡ at + length ((coding column).spell k n)) × (out.new ≡ sets out.old at ((coding column).spell k n)) }
{
    match column {
        ColumnKind::Number => crate::number::put_run(out, at, k, n),
        ColumnKind::Difference => crate::difference::put_run(out, at, k, n),
        ColumnKind::Byte => crate::byte::put_run(out, at, k, n),
    }
}

pub fn put_last(out: &mut [u8], column: ColumnKind, at: usize, k: u64, n: u64) -> usize
    requires { (at + length ((coding column).final k n) ≤ length out.old) × (k ≤ key_most column) }
    ensures { (result ≡ at + length ((coding column).final k n)) × (out.new ≡ sets out.old at ((coding column).final k n)) }
{
    match column {
        ColumnKind::Number => crate::number::put_run(out, at, k, n),
        ColumnKind::Difference => crate::difference::put_run(out, at, k, n),
        ColumnKind::Byte => crate::byte::put_last(out, at, k),
    }
}
