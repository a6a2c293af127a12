// How the number column spells a run: 5 twice is 45 00.
ghost use Rattle.std.specs.Prelude.{◌≡◌, ◌+◌, ◌≤◌, ◌<◌, length};
ghost use Rattle.std.proofs.lemmas.List.Edits.{sets};
ghost use Rattle.runs.specs.Number.{run_bytes};

// The size of a run: v, n + 1 times.
pub fn run_size(v: u64, n: u64) -> usize
    ensures { (result ≡ length (run_bytes v n)) × (result ≤ 20) }
{
    crate::counted_size(v, n)
}

pub fn put_run(out: &mut [u8], at: usize, v: u64, n: u64) -> usize
    requires { at + length (run_bytes v n) ≤ length out.old }
    ensures { (result ≡ at + length (run_bytes v n)) × (out.new ≡ sets out.old at (run_bytes v n)) }
{
    let minus = 0 < n;
    crate::put_counted(out, at, minus, v, n)
}
