// How the byte column spells a run: 4 twice is 04 01, and as the last run 04.
ghost use Rattle.std.specs.Prelude.{◌≡◌, ◌+◌, ◌≤◌, ◌<◌, [], ◌∷◌, length};
ghost use Rattle.std.proofs.lemmas.List.Edits.{sets};
ghost use Rattle.runs.specs.Byte.{run_bytes};

// The size of a run: k, n + 1 times.
pub fn run_size(k: u64, n: u64) -> usize
    ensures { (result ≡ length (run_bytes k n)) × (result ≤ 20) }
{
    1 + numbers::size_unsigned(n)
}

pub fn put_run(out: &mut [u8], at: usize, k: u64, n: u64) -> usize
    requires { (at + length (run_bytes k n) ≤ length out.old) × (k < 256) }
    ensures { (result ≡ at + length (run_bytes k n)) × (out.new ≡ sets out.old at (run_bytes k n)) }
{
    out[at] = k as u8;
    let mid = at + 1;
    numbers::write_unsigned(out, mid, n)
}

// The last run has no count.
pub fn put_last(out: &mut [u8], at: usize, k: u64) -> usize
    requires { (at + 1 ≤ length out.old) × (k < 256) }
    ensures { (result ≡ at + 1) × (out.new ≡ sets out.old at (k ∷ [])) }
{
    out[at] = k as u8;
    at + 1
}
