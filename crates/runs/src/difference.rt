// How the difference column spells a run: 1, 2, 3 from 0 is 03 01. A difference d has the key d + 2^31, so that it is a natural number.
ghost use Rattle.std.specs.Prelude.{◌≡◌, ◌+◌, ◌≤◌, ◌<◌, length};
ghost use Rattle.std.proofs.lemmas.List.Edits.{sets};
ghost use Rattle.numbers.specs.Limits.{max_clock};
ghost use Rattle.runs.specs.Difference.{key_between, magnitude, odd, run_bytes};

// The key of the difference from one clock to the next.
pub fn key_between(p: u64, v: u64) -> u64
    requires { (p ≤ max_clock) × (v ≤ max_clock) }
    ensures { result ≡ key_between p v }
{
    v + 2147483648 - p
}

// The size of e: twice the difference, and one more where a count follows. The key's half is multiplied in: the sign of a difference cannot be guessed, and
// a test of it would be guessed.
fn magnitude_of(k: u64, n: u64) -> u64
    requires { k < 4294967296 }
    ensures { result ≡ magnitude k (odd n) }
{
    let one = odd_of(n);
    let half = k / 2147483648;
    let x = 2 * (k % 2147483648) + one;
    half * x + (1 - half) * (4294967296 - x)
}

fn odd_of(n: u64) -> u64
    ensures { (result ≡ odd n) × (result ≤ 1) }
{
    if n == 0 {
        return 0;
    }
    1
}

// The size of a run: the difference of k, n + 1 times.
pub fn run_size(k: u64, n: u64) -> usize
    requires { k < 4294967296 }
    ensures { (result ≡ length (run_bytes k n)) × (result ≤ 20) }
{
    let x = magnitude_of(k, n);
    crate::counted_size(x, n)
}

pub fn put_run(out: &mut [u8], at: usize, k: u64, n: u64) -> usize
    requires { (at + length (run_bytes k n) ≤ length out.old) × (k < 4294967296) }
    ensures { (result ≡ at + length (run_bytes k n)) × (out.new ≡ sets out.old at (run_bytes k n)) }
{
    let minus = k < 2147483648;
    let x = magnitude_of(k, n);
    crate::put_counted(out, at, minus, x, n)
}
