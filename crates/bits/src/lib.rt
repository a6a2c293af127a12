// Numbers of so many bits, most significant bit first, put into bytes and taken from them at any bit, by shifts of whole words.
#![tactic(auto)]

ghost use Rattle.std.specs.Prelude.{◌≡◌, ◌++◌, ◌+◌, ◌-◌, ◌*◌, ◌/◌, ◌%◌, ◌^◌, ◌≤◌, ◌<◌, length, drop};
ghost use Rattle.std.proofs.lemmas.List.Edits.{sets};
ghost use Rattle.bits.specs.Bits.{in_bits, value_of, of_bytes};
ghost use Rattle.bits.specs.Places.{top, highest, Adds};

// ---- taken

// Fewer than eight bytes, from `at` to the end, as the highest of eight; zeros behind them.
fn last_window(s: &[u8], at: usize) -> u64
    requires { (at < length s.now) × (length s.now < at + 8) }
    ensures { result ≡ value_of 64 (of_bytes (drop at s.now)) }
{
    let mut w: u64 = 0;
    let mut left: usize = 64;
    for b in &s[at..] {
        w = w * 256 + u64::from(*b);
        left -= 8;
    }
    w << left
}

// Eight bytes from `at` on as one number, the first of them highest; zeros where there are no more.
fn window(s: &[u8], at: usize) -> u64
    requires { at < length s.now }
    ensures { result ≡ value_of 64 (of_bytes (drop at s.now)) }
{
    let Some(eight) = s[at..].first_chunk::<8>() else {
        return last_window(s, at);
    };
    u64::from_be_bytes(*eight)
}

// The number that k bits spell from bit o on.
pub fn get(s: &[u8], o: usize, k: usize) -> u64
    requires { (1 ≤ k) × (k ≤ 57) × (o + k ≤ 8 * length s.now) }
    ensures { result ≡ value_of k (drop o (of_bytes s.now)) }
{
    let at = o / 8;
    let w = window(s, at);
    (w << (o % 8)) >> (64 - k)
}

// ---- put

// The n highest bytes of a word, from `at` on.
fn store(out: &mut [u8], at: usize, w: u64, n: usize)
    requires { at + n ≤ length out.old }
    ensures { out.new ≡ sets out.old at (top n w) }
{
    let mut rest = w;
    for i in 0..n {
        out[at + i] = (rest >> 56) as u8;
        rest = rest << 8;
    }
}

// The r highest bits of byte `at`: those that stand there, where the bits so far end r bits into it.
fn begun(s: &[u8], at: usize, r: usize) -> u64
    requires { (at < length s.now) × (r < 8) }
    ensures { (result ≡ highest s.now at r) × (result < 2 ^ r) }
{
    if r == 0 {
        return 0;
    }
    u64::from(s[at]) >> (8 - r)
}

// v in k bits, behind the bits that end at bit o; zeros fill the last byte.
pub fn put(out: &mut [u8], o: usize, k: usize, v: u64)
    requires { (1 ≤ k) × (k ≤ 57) × (o + k ≤ 8 * length out.old) }
    ensures { Adds o (in_bits k v) out.old out.new }
{
    let at = o / 8;
    let r = o % 8;
    let high = begun(out, at, r);
    let head = (high << 56) << (8 - r);
    let tail = (v << (64 - k)) >> r;
    let w = head + tail;
    let n = (r + k + 7) / 8;
    store(out, at, w, n);
}

// All bytes of a word, from `at` on.
fn store_word(out: &mut [u8], at: usize, w: u64)
    requires { at + 8 ≤ length out.old }
    ensures { out.new ≡ sets out.old at (top 8 w) }
{
    out[at..at + 8].copy_from_slice(&w.to_be_bytes());
}

// The r lowest bits of one word, and then the highest of another.
fn behind(high: u64, r: usize, w: u64) -> u64
    requires { r < 8 }
    ensures { result ≡ high % 2 ^ r * 2 ^ (64 - r) + w / 2 ^ r }
{
    let head = (high << 56) << (8 - r);
    let tail = w >> r;
    head + tail
}

// 131 bits behind the bits that end at bit o: two words, and three bits of c. The byte under way is read once.
pub fn put_wide(out: &mut [u8], o: usize, a: u64, b: u64, c: u64)
    requires { (o + 131 ≤ 8 * length out.old) × (o ≤ 65536) }
    ensures { Adds o (in_bits 64 a ++ (in_bits 64 b ++ in_bits 3 c)) out.old out.new }
{
    let at = o / 8;
    let r = o % 8;
    let high = begun(out, at, r);
    let first = behind(high, r, a);
    let second = behind(a, r, b);
    let third = behind(b, r, c << 61);
    let n = (r + 10) / 8;
    store_word(out, at, first);
    store_word(out, at + 8, second);
    store(out, at + 16, third, n);
}
