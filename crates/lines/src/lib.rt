// Text put into lent bytes, a piece after another: each call takes how many bytes the text has so far and gives how many it has then.
// Bytes past the end are only counted.
#![tactic(auto)]

ghost use Rattle.std.specs.Prelude.{◌≡◌, ◌+◌, ◌^◌, ◌<◌, [], ◌∷◌, length};
ghost use Rattle.lines.specs.Lines.{decimal};
ghost use Rattle.lines.specs.LinesInner.{overlay};

pub fn put_byte(out: &mut [u8], used: usize, b: u8) -> usize
    requires { used + 1 < 2 ^ 63 }
    ensures { (result ≡ used + 1) × (out.new ≡ overlay out.old used (b ∷ [])) }
{
    if used < out.len() {
        out[used] = b;
    }
    used + 1
}

pub fn put_text(out: &mut [u8], used: usize, text: &[u8]) -> usize
    requires { used + length text.now < 2 ^ 63 }
    ensures { (result ≡ used + length text.now) × (out.new ≡ overlay out.old used text.now) }
{
    let mut at = used;
    for b in text {
        at = put_byte(out, at, *b);
    }
    at
}

// The digits of v, no zero in front; 0 is `0`.
pub fn put_decimal(out: &mut [u8], used: usize, v: u64) -> usize
    requires { used + 20 < 2 ^ 63 }
    ensures { (result ≡ used + length (decimal v)) × (out.new ≡ overlay out.old used (decimal v)) }
{
    let digit = (v % 10 + 48) as u8;
    if v < 10 {
        return put_byte(out, used, digit);
    }
    let at = put_decimal(out, used, v / 10);
    put_byte(out, at, digit)
}
