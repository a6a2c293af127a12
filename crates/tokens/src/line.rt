// What stands in line: its state is its place. Where there is no room nothing is written, and the place goes on.
ghost use Rattle.std.specs.Prelude.{◌≡◌, ◌+◌, ◌-◌, ◌≤◌, [], ◌∷◌, leb, length};
ghost use Rattle.std.proofs.lemmas.List.Edits.{sets};
ghost use Rattle.std.proofs.Math.Seq.{slice};
ghost use Rattle.numbers.specs.Number.{unsigned};
ghost use Rattle.readings.specs.Sound.{bytes_in};
ghost use Rattle.tokens.specs.Tokens.{led};
ghost use Rattle.tokens.specs.Lanes.{ahead, laid_at};

use text::Part;

// Whether n bytes from place `at` on lie below `end`.
pub fn fits(end: usize, at: usize, n: usize) -> bool
    ensures { result ≡ leb (at + n) end }
{
    if end < at {
        return false;
    }
    n <= end - at
}

// A number where there is room for it: most have one byte or two, and need no loop.
fn write_number(out: &mut [u8], at: usize, v: u64) -> usize
    requires { at + length (unsigned v) ≤ length out.old }
    ensures { (result ≡ at + length (unsigned v)) × (out.new ≡ sets out.old at (unsigned v)) }
{
    if v < 128 {
        out[at] = v as u8;
        return at + 1;
    }
    if v < 16384 {
        let next = at + 1;
        out[at] = (v % 128 + 128) as u8;
        out[next] = (v / 128) as u8;
        return at + 2;
    }
    numbers::write_unsigned(out, at, v)
}

// A number; measured only where there is not plenty of room, for none has more than ten bytes.
pub fn number(out: &mut [u8], at: usize, v: u64) -> usize
    ensures { (result ≡ ahead at (unsigned v)) × (out.new ≡ laid_at out.old at (unsigned v)) }
{
    if parts::BRIM <= at {
        return at;
    }
    if fits(out.len(), at, 10) {
        return write_number(out, at, v);
    }
    let n = numbers::size_unsigned(v);
    if !fits(out.len(), at, n) {
        return at + n;
    }
    numbers::write_unsigned(out, at, v)
}

// A byte.
pub fn byte(out: &mut [u8], at: usize, v: u8) -> usize
    ensures { (result ≡ ahead at (v ∷ [])) × (out.new ≡ laid_at out.old at (v ∷ [])) }
{
    if parts::BRIM <= at {
        return at;
    }
    let next = at + 1;
    if at < out.len() {
        out[at] = v;
        return next;
    }
    next
}

// Bytes at a place.
// Kept, point 3 (the C interface; speed): std's copy calls memmove, a name that the archive needs for nothing else, and for a few bytes a call takes longer.
fn copy(out: &mut [u8], at: usize, bytes: &[u8])
    requires { at + length bytes.now ≤ length out.old }
    ensures { out.new ≡ sets out.old at bytes.now }
{
    for i in 0..bytes.len() {
        out[at + i] = bytes[i];
    }
}

// The bytes of a part.
pub fn part(out: &mut [u8], update: &[u8], at: usize, p: Part) -> usize
    ensures { (result ≡ ahead at (bytes_in update.now p))
        × (out.new ≡ laid_at out.old at (bytes_in update.now p)) }
{
    if parts::BRIM <= at {
        return at;
    }
    let bytes = parts::bytes(update, p);
    let next = at + bytes.len();
    if !fits(out.len(), at, bytes.len()) {
        return next;
    }
    copy(out, at, bytes);
    next
}

// The same led by their length: all of it or nothing.
pub fn led_part(out: &mut [u8], update: &[u8], at: usize, p: Part) -> usize
    ensures { (result ≡ ahead at (led (bytes_in update.now p)))
        × (out.new ≡ laid_at out.old at (led (bytes_in update.now p))) }
{
    if parts::BRIM <= at {
        return at;
    }
    let bytes = parts::bytes(update, p);
    let count = bytes.len() as u64;
    let size = numbers::size_unsigned(count) + bytes.len();
    let next = at + size;
    if !fits(out.len(), at, size) {
        return next;
    }
    let mid = numbers::write_unsigned(out, at, count);
    copy(out, mid, bytes);
    next
}
