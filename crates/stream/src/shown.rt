// What lines are made of, as it is shown.
ghost use Rattle.std.specs.Prelude.{◌≡◌, ◌∷◌, [], take, drop, OnOk};
ghost use Rattle.std.specs.Fmt.{decimal};
ghost use Rattle.std.specs.List.{list_all};

use numbers::Refusal;
use std::fmt;

// What lines are made of: each shows itself. Not by `fmt::Display`, whose `Formatter` asks each piece for a width and an indent, which no line has (speed).
pub trait Shown {
    fn show<W: fmt::Write>(&self, out: &mut W) -> fmt::Result;

    // As a line of its own.
    final fn show_line<W: fmt::Write>(&self, out: &mut W) -> fmt::Result
        ensures { OnOk result ((shown : W) × W.write_str_gives shown (10 ∷ []) out.new) }
    {
        self.show(out)?;
        out.write_str("\n")
    }
}

impl Shown for u64 {
    #[inline(always)]
    fn show<W: fmt::Write>(&self, out: &mut W) -> fmt::Result
        ensures { OnOk result (W.write_str_gives out.old (decimal self.now) out.new) }
    {
        let mut digits = itoa::Buffer::new();
        out.write_str(digits.format(*self))
    }
}

impl Shown for usize {
    #[inline(always)]
    fn show<W: fmt::Write>(&self, out: &mut W) -> fmt::Result
        ensures { OnOk result (W.write_str_gives out.old (decimal self.now) out.new) }
    {
        (*self as u64).show(out)
    }
}

impl Shown for u32 {
    #[inline(always)]
    fn show<W: fmt::Write>(&self, out: &mut W) -> fmt::Result
        ensures { OnOk result (W.write_str_gives out.old (decimal self.now) out.new) }
    {
        u64::from(*self).show(out)
    }
}

impl Shown for u16 {
    #[inline(always)]
    fn show<W: fmt::Write>(&self, out: &mut W) -> fmt::Result
        ensures { OnOk result (W.write_str_gives out.old (decimal self.now) out.new) }
    {
        u64::from(*self).show(out)
    }
}

impl Shown for u8 {
    #[inline(always)]
    fn show<W: fmt::Write>(&self, out: &mut W) -> fmt::Result
        ensures { OnOk result (W.write_str_gives out.old (decimal self.now) out.new) }
    {
        u64::from(*self).show(out)
    }
}

impl Shown for &str {
    #[inline(always)]
    fn show<W: fmt::Write>(&self, out: &mut W) -> fmt::Result
        ensures { OnOk result (W.write_str_gives out.old self.now.now out.new) }
    {
        out.write_str(self)
    }
}

// What stands behind a mark, which is shown first.
#[derive(Clone, Copy)]
pub struct After<'a, T>(pub &'a str, pub T);

impl<T: Shown> Shown for After<'_, T> {
    #[inline(always)]
    fn show<W: fmt::Write>(&self, out: &mut W) -> fmt::Result
        ensures { OnOk result ((marked : W) × W.write_str_gives out.old self.now.0.now marked) }
    {
        out.write_str(self.0)?;
        self.1.show(out)
    }
}

impl<A: Shown, B: Shown> Shown for (A, B) {
    #[inline(always)]
    fn show<W: fmt::Write>(&self, out: &mut W) -> fmt::Result {
        self.0.show(out)?;
        self.1.show(out)
    }
}

impl<A: Shown, B: Shown, C: Shown> Shown for (A, B, C) {
    #[inline(always)]
    fn show<W: fmt::Write>(&self, out: &mut W) -> fmt::Result {
        self.0.show(out)?;
        self.1.show(out)?;
        self.2.show(out)
    }
}

impl<A: Shown, B: Shown, C: Shown, D: Shown> Shown for (A, B, C, D) {
    #[inline(always)]
    fn show<W: fmt::Write>(&self, out: &mut W) -> fmt::Result {
        self.0.show(out)?;
        self.1.show(out)?;
        self.2.show(out)?;
        self.3.show(out)
    }
}

// What a line begins with: 0, or the number of a refusal and the place that it blames.
#[derive(Clone, Copy)]
pub struct Verdict(pub Refusal);

impl Shown for Verdict {
    fn show<W: fmt::Write>(&self, out: &mut W) -> fmt::Result {
        let Refusal { number, place } = self.0;
        if number == 0 {
            return out.write_str("0");
        }
        (number, After("@", place)).show(out)
    }
}

// The verdict of a call that blames no byte.
pub fn unplaced(number: u8) -> Verdict
    ensures { result.0 ≡ record { number = number; place = 0 } }
{
    Verdict(Refusal { number, place: 0 })
}

// Numbers, each with the space before it.
#[derive(Clone, Copy)]
pub struct Numbers<'a>(pub &'a [u64]);

impl Shown for Numbers<'_> {
    fn show<W: fmt::Write>(&self, out: &mut W) -> fmt::Result {
        for number in self.0 {
            After(" ", *number).show(out)?;
        }
        Ok(())
    }
}

// Pairs of numbers, as the entries of a state vector are.
#[derive(Clone, Copy)]
pub struct Pairs<'a>(pub &'a [u64]);

impl Shown for Pairs<'_> {
    fn show<W: fmt::Write>(&self, out: &mut W) -> fmt::Result {
        for [client, clock] in self.0.as_chunks::<2>().0 {
            (After(" ", *client), After(":", *clock)).show(out)?;
        }
        Ok(())
    }
}

// A digit of hex.
fn digit(value: u8) -> u8 {
    match value {
        0..=9 => b'0' + value,
        10..=15 => b'a' + (value - 10),
        _ => b'?',
    }
}

// The hex of bytes, `-` for none.
#[derive(Clone, Copy)]
pub struct Hex<'a>(pub &'a [u8]);

impl Shown for Hex<'_> {
    fn show<W: fmt::Write>(&self, out: &mut W) -> fmt::Result {
        if self.0.is_empty() {
            return out.write_str("-");
        }
        for bytes in self.0.chunks(32) {
            let mut digits = [b'0'; 64];
            for (two, byte) in digits.as_chunks_mut::<2>().0.iter_mut().zip(bytes) {
                *two = [digit(byte / 16), digit(byte % 16)];
            }
            let (filled, _) = cut(&digits, 2 * bytes.len());
            out.write_str(std::str::from_utf8(filled).map_err(|_| fmt::Error)?)?;
        }
        Ok(())
    }
}

// What was lent, cut behind what is filled; more than was lent, which the library never says, is cut as all of it.
pub fn cut<T>(lent: &[T], filled: usize) -> (&[T], &[T])
    ensures front { result.0.now ≡ take filled lent.now }
    ensures back { result.1.now ≡ drop filled lent.now }
{
    let at = lent.len().min(filled);
    lent.split_at(at)
}

// Whether all that it holds is its type's zero. All of it is looked at, without a way out at the first that is not (speed: several at a time).
pub fn is_zero<T: PartialEq + Default + Copy>(lent: &[T]) -> bool
    ensures { (zero : T) × T.is_default zero × (result ≡ list_all (λ it. T.eq it zero) lent.now) }
{
    let zero = T::default();
    let mut all = true;
    for it in lent {
        all &= *it == zero;
    }
    all
}

// The last word: `zero` if all that was lent and not filled is zero.
#[derive(Clone, Copy)]
pub struct Last(pub bool);

impl Shown for Last {
    fn show<W: fmt::Write>(&self, out: &mut W) -> fmt::Result {
        out.write_str(if self.0 { " zero" } else { " dirty" })
    }
}

// Lent bytes after the call that wrote so many of them, unless it refused: its verdict, what it wrote, and the last word on the rest.
#[derive(Clone, Copy)]
pub struct Wrote<'a> {
    pub verdict: Verdict,
    pub bytes: usize,
    pub lent: &'a [u8],
}

impl Shown for Wrote<'_> {
    fn show<W: fmt::Write>(&self, out: &mut W) -> fmt::Result {
        let verdict = self.verdict;
        if verdict.0.number != 0 {
            return (verdict, Last(is_zero(self.lent))).show(out);
        }
        let (wrote, rest) = cut(self.lent, self.bytes);
        (verdict, After(" ", Hex(wrote)), Last(is_zero(rest))).show(out)
    }
}
