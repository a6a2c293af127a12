// The stream's arguments, taken from standard input through a lent buffer.
ghost use Rattle.std.specs.Prelude.{◌≡◌, ◌≤◌, IfSome, length};

use std::io::{Read, Stdin};

// The buffer's bytes from `at` to `end` are not taken yet. Each call answers `None` where the stream has no such argument; it is not asked again.
#[derive(Drop)]
pub struct Source<'a> {
    stdin: Stdin,
    buffer: &'a mut [u8],
    at: usize,
    end: usize,
}

impl<'a> Source<'a> {
    pub fn new(stdin: Stdin, buffer: &'a mut [u8]) -> Source<'a>
        ensures empty { (result.at ≡ 0) × (result.end ≡ 0) }
        ensures same_reference { result.buffer.ghost_name ≡ buffer.entry.ghost_name }
    {
        Source {
            stdin,
            buffer,
            at: 0,
            end: 0,
        }
    }

    // A read that fails is taken as the stream's end.
    pub fn byte(&mut self) -> Option<u8> {
        if self.end <= self.at {
            self.end = self.stdin.read(&mut *self.buffer).ok()?;
            self.at = 0;
        }
        let at = self.at;
        if self.end <= at {
            return None;
        }
        self.at = at + 1;
        self.buffer.get(at).copied()
    }

    fn one_by_one(&mut self, lent: &mut [u8]) -> Option<()> {
        for byte in lent.iter_mut() {
            *byte = self.byte()?;
        }
        Some(())
    }

    // Bytes that lie ready in the buffer are taken at once (speed).
    fn chunk(&mut self, lent: &mut [u8]) -> Option<()> {
        let at = self.at;
        let end = self.end;
        let not_taken = self.buffer.get(at..end)?;
        let Some(ready) = not_taken.get(..lent.len()) else {
            return self.one_by_one(lent);
        };
        lent.copy_from_slice(ready);
        self.at = at + lent.len();
        Some(())
    }

    fn fill(&mut self, lent: &mut [u8]) -> Option<()> {
        for chunk in lent.chunks_mut(512) {
            self.chunk(chunk)?;
        }
        Some(())
    }

    fn array<const N: usize>(&mut self) -> Option<[u8; N]> {
        let mut bytes = [0; N];
        self.fill(&mut bytes)?;
        Some(bytes)
    }

    // A number, not asked over `most`.
    pub fn number(&mut self, most: u64) -> Option<u64>
        ensures { IfSome result (λ value. value ≤ most) }
    {
        let value = u64::from_le_bytes(self.array()?);
        if value <= most { Some(value) } else { None }
    }

    // The same, where it counts something.
    pub fn count(&mut self, most: u64) -> Option<usize>
        ensures { IfSome result (λ count. count ≤ most) }
    {
        Some(self.number(most)? as usize)
    }

    // A number that is told in a byte; its type says that it is not over 255.
    pub fn small(&mut self) -> Option<u8> {
        u8::try_from(self.number(255)?).ok()
    }

    // The length in bytes that leads an argument.
    fn size(&mut self) -> Option<usize> {
        Some(u32::from_le_bytes(self.array()?) as usize)
    }

    // Bytes led by their length, at most as many as are lent.
    pub fn bytes<'b>(&mut self, lent: &'b mut [u8]) -> Option<&'b [u8]>
        ensures { IfSome result (λ read. length read.now ≤ length lent.old) }
    {
        let size = self.size()?;
        let taken = lent.get_mut(..size)?;
        self.fill(taken)?;
        Some(taken)
    }

    // A list: bytes with eight bytes a number, at most as many numbers as are lent.
    pub fn list<'b>(&mut self, lent: &'b mut [u64]) -> Option<&'b [u64]>
        ensures { IfSome result (λ read. length read.now ≤ length lent.old) }
    {
        let size = self.size()?;
        if size % 8 != 0 {
            return None;
        }
        let taken = lent.get_mut(..size / 8)?;
        for number in taken.iter_mut() {
            *number = self.number(u64::MAX)?;
        }
        Some(taken)
    }
}
