// The lines that programs print, to standard output through a lent buffer.
ghost use Rattle.std.specs.Prelude.{◌≡◌};

use std::fmt;
use std::io::{Stdout, Write};

// The buffer's first `used` bytes are not written out yet.
#[derive(Drop)]
pub struct Sink<'a> {
    stdout: Stdout,
    buffer: &'a mut [u8],
    used: usize,
}

impl<'a> Sink<'a> {
    pub fn new(stdout: Stdout, buffer: &'a mut [u8]) -> Sink<'a>
        ensures empty { result.used ≡ 0 }
        ensures same_reference { result.buffer.ghost_name ≡ buffer.entry.ghost_name }
    {
        Sink {
            stdout,
            buffer,
            used: 0,
        }
    }

    // Where standard output takes nothing more there is no one left to tell.
    pub fn flush(&mut self)
        ensures { self.new.used ≡ 0 }
    {
        let mut stdout = self.stdout;
        let used = self.used;
        if let Some(full) = self.buffer.get(..used) {
            let _ = stdout.write_all(full);
        }
        self.used = 0;
    }

    fn put(&mut self, byte: u8) {
        if self.buffer.len() <= self.used {
            self.flush();
        }
        let used = self.used;
        if used < self.buffer.len() {
            self.buffer[used] = byte;
            self.used = used + 1;
        }
    }
}

// It never fails.
impl fmt::Write for Sink<'_> {
    fn write_str(&mut self, text: &str) -> fmt::Result {
        for byte in text.as_bytes() {
            self.put(*byte);
        }
        Ok(())
    }
}
