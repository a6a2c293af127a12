// What is lent to a writer: filled with something before the call, looked at after it. The last argument of every writer is how much.
use numbers::Written;
use stream::shown;
use stream::shown::{Shown, Wrote};
use stream::sink::Sink;
use stream::source::Source;

// A writer's case, all but its room read. What is lent is full of 0xA5, so that the last word means something.
pub fn write<F: FnOnce(&mut [u8]) -> Written>(
    writer: F,
    source: &mut Source,
    sink: &mut Sink,
) -> Option<()>
    requires { F.IsAlwaysCallable writer }
{
    let room = source.count(65536)?;
    let mut out = [0xA5u8; 65536];
    let lent = out.get_mut(..room)?;
    let answer = writer(lent);
    let wrote = Wrote {
        verdict: shown::unplaced(answer.number),
        bytes: answer.bytes,
        lent,
    };
    wrote.show_line(sink).ok()
}
