// Operation 18: the listing of an input.
use stream::shown;
use stream::shown::{Shown, Wrote};
use stream::sink::Sink;
use stream::source::Source;

// 18: input, what the listing program would read.
pub fn read(source: &mut Source, bytes: &mut [u8], sink: &mut Sink) -> Option<()> {
    let input = source.bytes(bytes)?;
    let mut out = [0xA5u8; 65536];
    let answer = listed::list(input, &mut out);
    let wrote = Wrote {
        verdict: shown::unplaced(answer.number),
        bytes: answer.bytes,
        lent: &out,
    };
    wrote.show_line(sink).ok()
}
