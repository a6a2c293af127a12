// Operation 15: the content of a block.
use stream::shown::{After, Hex, Shown, Verdict};
use stream::sink::Sink;
use stream::source::Source;

// 15: form, n, update.
pub fn read(source: &mut Source, bytes: &mut [u8], sink: &mut Sink) -> Option<()> {
    let form = source.small()?;
    let n = source.count(u64::MAX)?;
    let update = source.bytes(bytes)?;
    let answer = contents::content(form, update, n);
    let verdict = Verdict(answer.refusal);
    if answer.refusal.number != 0 {
        return verdict.show_line(sink).ok();
    }
    let part = After(" ", Hex(answer.part));
    (verdict, part).show_line(sink).ok()
}
