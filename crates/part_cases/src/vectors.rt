// Operation 13: a state vector, read.
use stream::shown;
use stream::shown::{Last, Pairs, Shown, Verdict};
use stream::sink::Sink;
use stream::source::Source;
use update_cases::tables;

// 13: vector. Lent are two words for each entry that a vector may have.
pub fn read(source: &mut Source, sink: &mut Sink) -> Option<()> {
    let mut bytes = [0u8; 65536];
    let vector = source.bytes(&mut bytes)?;
    let mut words = [tables::LENT; 128];
    let answer = vector::read_state_vector(vector, &mut words);
    let (entries, rest) = tables::entries(&words, answer.count, 2);
    let last = Last(shown::is_zero(rest));
    let line = (Verdict(answer.refusal), Pairs(entries), last);
    line.show_line(sink).ok()
}
