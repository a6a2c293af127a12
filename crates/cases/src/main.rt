// Runs calls of the public library from standard input, a case at a time, and prints a line a case: what the call answered.
#![tactic(auto)]

use part_cases::{listings, parts, vectors};
use std::fmt::Write;
use stream::sink::Sink;
use stream::source::Source;
use update_cases::tables;

// The operation's case: its arguments taken from the stream, its call made, its line printed. The longest argument is taken into `bytes`.
fn case(operation: u8, source: &mut Source, bytes: &mut [u8], sink: &mut Sink) -> Option<()> {
    match operation {
        13 => vectors::read(source, sink),
        14 => tables::read(source, bytes, sink),
        15 => parts::read(source, bytes, sink),
        16 => diff_cases::read(source, bytes, sink),
        17 | 25 | 26 => sort_cases::case(operation, source, bytes, sink),
        18 => listings::read(source, bytes, sink),
        19 => summary_cases::write(source, bytes, sink),
        20 => summary_cases::read(source, bytes, sink),
        21 => strict_cases::read(source, bytes, sink),
        22 | 27 => held_cases::case(operation, source, bytes, sink),
        30 => text_cases::count(source, bytes, sink),
        31 => text_cases::take(source, bytes, sink),
        32 => text_cases::cut(source, bytes, sink),
        _ => number_cases::case(operation, source, bytes, sink),
    }
}

// Cases up to the stream's end or the first that is none. Nothing says that a stream ends, so the loop counts to a number that no stream uses up.
fn run(source: &mut Source, bytes: &mut [u8], sink: &mut Sink) {
    for _ in 0..u64::MAX {
        let Some(operation) = source.byte() else {
            return;
        };
        if case(operation, source, bytes, sink).is_none() {
            let _ = sink.write_str("bad stream\n");
            return;
        }
    }
}

fn main(rt: HostRuntime) {
    let mut taken = [0u8; 65536];
    let mut bytes = [0u8; 524288];
    let mut printed = [0u8; 65536];
    let mut source = Source::new(rt.stdin(), &mut taken);
    let mut sink = Sink::new(rt.stdout(), &mut printed);
    run(&mut source, &mut bytes, &mut sink);
    sink.flush();
}
