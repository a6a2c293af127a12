// Operation 16 of the case program: a diff, and the tables that its update was read into.
#![tactic(auto)]

use block::Block;
use diffs::Diff;
use std::fmt;
use stream::shown;
use stream::shown::{After, Hex, Shown, Verdict};
use stream::sink::Sink;
use stream::source::Source;
use update_cases::tables::Tables;
use update_cases::{rows, tables};
use updates::Update;

// What a case asks beside its update and its vector: the forms, and how many rows, words and bytes are lent.
#[derive(Clone, Copy)]
struct Asked {
    form: u8,
    to: u8,
    rows: usize,
    words: usize,
    room: usize,
}

impl Asked {
    fn take(source: &mut Source) -> Option<Asked> {
        let form = source.small()?;
        let to = source.small()?;
        let rows = source.count(512)?;
        let words = source.count(1024)? * 3;
        let room = source.count(65536)?;
        Some(Asked {
            form,
            to,
            rows,
            words,
            room,
        })
    }
}

// The line of a diff; one that is refused has no bytes.
fn tell(answer: Diff, out: &[u8], rows: &[Block], words: &[u64], sink: &mut Sink) -> fmt::Result {
    let Diff {
        refusal,
        bytes,
        blocks,
        ranges,
    } = answer;
    Verdict(refusal).show(sink)?;
    let (diff, rest) = shown::cut(out, bytes);
    if refusal.number == 0 {
        (After(" ", Hex(diff)), " ;").show(sink)?;
    }
    let tables = Tables {
        answer: Update {
            refusal,
            blocks,
            ranges,
        },
        rows,
        words,
        clean: shown::is_zero(rest),
    };
    tables.show_line(sink)
}

// 16: form, form written, block rows, range rows, room, update, vector.
pub fn read(source: &mut Source, bytes: &mut [u8], sink: &mut Sink) -> Option<()> {
    let asked = Asked::take(source)?;
    let update = source.bytes(bytes)?;
    let mut vector = [0u8; 65536];
    let vector = source.bytes(&mut vector)?;
    let mut rows = [rows::LENT; 512];
    let mut words = [tables::LENT; 3072];
    let mut out = [0xA5u8; 65536];
    let rows = rows.get_mut(..asked.rows)?;
    let words = words.get_mut(..asked.words)?;
    let out = out.get_mut(..asked.room)?;
    let answer = diffs::encode_diff(asked.form, update, vector, asked.to, rows, words, out);
    tell(answer, out, rows, words, sink).ok()
}
