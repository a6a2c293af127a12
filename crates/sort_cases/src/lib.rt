// Operations 17, 25 and 26 of the case program: a sort, its reports, and the tables that its update was read into.
#![tactic(auto)]

use block::Block;
use sort_answers::Sorted;
use sort_lines::Reports;
use std::fmt;
use stream::shown::Shown;
use stream::sink::Sink;
use stream::source::Source;
use update_cases::tables::{Asked, Tables};
use update_cases::{rows, tables};
use updates::Update;

// What a case asks beside its update and its vector: the rule, and what an update's case asks, and how many words are lent for the order.
#[derive(Clone, Copy)]
struct Sorting {
    rule: u8,
    asked: Asked,
    steps: usize,
}

// The line of a sort: its reports, and the tables.
fn tell(reports: Reports, rows: &[Block], words: &[u64], sink: &mut Sink) -> fmt::Result {
    let answer = reports.answer;
    let tables = Tables {
        answer: Update {
            refusal: answer.refusal,
            blocks: answer.blocks,
            ranges: answer.ranges,
        },
        rows,
        words,
        clean: reports.is_clean(),
    };
    (reports, tables).show_line(sink)
}

// The case of a sorter. For the reports as many words are lent as any update and vector can need.
fn ask<F>(sorter: F, case: Sorting, update: &[u8], vector: &[u8], sink: &mut Sink) -> Option<()>
where
    F: FnOnce(
        u8,
        u8,
        &[u8],
        &[u8],
        &mut [Block],
        &mut [u64],
        &mut [u64],
        &mut [u64],
        &mut [u64],
        &mut [u64],
    ) -> Sorted,
    requires { F.IsAlwaysCallable sorter }
{
    let Sorting { rule, asked, steps } = case;
    let form = asked.form;
    let mut rows = [rows::LENT; 512];
    let mut words = [tables::LENT; 3072];
    let mut order = [tables::LENT; 512];
    let mut counts = [tables::LENT; 256];
    let mut reaches = [tables::LENT; 256];
    let mut pending = [tables::LENT; 192];
    let rows = rows.get_mut(..asked.rows)?;
    let words = words.get_mut(..asked.words)?;
    let order = order.get_mut(..steps)?;
    let counts = &mut counts[..];
    let reaches = &mut reaches[..];
    let pending = &mut pending[..];
    let answer = sorter(
        rule, form, update, vector, rows, words, order, counts, reaches, pending,
    );
    let reports = Reports {
        answer,
        order,
        counts,
        reaches,
        pending,
    };
    tell(reports, rows, words, sink).ok()
}

// A sort: form, block rows, range rows, order rows, update, vector. 17: by rule 28. 25: the rule comes first. 26: the same by the slow plain sorter.
pub fn case(operation: u8, source: &mut Source, bytes: &mut [u8], sink: &mut Sink) -> Option<()> {
    // Made before anything is read: later it would be filled with zeros twice (speed).
    let mut vector = [0u8; 65536];
    let rule = if operation == 17 { 28 } else { source.small()? };
    let asked = Asked::take(source)?;
    let steps = source.count(512)?;
    let update = source.bytes(bytes)?;
    let vector = source.bytes(&mut vector)?;
    let case = Sorting { rule, asked, steps };
    if operation == 26 {
        return ask(slow_sorts::sort_slowly, case, update, vector, sink);
    }
    ask(sorts::sort, case, update, vector, sink)
}
