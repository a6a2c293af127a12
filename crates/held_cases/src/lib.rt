// Operations 22 and 27 of the case program: a sort by held ids, its reports, the held ids, and the tables that its update was read into.
#![tactic(auto)]

use block::Block;
use held_answers::SortedHeld;
use held_lines::Reports;
use std::fmt;
use stream::shown::Shown;
use stream::sink::Sink;
use stream::source::Source;
use update_cases::tables::{Asked, Tables};
use update_cases::{rows, tables};
use updates::Update;

// What a case asks beside its update and its held ids: what an update's case asks, and how many words are lent for the held ids and for the order.
#[derive(Clone, Copy)]
struct Sorting {
    asked: Asked,
    holding: usize,
    steps: usize,
}

// The line of a sort: its reports, and the tables.
fn tell(reports: Reports, rows: &[Block], words: &[u64], sink: &mut Sink) -> fmt::Result {
    let answer = reports.answer;
    let tables = Tables {
        answer: Update {
            refusal: answer.refusal,
            blocks: answer.blocks,
            ranges: answer.ranges,
        },
        rows,
        words,
        clean: reports.is_clean(),
    };
    (reports, tables).show_line(sink)
}

// The case of a sorter. For the reports as many words are lent as any update can need.
fn ask<F>(sorter: F, case: Sorting, update: &[u8], held: &[u8], sink: &mut Sink) -> Option<()>
where
    F: FnOnce(
        u8,
        &[u8],
        &[u8],
        &mut [Block],
        &mut [u64],
        &mut [u64],
        &mut [u64],
        &mut [u64],
        &mut [u64],
    ) -> SortedHeld,
    requires { F.IsAlwaysCallable sorter }
{
    let Sorting {
        asked,
        holding,
        steps,
    } = case;
    let form = asked.form;
    let mut rows = [rows::LENT; 512];
    let mut words = [tables::LENT; 3072];
    let mut given = [tables::LENT; 3072];
    let mut order = [tables::LENT; 512];
    let mut counts = [tables::LENT; 128];
    let mut pending = [tables::LENT; 192];
    let rows = rows.get_mut(..asked.rows)?;
    let words = words.get_mut(..asked.words)?;
    let given = given.get_mut(..holding)?;
    let order = order.get_mut(..steps)?;
    let counts = &mut counts[..];
    let pending = &mut pending[..];
    let answer = sorter(
        form, update, held, rows, words, given, order, counts, pending,
    );
    let reports = Reports {
        answer,
        given,
        order,
        counts,
        pending,
    };
    tell(reports, rows, words, sink).ok()
}

// A sort by held ids: form, block rows, range rows, held rows, order rows, update, held ids. 22 by the quick sorter, 27 by the slow plain one.
pub fn case(operation: u8, source: &mut Source, bytes: &mut [u8], sink: &mut Sink) -> Option<()> {
    let asked = Asked::take(source)?;
    let holding = source.count(1024)? * 3;
    let steps = source.count(512)?;
    let update = source.bytes(bytes)?;
    let mut held = [0u8; 524288];
    let held = source.bytes(&mut held)?;
    let case = Sorting {
        asked,
        holding,
        steps,
    };
    if operation == 27 {
        return ask(slow_held_sorts::sort_held_slowly, case, update, held, sink);
    }
    ask(held_sorts::sort_held, case, update, held, sink)
}
