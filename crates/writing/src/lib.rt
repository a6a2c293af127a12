// What is written of an update that was read: planned, measured, then written.
#![tactic(auto)]

ghost use Rattle.std.specs.Prelude.{◌≡◌, ◌*◌, ◌≤◌, length};
ghost use Rattle.ranges.specs.TableInner.{rows_from};
ghost use Rattle.vector.specs.Vector.{vector_of};
ghost use Rattle.tokens.specs.Desk.{Room, Blank};
ghost use Rattle.kept.specs.Plan.{entries_of};
ghost use Rattle.encoder.specs.Passes.{planned_tokens};
ghost use Rattle.writing.specs.Writing.{job, sizes_in, planned_answer, planned_out, turned, why_for, kept_answer, kept_out, read_answer, read_out};
ghost use Rattle.writing.specs.WritingInner.{measured_answer, measured_out};

use block::Block;
use encoder::steps::Outcome;
use numbers::Written;
use passes::Measured;

// Planned rows and the first n ranges, in a form, the sizes of its lanes being known: 10, or all of it.
fn encode_planned(
    lanes: &mut [u64],
    update: &[u8],
    form: u8,
    sizes: &[u64],
    rows: &[Block],
    plan: &[u64],
    sections: usize,
    ranges: &[u64],
    n: usize,
    out: &mut [u8],
) -> Written
    requires { (sizes.now ≡ sizes_in (job update.now rows.now plan.now sections (rows_from ranges.now 0 n)) form)
        × (length sizes.now ≡ 10) × (3 * n ≤ length ranges.now) × (5 * sections ≤ length plan.now)
        × Blank lanes.old × Room form (planned_tokens update.now rows.now plan.now sections) lanes.old }
    ensures { (result ≡ planned_answer (job update.now rows.now plan.now sections (rows_from ranges.now 0 n))
        form (length out.old))
        × (out.new ≡ planned_out (job update.now rows.now plan.now sections (rows_from ranges.now 0 n))
        form out.old) }
{
    let used = passes::write(
        out, lanes, sizes, update, rows, plan, sections, ranges, n, form,
    );
    if out.len() < used {
        return numbers::refuse(out, 10);
    }
    numbers::finish(out, used)
}

// Whether a format would change its form.
#[tactic(auto, unfolding(crate::specs::Writing::turned))]
fn is_turned(from: u8, form: u8, formats: bool) -> bool
    ensures { result ≡ turned from form formats }
{
    from != form && formats
}

// Why nothing is written of what was planned and measured, or 0: too many keys, a cut inside a pair, a format that would change its form, a difference that
// cannot be spelled.
#[tactic(auto, unfolding(crate::specs::Writing::why_for))]
fn why_not(from: u8, form: u8, planned: Outcome, measured: Measured) -> u8
    ensures { result ≡ why_for from form planned measured }
{
    if measured.crowded {
        return 3;
    }
    if planned.torn {
        return 9;
    }
    if is_turned(from, form, planned.formats) {
        return 19;
    }
    if measured.far {
        return 13;
    }
    0
}

// Planned rows and the first n ranges, measured and then written, or why they are not.
fn encode_measured(
    lanes: &mut [u64],
    update: &[u8],
    from: u8,
    form: u8,
    planned: Outcome,
    rows: &[Block],
    plan: &[u64],
    ranges: &[u64],
    n: usize,
    out: &mut [u8],
) -> Written
    requires { (3 * n ≤ length ranges.now) × (5 * planned.sections ≤ length plan.now)
        × Blank lanes.old × Room form (planned_tokens update.now rows.now plan.now planned.sections) lanes.old }
    ensures { (result ≡ measured_answer
        (job update.now rows.now plan.now planned.sections (rows_from ranges.now 0 n))
        from form planned (length out.old))
        × (out.new ≡ measured_out
        (job update.now rows.now plan.now planned.sections (rows_from ranges.now 0 n))
        from form planned out.old) }
{
    let mut table = [0u64; 10];
    let sizes = &mut table[..];
    let measured = passes::measure(lanes, sizes, update, rows, plan, planned.sections, form);
    let number = why_not(from, form, planned, measured);
    if number != 0 {
        return numbers::refuse(out, number);
    }
    encode_planned(
        lanes,
        update,
        form,
        sizes,
        rows,
        plan,
        planned.sections,
        ranges,
        n,
        out,
    )
}

// The first rows, as many as are blocks, kept against m entries. There are words for keys only where there may be keys to remember: to clear them takes as
// long as a block.
fn encode_kept(
    update: &[u8],
    clients: &[u64],
    clocks: &[u64],
    m: usize,
    from: u8,
    form: u8,
    rows: &[Block],
    blocks: usize,
    ranges: &[u64],
    n: usize,
    out: &mut [u8],
) -> Written
    requires { (blocks ≤ length rows.now) × (3 * n ≤ length ranges.now) }
    ensures { (result ≡ kept_answer update.now (entries_of m clients.now clocks.now)
        from form rows.now blocks (rows_from ranges.now 0 n) (length out.old))
        × (out.new ≡ kept_out update.now (entries_of m clients.now clocks.now)
        from form rows.now blocks (rows_from ranges.now 0 n) out.old) }
{
    let mut words = [0u64; 320];
    let plan = &mut words[..];
    let planned = encoder::plan_rows(update, rows, blocks, clients, clocks, m, plan);
    let plain = encoder::is_plain(rows, plan, planned.sections, form);
    if plain {
        let mut few = [0u64; 52];
        let lanes = &mut few[..];
        return encode_measured(
            lanes, update, from, form, planned, rows, plan, ranges, n, out,
        );
    }
    let mut many = [0u64; 1333];
    let lanes = &mut many[..];
    encode_measured(
        lanes, update, from, form, planned, rows, plan, ranges, n, out,
    )
}

// The same against a vector.
pub fn encode_read(
    update: &[u8],
    vector: &[u8],
    from: u8,
    form: u8,
    rows: &[Block],
    blocks: usize,
    ranges: &[u64],
    n: usize,
    out: &mut [u8],
) -> Written
    requires { (blocks ≤ length rows.now) × (3 * n ≤ length ranges.now) }
    ensures { (result ≡ read_answer update.now (vector_of vector.now)
        from form rows.now blocks (rows_from ranges.now 0 n) (length out.old))
        × (out.new ≡ read_out update.now (vector_of vector.now)
        from form rows.now blocks (rows_from ranges.now 0 n) out.old) }
{
    let mut first = [0u64; 64];
    let clients = &mut first[..];
    let mut second = [0u64; 64];
    let clocks = &mut second[..];
    match vector::read_entries(vector, clients, clocks) {
        Ok(m) => encode_kept(
            update, clients, clocks, m, from, form, rows, blocks, ranges, n, out,
        ),
        Err(why) => numbers::refuse(out, why.number),
    }
}
