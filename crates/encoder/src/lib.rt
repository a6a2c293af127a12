// The passes over the block table: a plan of what is kept, the planned rows measured for form 2, and the planned rows written.
#![tactic(auto)]

pub mod steps;

ghost use Rattle.std.specs.Prelude.{◌≡◌, true, ◌*◌, ◌<◌, ◌≤◌, length, take};
ghost use Rattle.kept.specs.Plan.{entries_of};
ghost use Rattle.tokens.specs.Desk.{Room, Aliased, WroteKeys, Sized};
ghost use Rattle.encoder.specs.Passes.{outcome_for, words_for, planned_tokens, Plain};
ghost use Rattle.encoder.specs.Alone.{further_at, one_plan, tokens_at};

use block::Block;
use kept::cursor::Cursor;
use steps::Outcome;

// The first n rows planned, the other side having m entries.
pub fn plan_rows(
    update: &[u8],
    rows: &[Block],
    n: usize,
    clients: &[u64],
    clocks: &[u64],
    m: usize,
    plan: &mut [u64],
) -> Outcome
    requires { n ≤ length rows.now }
    ensures { (result ≡ outcome_for update.now (entries_of m clients.now clocks.now)
        plan.old (take n rows.now))
        × (plan.new ≡ words_for update.now (entries_of m clients.now clocks.now)
        plan.old (take n rows.now)) }
{
    let mut s = kept::plan::begin();
    for i in 0..n {
        let b = table::fetch(rows, i);
        s = kept::plan::see(update, clients, clocks, m, plan, s, i, b);
    }
    steps::end_plan(plan, s)
}

// So many rows are looked at for keys, no more: where there are more, words for keys cost little beside them.
const FEW: usize = 32;

// Whether no key is to be remembered of the planned rows. Form 1 remembers none.
pub fn is_plain(rows: &[Block], plan: &[u64], sections: usize, form: u8) -> bool
    requires { 5 * sections ≤ length plan.now }
    ensures { result ≡ true → Plain form rows.now plan.now sections }
{
    if form == 1 {
        return true;
    }
    let mut c = kept::cursor::open(plan, sections, 0);
    for _ in 0..FEW {
        if rows.len() <= c.row {
            return true;
        }
        let b = table::fetch(rows, c.row);
        if steps::has_key(b) {
            return false;
        }
        c = kept::cursor::advance(plan, sections, c);
    }
    rows.len() <= c.row
}

// The planned rows onto the lanes of a form, the place in line being `at`; where there is no room they are measured. The place in line after them.
pub fn put_rows(
    out: &mut [u8],
    lanes: &mut [u64],
    update: &[u8],
    rows: &[Block],
    plan: &[u64],
    sections: usize,
    form: u8,
    at: usize,
) -> usize
    requires { Aliased update.now lanes.old × (5 * sections ≤ length plan.now)
        × Room form (planned_tokens update.now rows.now plan.now sections) lanes.old }
    ensures { WroteKeys update.now form (planned_tokens update.now rows.now plan.now sections)
        out.old lanes.old at out.new lanes.new result }
{
    let mut end = at;
    let mut c = kept::cursor::open(plan, sections, 0);
    // Kept, point 3 (no plainer): no index is counted, the cursor goes to the row that the plan names next.
    while c.row < rows.len() {
        let b = table::fetch(rows, c.row);
        end = records::write_row(out, update, lanes, form, end, c, b);
        c = kept::cursor::advance(plan, sections, c);
    }
    end
}

// Whether the row at a cursor is whole and not the first of its section.
#[tactic(auto, unfolding(crate::specs::Alone::further_at))]
fn is_further(c: Cursor) -> bool
    ensures { result ≡ further_at c }
{
    c.head == 0 && c.from.0 == 0 && c.skip.0 == 0
}

// The plan of one row: its section's count is 1, or 0 where it has no head.
fn plan_one(plan: &mut [u64], c: Cursor)
    requires { length plan.old ≡ 5 }
    ensures { plan.new ≡ one_plan c }
{
    plan[0] = 0;
    plan[1] = c.row as u64;
    plan[2] = c.head.min(1) as u64;
    plan[3] = c.from.0;
    plan[4] = c.skip.0 as u64;
}

// Any row measured for form 2: as a plan of its own, written where there is no room.
fn measure_alone(lanes: &mut [u64], update: &[u8], rows: &[Block], c: Cursor)
    requires { Aliased update.now lanes.old × (c.row < length rows.now) × Room 2 (tokens_at update.now rows.now c) lanes.old }
    ensures { Sized update.now (tokens_at update.now rows.now c) lanes.old lanes.new }
{
    let mut room = [0u8; 16];
    let nothing = &mut room[..];
    let mut words = [0u64; 5];
    let plan = &mut words[..];
    plan_one(plan, c);
    put_rows(nothing, lanes, update, rows, plan, 1, 2, 0);
}

fn measure_row(lanes: &mut [u64], update: &[u8], rows: &[Block], c: Cursor)
    requires { Aliased update.now lanes.old × (c.row < length rows.now) × Room 2 (tokens_at update.now rows.now c) lanes.old }
    ensures { Sized update.now (tokens_at update.now rows.now c) lanes.old lanes.new }
{
    if is_further(c) {
        let b = table::fetch(rows, c.row);
        if sizing::size_block(update, lanes, b) {
            return;
        }
    }
    measure_alone(lanes, update, rows, c);
}

// The planned rows measured for form 2: the same words as `put_rows` leaves.
pub fn measure_rows(lanes: &mut [u64], update: &[u8], rows: &[Block], plan: &[u64], sections: usize)
    requires { Aliased update.now lanes.old × (5 * sections ≤ length plan.now)
        × Room 2 (planned_tokens update.now rows.now plan.now sections) lanes.old }
    ensures { Sized update.now (planned_tokens update.now rows.now plan.now sections)
        lanes.old lanes.new }
{
    let mut c = kept::cursor::open(plan, sections, 0);
    // Kept, point 3 (no plainer): no index is counted, the cursor goes to the row that the plan names next.
    while c.row < rows.len() {
        measure_row(lanes, update, rows, c);
        c = kept::cursor::advance(plan, sections, c);
    }
}
