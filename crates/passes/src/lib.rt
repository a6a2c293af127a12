// A form written, all its lanes at once: form 1 in one pass over the planned rows, form 2 in two, the first to measure.
#![tactic(auto)]

pub mod leads;

ghost use Rattle.std.specs.Prelude.{◌≡◌, [], ◌∷◌, ◌*◌, ◌≤◌, length};
ghost use Rattle.ranges.specs.TableInner.{rows_from};
ghost use Rattle.tokens.specs.Tokens.{var};
ghost use Rattle.tokens.specs.KeysInner.{spelled};
ghost use Rattle.tokens.specs.Desk.{Room, Blank};
ghost use Rattle.records.specs.Records.{delete_tokens};
ghost use Rattle.encoder.specs.Passes.{planned_tokens};
ghost use Rattle.passes.specs.Forms.{sizes_for, end_for, out_for};
ghost use Rattle.passes.specs.Measures.{measured_for};

use block::Block;

// Whether a difference cannot be spelled, and whether there are more keys than form 2 may have.
#[derive(Clone, Copy)]
pub struct Measured {
    pub far: bool,
    pub crowded: bool,
}

// The sizes of the lanes that are led by them, and what stands in the way of writing them. Form 1 has no such lanes. The words lent are as they were, for
// what is written then.
pub fn measure(
    lanes: &mut [u64],
    sizes: &mut [u64],
    update: &[u8],
    rows: &[Block],
    plan: &[u64],
    sections: usize,
    form: u8,
) -> Measured
    requires { (length sizes.old ≡ 10) × (5 * sections ≤ length plan.now) × Blank lanes.old
        × Room form (planned_tokens update.now rows.now plan.now sections) lanes.old }
    ensures { (result ≡ measured_for form (planned_tokens update.now rows.now plan.now sections))
        × (sizes.new ≡ sizes_for form (spelled form [] (planned_tokens update.now rows.now plan.now sections))
        sizes.old) × Blank lanes.new }
{
    if form == 1 {
        return Measured {
            far: false,
            crowded: false,
        };
    }
    let mut room = [0u8; 16];
    let nothing = &mut room[..];
    encoder::measure_rows(lanes, update, rows, plan, sections);
    let crowded = leads::is_crowded(lanes);
    tokens::lanes::close(nothing, lanes);
    let far = leads::note(sizes, lanes);
    leads::clear(lanes);
    Measured { far, crowded }
}

// All lanes written, the sizes being known, and the first n ranges; the place after them.
pub fn write(
    out: &mut [u8],
    lanes: &mut [u64],
    sizes: &[u64],
    update: &[u8],
    rows: &[Block],
    plan: &[u64],
    sections: usize,
    ranges: &[u64],
    n: usize,
    form: u8,
) -> usize
    requires { (length sizes.now ≡ 10) × (3 * n ≤ length ranges.now) × (5 * sections ≤ length plan.now) × Blank lanes.old
        × Room form (planned_tokens update.now rows.now plan.now sections) lanes.old }
    ensures { (result ≡ end_for form sizes.now
        (var sections ∷ spelled form [] (planned_tokens update.now rows.now plan.now sections))
        (delete_tokens form (rows_from ranges.now 0 n)))
        × (out.new ≡ out_for form sizes.now
        (var sections ∷ spelled form [] (planned_tokens update.now rows.now plan.now sections))
        (delete_tokens form (rows_from ranges.now 0 n)) out.old) }
{
    let at = leads::open(out, lanes, sizes, form);
    let counted = tokens::line::number(out, at, sections as u64);
    let end = encoder::put_rows(out, lanes, update, rows, plan, sections, form, counted);
    leads::close(out, lanes, form);
    records::delete_set::write_delete_set(out, form, end, ranges, n)
}
