// The lanes of form 2 before the rest, their states in lent words, five a lane: place, last value, key and count of the run under way, and whether a
// difference could not be spelled. A value goes onto its own lane and leaves the others as they are.
ghost use Rattle.std.specs.Prelude.{◌≡◌, true, false, ◌+◌, ◌<◌, ◌≤◌, ltb, length};
ghost use Rattle.numbers.specs.Number.{pick};
ghost use Rattle.runs.specs.Runs.{coding};
ghost use Rattle.runs.specs.RunsInner.{key_most};
ghost use Rattle.runs.specs.declared.ColumnKind.TheVariants.{Number, Difference, Byte};
ghost use Rattle.parts.specs.Brim.{brim};
ghost use Rattle.readings.specs.Sound.{bytes_in};
ghost use Rattle.tokens.specs.Tokens.{in_line, column_in};
ghost use Rattle.tokens.specs.Lanes.{lay, forward, laid_bytes, pushed_on, laid_value, closed, laid_end};
ghost use Rattle.tokens.specs.Desk.{lane_in, lanes_in, Tidy, Alone, closed_each, laid_ends};

use runs::ColumnKind;
use text::Part;

// The lanes, in the order in which they stand; the rest is the eleventh.
pub const KEYS: usize = 0;

pub const CLIENTS: usize = 1;

pub const LEFTS: usize = 2;

pub const RIGHTS: usize = 3;

pub const INFOS: usize = 4;

pub const TEXTS: usize = 5;

pub const UNITS: usize = 6;

pub const PARENTS: usize = 7;

pub const TYPES: usize = 8;

pub const LENS: usize = 9;

// Whether a column that has so many bytes, and so many values in its run, takes one more.
fn is_open(at: usize, count: u64) -> bool
    ensures { result ≡ pick (ltb at brim) (ltb count brim) false }
{
    if parts::BRIM <= at {
        return false;
    }
    count < parts::BRIM as u64
}

// Lane k with this place, last value, key and count.
fn note(lanes: &mut [u64], k: usize, at: usize, last: u64, key: u64, count: u64)
    requires { Tidy lanes.old × (k < 10) × (last ≤ (coding (column_in k)).most) × (key ≤ key_most (column_in k)) }
    ensures { Alone k (record {
      lane = k;
      run = record { column = column_in k; at = at; last = last; key = key; count = count };
      far = (lane_in lanes.old k).far;
    }) lanes.old lanes.new }
{
    let base = 5 * k;
    lanes[base] = at as u64;
    lanes[base + 1] = last;
    lanes[base + 2] = key;
    lanes[base + 3] = count;
}

// ---- a column's rule

// The largest value that it takes.
#[inline(always)]
#[tactic(auto, unfolding(runs::specs::Runs::coding))]
fn most(column: ColumnKind) -> u64
    ensures { result ≡ (coding column).most }
{
    match column {
        ColumnKind::Number => numbers::MAX_VALUE,
        ColumnKind::Difference => numbers::MAX_CLOCK,
        ColumnKind::Byte => 255,
    }
}

// The key of a value behind another.
#[inline(always)]
#[tactic(auto, unfolding(runs::specs::Runs::coding))]
fn key_of(column: ColumnKind, last: u64, v: u64) -> u64
    requires { (last ≤ (coding column).most) × (v ≤ (coding column).most) }
    ensures { result ≡ (coding column).key_of last v }
{
    match column {
        ColumnKind::Number => v,
        ColumnKind::Difference => runs::difference::key_between(last, v),
        ColumnKind::Byte => v,
    }
}

// A run; measured only where there is not plenty of room, for no run has more than 21 bytes.
#[inline(always)]
fn lay_run(out: &mut [u8], column: ColumnKind, at: usize, key: u64, n: u64) -> usize
    requires { (at < brim) × (key ≤ key_most column) }
    ensures { (result ≡ at + length ((coding column).spell key n))
        × (out.new ≡ lay out.old at ((coding column).spell key n)) }
{
    if crate::line::fits(out.len(), at, 21) {
        return runs::put_run(out, column, at, key, n);
    }
    let size = runs::run_size(column, key, n);
    if !crate::line::fits(out.len(), at, size) {
        return at + size;
    }
    runs::put_run(out, column, at, key, n)
}

// Lane k remembers a key that cannot be spelled.
#[inline(always)]
fn note_far(lanes: &mut [u64], k: usize, column: ColumnKind, key: u64)
    requires { Tidy lanes.old × (k < 10) }
    ensures { Alone k (record {
      lane = k;
      run = (lane_in lanes.old k).run;
      far = pick ((coding column).near key) (lane_in lanes.old k).far true;
    }) lanes.old lanes.new }
{
    if runs::judge::far_with(column, false, key) {
        lanes[5 * k + 4] = 1;
    }
}

// ---- a value onto its column: once for all columns, and laid into each that names its own, so that no rule is looked up

#[inline(always)]
fn push(out: &mut [u8], lanes: &mut [u64], k: usize, column: ColumnKind, v: u64)
    requires { Tidy lanes.old × (k < 10) × (column_in k ≡ column) }
    ensures { Alone k (pushed_on (lane_in lanes.old k) v) lanes.old lanes.new
        × (out.new ≡ laid_value out.old (lane_in lanes.old k) v) }
{
    let base = 5 * k;
    let at = lanes[base] as usize;
    let last = lanes[base + 1];
    let key = lanes[base + 2];
    let count = lanes[base + 3];
    if !is_open(at, count) {
        return;
    }
    if most(column) < v {
        return;
    }
    let step = key_of(column, last, v);
    note_far(lanes, k, column, step);
    if count == 0 {
        note(lanes, k, at, v, step, 1);
        return;
    }
    if key == step {
        note(lanes, k, at, v, step, count + 1);
        return;
    }
    let next = lay_run(out, column, at, key, count - 1);
    note(lanes, k, next, v, step, 1);
}

pub fn push_number(out: &mut [u8], lanes: &mut [u64], k: usize, v: u64)
    requires { Tidy lanes.old × (k < 10) × (column_in k ≡ Number) }
    ensures { Alone k (pushed_on (lane_in lanes.old k) v) lanes.old lanes.new
        × (out.new ≡ laid_value out.old (lane_in lanes.old k) v) }
{
    push(out, lanes, k, ColumnKind::Number, v);
}

pub fn push_difference(out: &mut [u8], lanes: &mut [u64], k: usize, v: u64)
    requires { Tidy lanes.old × (k < 10) × (column_in k ≡ Difference) }
    ensures { Alone k (pushed_on (lane_in lanes.old k) v) lanes.old lanes.new
        × (out.new ≡ laid_value out.old (lane_in lanes.old k) v) }
{
    push(out, lanes, k, ColumnKind::Difference, v);
}

pub fn push_byte(out: &mut [u8], lanes: &mut [u64], k: usize, v: u8)
    requires { Tidy lanes.old × (k < 10) × (column_in k ≡ Byte) }
    ensures { Alone k (pushed_on (lane_in lanes.old k) v) lanes.old lanes.new
        × (out.new ≡ laid_value out.old (lane_in lanes.old k) v) }
{
    push(out, lanes, k, ColumnKind::Byte, v as u64);
}

// The bytes of a text.
pub fn put_text(out: &mut [u8], update: &[u8], lanes: &mut [u64], p: Part)
    requires { Tidy lanes.old }
    ensures { Alone 5 (forward (lane_in lanes.old 5) (bytes_in update.now p)) lanes.old lanes.new
        × (out.new ≡ laid_bytes out.old (lane_in lanes.old 5) (bytes_in update.now p)) }
{
    let at = lanes[25] as usize;
    let next = crate::line::part(out, update, at, p);
    lanes[25] = next as u64;
}

// ---- the same measured and not written: most rows are measured so before they are written

#[inline(always)]
fn size(lanes: &mut [u64], k: usize, column: ColumnKind, v: u64)
    requires { Tidy lanes.old × (k < 10) × (column_in k ≡ column) }
    ensures { Alone k (pushed_on (lane_in lanes.old k) v) lanes.old lanes.new }
{
    let base = 5 * k;
    let at = lanes[base] as usize;
    let last = lanes[base + 1];
    let key = lanes[base + 2];
    let count = lanes[base + 3];
    if !is_open(at, count) {
        return;
    }
    if most(column) < v {
        return;
    }
    let step = key_of(column, last, v);
    note_far(lanes, k, column, step);
    if count == 0 {
        note(lanes, k, at, v, step, 1);
        return;
    }
    if key == step {
        note(lanes, k, at, v, step, count + 1);
        return;
    }
    let end = at + runs::run_size(column, key, count - 1);
    note(lanes, k, end, v, step, 1);
}

pub fn size_number(lanes: &mut [u64], k: usize, v: u64)
    requires { Tidy lanes.old × (k < 10) × (column_in k ≡ Number) }
    ensures { Alone k (pushed_on (lane_in lanes.old k) v) lanes.old lanes.new }
{
    size(lanes, k, ColumnKind::Number, v);
}

pub fn size_difference(lanes: &mut [u64], k: usize, v: u64)
    requires { Tidy lanes.old × (k < 10) × (column_in k ≡ Difference) }
    ensures { Alone k (pushed_on (lane_in lanes.old k) v) lanes.old lanes.new }
{
    size(lanes, k, ColumnKind::Difference, v);
}

pub fn size_byte(lanes: &mut [u64], k: usize, v: u8)
    requires { Tidy lanes.old × (k < 10) × (column_in k ≡ Byte) }
    ensures { Alone k (pushed_on (lane_in lanes.old k) v) lanes.old lanes.new }
{
    size(lanes, k, ColumnKind::Byte, v as u64);
}

// The bytes of a text.
pub fn size_text(update: &[u8], lanes: &mut [u64], p: Part)
    requires { Tidy lanes.old }
    ensures { Alone 5 (forward (lane_in lanes.old 5) (bytes_in update.now p)) lanes.old lanes.new }
{
    let at = lanes[25] as usize;
    if parts::BRIM <= at {
        return;
    }
    let end = at + parts::bytes_inside(update, p);
    lanes[25] = end as u64;
}

// ---- the ends

// The last run of a column.
fn close_lane(out: &mut [u8], lanes: &mut [u64], k: usize, column: ColumnKind)
    requires { Tidy lanes.old × (k < 10) × (in_line k ≡ false) × (column_in k ≡ column) }
    ensures { Alone k (closed (lane_in lanes.old k)) lanes.old lanes.new
        × (out.new ≡ laid_end out.old (lane_in lanes.old k)) }
{
    let base = 5 * k;
    let at = lanes[base] as usize;
    let key = lanes[base + 2];
    let count = lanes[base + 3];
    if parts::BRIM <= at {
        return;
    }
    if count == 0 {
        return;
    }
    let size = runs::last_size(column, key, count - 1);
    let next = at + size;
    lanes[base] = next as u64;
    if !crate::line::fits(out.len(), at, size) {
        return;
    }
    runs::put_last(out, column, at, key, count - 1);
}

// The last runs of all columns; texts have none.
pub fn close(out: &mut [u8], lanes: &mut [u64])
    requires { Tidy lanes.old }
    ensures { (lanes_in lanes.new ≡ closed_each (lanes_in lanes.old))
        × (out.new ≡ laid_ends out.old (lanes_in lanes.old)) × Tidy lanes.new }
{
    close_lane(out, lanes, KEYS, ColumnKind::Difference);
    close_lane(out, lanes, CLIENTS, ColumnKind::Number);
    close_lane(out, lanes, LEFTS, ColumnKind::Difference);
    close_lane(out, lanes, RIGHTS, ColumnKind::Difference);
    close_lane(out, lanes, INFOS, ColumnKind::Byte);
    close_lane(out, lanes, UNITS, ColumnKind::Number);
    close_lane(out, lanes, PARENTS, ColumnKind::Byte);
    close_lane(out, lanes, TYPES, ColumnKind::Number);
    close_lane(out, lanes, LENS, ColumnKind::Number);
}
