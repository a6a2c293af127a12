// The fields of an update that have a column, written: form 1 has each in line, form 2 hands each to its lane. What goes from field to field is the place
// in line; what has no column stands in line in both forms (`line`).
ghost use Rattle.std.specs.Prelude.{◌≡◌, [], ◌∷◌, ◌<◌};
ghost use Rattle.readings.specs.Sound.{bytes_in};
ghost use Rattle.runs.specs.declared.ColumnKind.TheVariants.{Number, Difference, Byte};
ghost use Rattle.tokens.specs.Tokens.{client, left, right, info, parent_info, text, len, value};
ghost use Rattle.tokens.specs.TokensInner.{type_number};
ghost use Rattle.tokens.specs.Desk.{Tidy, Wrote};

use text::{Part, Units};

pub fn write_client(out: &mut [u8], lanes: &mut [u64], form: u8, at: usize, v: u64) -> usize
    requires { Tidy lanes.old }
    ensures { Wrote form (client v ∷ []) out.old lanes.old at out.new lanes.new result }
{
    if form == 1 {
        return crate::line::number(out, at, v);
    }
    crate::lanes::push_number(out, lanes, crate::lanes::CLIENTS, v);
    at
}

// The clock of a left id, or of a parent id.
pub fn write_left_clock(out: &mut [u8], lanes: &mut [u64], form: u8, at: usize, v: u64) -> usize
    requires { Tidy lanes.old }
    ensures { Wrote form (left v ∷ []) out.old lanes.old at out.new lanes.new result }
{
    if form == 1 {
        return crate::line::number(out, at, v);
    }
    crate::lanes::push_difference(out, lanes, crate::lanes::LEFTS, v);
    at
}

pub fn write_right_clock(out: &mut [u8], lanes: &mut [u64], form: u8, at: usize, v: u64) -> usize
    requires { Tidy lanes.old }
    ensures { Wrote form (right v ∷ []) out.old lanes.old at out.new lanes.new result }
{
    if form == 1 {
        return crate::line::number(out, at, v);
    }
    crate::lanes::push_difference(out, lanes, crate::lanes::RIGHTS, v);
    at
}

// A byte also in line.
pub fn write_info(out: &mut [u8], lanes: &mut [u64], form: u8, at: usize, v: u8) -> usize
    requires { Tidy lanes.old }
    ensures { Wrote form (info v ∷ []) out.old lanes.old at out.new lanes.new result }
{
    if form == 1 {
        return crate::line::byte(out, at, v);
    }
    crate::lanes::push_byte(out, lanes, crate::lanes::INFOS, v);
    at
}

// 1 before a name, 0 before an id: one byte in either form.
pub fn write_parent_info(out: &mut [u8], lanes: &mut [u64], form: u8, at: usize, v: u8) -> usize
    requires { Tidy lanes.old × (v < 128) }
    ensures { Wrote form (parent_info v ∷ []) out.old lanes.old at out.new lanes.new result }
{
    if form == 1 {
        return crate::line::byte(out, at, v);
    }
    crate::lanes::push_byte(out, lanes, crate::lanes::PARENTS, v);
    at
}

pub fn write_len(out: &mut [u8], lanes: &mut [u64], form: u8, at: usize, v: u64) -> usize
    requires { Tidy lanes.old }
    ensures { Wrote form (len v ∷ []) out.old lanes.old at out.new lanes.new result }
{
    if form == 1 {
        return crate::line::number(out, at, v);
    }
    crate::lanes::push_number(out, lanes, crate::lanes::LENS, v);
    at
}

pub fn write_type(out: &mut [u8], lanes: &mut [u64], form: u8, at: usize, v: u64) -> usize
    requires { Tidy lanes.old }
    ensures { Wrote form (type_number v ∷ []) out.old lanes.old at out.new lanes.new result }
{
    if form == 1 {
        return crate::line::number(out, at, v);
    }
    crate::lanes::push_number(out, lanes, crate::lanes::TYPES, v);
    at
}

// A mark's value: a text in form 1, as it stands in form 2.
pub fn write_value(
    out: &mut [u8],
    update: &[u8],
    lanes: &mut [u64],
    form: u8,
    at: usize,
    part: Part,
) -> usize
    requires { Tidy lanes.old }
    ensures { Wrote form (value (bytes_in update.now part) ∷ [])
        out.old lanes.old at out.new lanes.new result }
{
    if form == 1 {
        return crate::line::led_part(out, update, at, part);
    }
    crate::line::part(out, update, at, part)
}

// A text of so many units.
pub fn write_string(
    out: &mut [u8],
    update: &[u8],
    lanes: &mut [u64],
    form: u8,
    at: usize,
    part: Part,
    units: Units,
) -> usize
    requires { Tidy lanes.old }
    ensures { Wrote form (text (bytes_in update.now part) units.0 ∷ []) out.old lanes.old at
        out.new lanes.new result }
{
    if form == 1 {
        return crate::line::led_part(out, update, at, part);
    }
    crate::lanes::put_text(out, update, lanes, part);
    crate::lanes::push_number(out, lanes, crate::lanes::UNITS, units.0);
    at
}
