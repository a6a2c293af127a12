// A draw, told: the field that a plan asks for is drawn, and its lines, with their origins, are put into a sheet.
#![tactic(auto)]

ghost use Rattle.std.specs.Prelude.{◌≡◌, ◌+◌, ◌*◌, ◌≤◌, length};
ghost use Rattle.grammar.specs.Grammar as grammar;
ghost use Rattle.decoder.specs.ColumnedInner.{fields};
ghost use Rattle.cells.specs.Cells.{state_in, part_in, Small};
ghost use Rattle.fields.specs.Fields.{Given, WordGiven};
ghost use Rattle.roles.specs.Roles.{code_of};
ghost use Rattle.origins.specs.Numerals.{numeral};
ghost use Rattle.telling.specs.TellingInner.{field_at, Tells};
ghost use Rattle.telling.specs.Asked.{stored, stored_in, asks};

use cells::{AT, KEY_COUNT, PLACE};
use origins::Number;
use roles::{Plan, Role};
use text::{Bytes, Part};

// ---- what a plan asks for

// Bytes in line: led by their length; a mark's value; so many plain values. These say the place that is blamed.
#[derive(Clone, Copy)]
pub enum Stored {
    Bytes,
    Value(u64),
    Values(u64, u64),
}

#[derive(Clone, Copy)]
pub enum Asked {
    Number(Number),
    Text,
    Key,
    Stored(Stored),
}

fn ask(q: Plan) -> Asked
    ensures { asks result ≡ field_at q }
{
    let role = q.role;
    match role {
        Role::Sections => Asked::Number(Number::UpTo(numbers::MAX_CLIENTS)),
        Role::Blocks => Asked::Number(Number::UpTo(q.room)),
        Role::Client => Asked::Number(Number::Client),
        Role::FirstClock => Asked::Number(Number::UpTo(numbers::MAX_CLOCK)),
        Role::Info => Asked::Number(Number::Info),
        Role::SkipLength => Asked::Number(Number::UpTo(numbers::MAX_CLOCK)),
        Role::GcLength => Asked::Number(Number::Len),
        Role::LeftClient => Asked::Number(Number::Client),
        Role::LeftClock => Asked::Number(Number::LeftClock),
        Role::RightClient => Asked::Number(Number::Client),
        Role::RightClock => Asked::Number(Number::RightClock),
        Role::ParentInfo => Asked::Number(Number::ParentInfo),
        Role::ParentName => Asked::Text,
        Role::ParentClient => Asked::Number(Number::Client),
        Role::ParentClock => Asked::Number(Number::LeftClock),
        Role::Key => Asked::Text,
        Role::DeletedLength => Asked::Number(Number::Len),
        Role::Binary => Asked::Stored(Stored::Bytes),
        Role::Text => Asked::Text,
        Role::MarkKey => Asked::Key,
        Role::MarkValue => Asked::Stored(Stored::Value(q.place)),
        Role::TypeNumber => Asked::Number(Number::TypeNumber),
        Role::NodeName => Asked::Key,
        Role::ListLength => Asked::Number(Number::Len),
        Role::ListValues => Asked::Stored(Stored::Values(q.place, q.length)),
        Role::Ended => Asked::Stored(Stored::Bytes),
        Role::Over => Asked::Stored(Stored::Bytes),
    }
}

// ---- a draw told

fn draw(form: u8, update: &[u8], w: &mut [u64], n: Number) -> Option<u64>
    requires { Small w.old }
    ensures { Given w.old w.new result (fields form update.now (grammar.number (numeral n)) (state_in w.old)) }
{
    match n {
        Number::Client => fields::read_client(form, update, w),
        Number::LeftClock => fields::read_clock(form, update, w, 2),
        Number::RightClock => fields::read_clock(form, update, w, 3),
        Number::Info => fields::read_info(form, update, w),
        Number::ParentInfo => fields::read_parent_info(form, update, w),
        Number::Len => fields::read_len(form, update, w),
        Number::TypeNumber => keyed::read_type(form, update, w),
        Number::UpTo(most) => fields::read_var(update, w, most),
    }
}

fn tell_number(
    form: u8,
    update: &[u8],
    w: &mut [u64],
    sheet: &mut [u64],
    i: usize,
    code: u64,
    n: Number,
) -> Option<(u64, u64, usize)>
    requires { Small w.old × (12 * (i + 1) ≤ length sheet.old) }
    ensures { Tells form update.now code (grammar.number (numeral n)) w.old w.new
        sheet.old sheet.new i result }
{
    let from = w[AT];
    let base = origins::base_of(w, n);
    let v = draw(form, update, w, n)?;
    let place = w[PLACE];
    if form == 1 {
        let l = origins::plain_line(code, v, from, w[AT]);
        origins::put_line(sheet, i, l);
        return Some((v, place, 1));
    }
    let l = origins::number_line(update, w, code, n, v, from, base);
    origins::put_line(sheet, i, l);
    Some((v, place, 1))
}

// The part that was read into the first two words of a row.
fn part_in(r: &[u64]) -> Part
    requires { length r.now ≡ 2 }
    ensures { result ≡ part_in r.now 0 }
{
    let place = r[0] as usize;
    let bytes = r[1] as usize;
    Part {
        place,
        bytes: Bytes(bytes),
    }
}

fn tell_text(
    form: u8,
    update: &[u8],
    w: &mut [u64],
    part: &mut [u64],
    sheet: &mut [u64],
    i: usize,
    code: u64,
) -> Option<(u64, u64, usize)>
    requires { Small w.old × (length part.old ≡ 2) × (12 * (i + 1) ≤ length sheet.old) }
    ensures { Tells form update.now code grammar.text w.old w.new
        sheet.old sheet.new i result × (length part.new ≡ 2) }
{
    let from = w[AT];
    let units = fields::read_text(form, update, w, part, 0)?;
    let p = part_in(part);
    if form == 1 {
        let l = origins::stored_line(code, units, p, from);
        origins::put_line(sheet, i, l);
        return Some((units, 0, 1));
    }
    let l = origins::text_line(update, w, code, p);
    origins::put_line(sheet, i, l);
    Some((units, 0, 1))
}

fn read_stored(form: u8, update: &[u8], w: &mut [u64], part: &mut [u64], x: Stored) -> Option<()>
    requires { Small w.old × (length part.old ≡ 2) }
    ensures { WordGiven 0 w.old w.new part.old part.new result
        (stored_in form update.now x (state_in w.old)) }
{
    match x {
        Stored::Bytes => fields::read_buf(update, w, part, 0),
        Stored::Value(blame) => keyed::read_value(form, update, w, part, 0, blame as usize),
        Stored::Values(blame, n) => {
            keyed::read_values(form, update, w, part, 0, blame as usize, n)
        }
    }
}

fn tell_stored(
    form: u8,
    update: &[u8],
    w: &mut [u64],
    part: &mut [u64],
    sheet: &mut [u64],
    i: usize,
    code: u64,
    x: Stored,
) -> Option<(u64, u64, usize)>
    requires { Small w.old × (length part.old ≡ 2) × (12 * (i + 1) ≤ length sheet.old) }
    ensures { Tells form update.now code (stored x) w.old w.new
        sheet.old sheet.new i result × (length part.new ≡ 2) }
{
    let from = w[AT];
    read_stored(form, update, w, part, x)?;
    let p = part_in(part);
    let l = origins::stored_line(code, part[1], p, from);
    origins::put_line(sheet, i, l);
    Some((0, 0, 1))
}

// In form 2 a key has a number, and a text of its own where it is a new one.
fn tell_key(
    form: u8,
    update: &[u8],
    w: &mut [u64],
    part: &mut [u64],
    sheet: &mut [u64],
    i: usize,
    code: u64,
) -> Option<(u64, u64, usize)>
    requires { Small w.old × (length part.old ≡ 2) × (12 * (i + 2) ≤ length sheet.old) }
    ensures { Tells form update.now code grammar.key w.old w.new
        sheet.old sheet.new i result × (length part.new ≡ 2) }
{
    let from = w[AT];
    let base = w[2];
    let keys = w[KEY_COUNT];
    keyed::read_key(form, update, w, part, 0)?;
    let p = part_in(part);
    if form == 1 {
        let l = origins::stored_line(code, part[1], p, from);
        origins::put_line(sheet, i, l);
        return Some((0, 0, 1));
    }
    let n = origins::put_key(update, w, sheet, i, code, p, base, keys);
    Some((0, 0, n))
}

// Draws what the plan asks for, and tells it from line i of the sheet on: what the plan hears of it (the number, or a text's units), the place that the
// number is blamed at, and how many lines were told.
pub fn tell(
    form: u8,
    update: &[u8],
    w: &mut [u64],
    part: &mut [u64],
    sheet: &mut [u64],
    i: usize,
    q: Plan,
) -> Option<(u64, u64, usize)>
    requires { Small w.old × (length part.old ≡ 2) × (12 * (i + 2) ≤ length sheet.old) }
    ensures { Tells form update.now (code_of q.role) (field_at q) w.old w.new
        sheet.old sheet.new i result × (length part.new ≡ 2) }
{
    let role = q.role;
    let code = roles::code_of(role);
    match ask(q) {
        Asked::Number(n) => tell_number(form, update, w, sheet, i, code, n),
        Asked::Text => tell_text(form, update, w, part, sheet, i, code),
        Asked::Key => tell_key(form, update, w, part, sheet, i, code),
        Asked::Stored(x) => tell_stored(form, update, w, part, sheet, i, code, x),
    }
}
