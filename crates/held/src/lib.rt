// What an item holds, in either form, read into the words of its row: the length, the kind, the part, the mark and the type number.
#![tactic(auto)]

ghost use Rattle.std.specs.Prelude.{◌≤◌};
ghost use Rattle.grammar.specs.Blocks as blocks;
ghost use Rattle.cells.specs.Cells.{Small};
ghost use Rattle.held.specs.Row.{row_in, Narrow, Put};

// Which words of a row they are.
pub const LENGTH: usize = 2;

pub const KIND: usize = 3;

pub const PART: usize = 19;

pub const MARK: usize = 21;

pub const TYPE: usize = 23;

fn read_deleted(form: u8, update: &[u8], w: &mut [u64], r: &mut [u64]) -> Option<()>
    requires { Small w.old × Narrow r.old }
    ensures { Put form update.now w.old w.new r.new result (blocks.deleted (row_in r.old)) }
{
    let v = fields::read_len(form, update, w)?;
    r[PART] = 0;
    r[PART + 1] = 0;
    r[LENGTH] = v;
    r[KIND] = block::DELETED as u64;
    Some(())
}

fn read_binary(form: u8, update: &[u8], w: &mut [u64], r: &mut [u64]) -> Option<()>
    requires { Small w.old × Narrow r.old }
    ensures { Put form update.now w.old w.new r.new result (blocks.binary (row_in r.old)) }
{
    fields::read_buf(update, w, r, PART)?;
    r[LENGTH] = 1;
    r[KIND] = block::BINARY as u64;
    Some(())
}

fn read_string(form: u8, update: &[u8], w: &mut [u64], r: &mut [u64]) -> Option<()>
    requires { Small w.old × Narrow r.old }
    ensures { Put form update.now w.old w.new r.new result (blocks.string (row_in r.old)) }
{
    let units = fields::read_text(form, update, w, r, PART)?;
    r[LENGTH] = units;
    r[KIND] = block::TEXT as u64;
    Some(())
}

// A key and its value, of a block whose info byte stands at `place`.
fn read_format(form: u8, update: &[u8], w: &mut [u64], r: &mut [u64], place: usize) -> Option<()>
    requires { Small w.old × Narrow r.old }
    ensures { Put form update.now w.old w.new r.new result (blocks.format place (row_in r.old)) }
{
    keyed::read_key(form, update, w, r, MARK)?;
    keyed::read_value(form, update, w, r, PART, place)?;
    r[LENGTH] = 1;
    r[KIND] = block::FORMAT as u64;
    Some(())
}

// The node name of a type that has one.
fn read_node(form: u8, update: &[u8], w: &mut [u64], r: &mut [u64], number: u64) -> Option<()>
    requires { Small w.old × Narrow r.old × (number ≤ 65535) }
    ensures { Put form update.now w.old w.new r.new result (blocks.node number (row_in r.old)) }
{
    if block::is_named(number as u16) {
        return keyed::read_key(form, update, w, r, MARK);
    }
    Some(())
}

fn read_type(form: u8, update: &[u8], w: &mut [u64], r: &mut [u64], place: usize) -> Option<()>
    requires { Small w.old × Narrow r.old }
    ensures { Put form update.now w.old w.new r.new result (blocks.type place (row_in r.old)) }
{
    let number = keyed::read_type(form, update, w)?;
    if block::MAX_TYPE < number {
        cells::refuse(w, 5, place);
        return None;
    }
    r[PART] = 0;
    r[PART + 1] = 0;
    r[LENGTH] = 1;
    r[KIND] = block::TYPE as u64;
    r[TYPE] = number;
    read_node(form, update, w, r, number)
}

// A list of plain values.
fn read_any(form: u8, update: &[u8], w: &mut [u64], r: &mut [u64], place: usize) -> Option<()>
    requires { Small w.old × Narrow r.old }
    ensures { Put form update.now w.old w.new r.new result (blocks.any_list place (row_in r.old)) }
{
    let n = fields::read_len(form, update, w)?;
    keyed::read_values(form, update, w, r, PART, place, n)?;
    r[LENGTH] = n;
    r[KIND] = block::ANY as u64;
    Some(())
}

// The content, by the low five bits of the info byte, which stands at `place`.
pub fn read_content(
    form: u8,
    update: &[u8],
    w: &mut [u64],
    r: &mut [u64],
    info: u64,
    place: usize,
) -> Option<()>
    requires { Small w.old × Narrow r.old }
    ensures { Put form update.now w.old w.new r.new result (blocks.content info place (row_in r.old)) }
{
    let content = info % 32;
    match content {
        1 => read_deleted(form, update, w, r),
        3 => read_binary(form, update, w, r),
        4 => read_string(form, update, w, r),
        6 => read_format(form, update, w, r, place),
        7 => read_type(form, update, w, r, place),
        8 => read_any(form, update, w, r, place),
        _ => {
            cells::refuse(w, 5, place);
            None
        }
    }
}
