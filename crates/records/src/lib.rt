// Records written, token by token, in either form: a block, a row that a plan names, a delete set.
#![tactic(auto)]

pub mod delete_set;

ghost use Rattle.std.specs.Prelude.{◌≡◌, [], ◌∷◌, ◌+◌, ◌≤◌};
ghost use Rattle.numbers.specs.Number.{pick};
ghost use Rattle.numbers.specs.Limits.{max_clock};
ghost use Rattle.readings.specs.Sound.{linked};
ghost use Rattle.tokens.specs.Desk.{Tidy, Room, Aliased, Wrote, WroteKeys};
ghost use Rattle.kept.specs.Plan.{rest_of};
ghost use Rattle.records.specs.Records.{info_byte, name, left_tokens, right_tokens, parent_tokens, key_tokens};
ghost use Rattle.records.specs.Records.{place_tokens, content_tokens, block_tokens};
ghost use Rattle.records.specs.Stops.{head_tokens, row_tokens};

use block::Block;
use kept::cursor::Cursor;
use text::{Part, Units};

fn bit(there: bool, n: u8) -> u8
    ensures { (result ≡ pick there n 0) × (result ≤ n) }
{
    if there { n } else { 0 }
}

// 128 for a left id, 64 for a right id, 32 for a key; the low bits are the content's number.
pub fn info_byte(b: Block) -> u8
    ensures { result ≡ info_byte b }
{
    let content = block::content_number(b.kind);
    let left = bit(b.has_left, 128);
    let right = bit(b.has_right, 64);
    let key = bit(b.has_key, 32);
    content + left + right + key
}

pub fn is_linked(b: Block) -> bool
    ensures { result ≡ linked b }
{
    b.has_left || b.has_right
}

// A name or a key: form 1 has no use for its units, so they are counted for form 2 alone.
fn write_name(
    out: &mut [u8],
    update: &[u8],
    lanes: &mut [u64],
    form: u8,
    at: usize,
    part: Part,
) -> usize
    requires { Tidy lanes.old }
    ensures { Wrote form (name update.now part ∷ [])
        out.old lanes.old at out.new lanes.new result }
{
    if form == 1 {
        return tokens::line::led_part(out, update, at, part);
    }
    let units = numbering::count_units(update, part);
    tokens::fields::write_string(out, update, lanes, form, at, part, units)
}

fn write_left(out: &mut [u8], lanes: &mut [u64], form: u8, at: usize, b: Block) -> usize
    requires { Tidy lanes.old }
    ensures { Wrote form (left_tokens b) out.old lanes.old at out.new lanes.new result }
{
    if !b.has_left {
        return at;
    }
    let mid = tokens::fields::write_client(out, lanes, form, at, b.left_client);
    tokens::fields::write_left_clock(out, lanes, form, mid, b.left_clock as u64)
}

fn write_right(out: &mut [u8], lanes: &mut [u64], form: u8, at: usize, b: Block) -> usize
    requires { Tidy lanes.old }
    ensures { Wrote form (right_tokens b) out.old lanes.old at out.new lanes.new result }
{
    if !b.has_right {
        return at;
    }
    let mid = tokens::fields::write_client(out, lanes, form, at, b.right_client);
    tokens::fields::write_right_clock(out, lanes, form, mid, b.right_clock as u64)
}

// A parent by its name, or by its id, which is written as a left id.
fn write_parent(
    out: &mut [u8],
    update: &[u8],
    lanes: &mut [u64],
    form: u8,
    at: usize,
    b: Block,
) -> usize
    requires { Tidy lanes.old }
    ensures { Wrote form (parent_tokens update.now b)
        out.old lanes.old at out.new lanes.new result }
{
    if b.has_name {
        let named = tokens::fields::write_parent_info(out, lanes, form, at, 1);
        let part = b.name;
        return write_name(out, update, lanes, form, named, part);
    }
    let begun = tokens::fields::write_parent_info(out, lanes, form, at, 0);
    let mid = tokens::fields::write_client(out, lanes, form, begun, b.parent_client);
    tokens::fields::write_left_clock(out, lanes, form, mid, b.parent_clock as u64)
}

fn write_key(
    out: &mut [u8],
    update: &[u8],
    lanes: &mut [u64],
    form: u8,
    at: usize,
    b: Block,
) -> usize
    requires { Tidy lanes.old }
    ensures { Wrote form (key_tokens update.now b)
        out.old lanes.old at out.new lanes.new result }
{
    if !b.has_key {
        return at;
    }
    let part = b.key;
    write_name(out, update, lanes, form, at, part)
}

// Where an item stands: beside others, or in a parent.
fn write_place(
    out: &mut [u8],
    update: &[u8],
    lanes: &mut [u64],
    form: u8,
    at: usize,
    b: Block,
) -> usize
    requires { Tidy lanes.old }
    ensures { Wrote form (place_tokens update.now b)
        out.old lanes.old at out.new lanes.new result }
{
    if is_linked(b) {
        let mid = write_left(out, lanes, form, at, b);
        return write_right(out, lanes, form, mid, b);
    }
    let mid = write_parent(out, update, lanes, form, at, b);
    write_key(out, update, lanes, form, mid, b)
}

fn write_content(
    out: &mut [u8],
    update: &[u8],
    lanes: &mut [u64],
    form: u8,
    at: usize,
    b: Block,
) -> usize
    requires { Aliased update.now lanes.old × Room form (content_tokens update.now b) lanes.old }
    ensures { WroteKeys update.now form (content_tokens update.now b)
        out.old lanes.old at out.new lanes.new result }
{
    let length = b.length;
    let part = b.part;
    if b.kind == block::DELETED {
        return tokens::fields::write_len(out, lanes, form, at, length.0);
    }
    if b.kind == block::BINARY {
        return tokens::line::led_part(out, update, at, part);
    }
    if b.kind == block::TEXT {
        return tokens::fields::write_string(out, update, lanes, form, at, part, length);
    }
    marked::write_marked(out, update, lanes, form, at, b)
}

// A block: a GC, a Skip, or an item; of anything else nothing is written.
pub fn write_block(
    out: &mut [u8],
    update: &[u8],
    lanes: &mut [u64],
    form: u8,
    at: usize,
    b: Block,
) -> usize
    requires { Aliased update.now lanes.old × Room form (block_tokens update.now b) lanes.old }
    ensures { WroteKeys update.now form (block_tokens update.now b)
        out.old lanes.old at out.new lanes.new result }
{
    let length = b.length;
    if b.kind == block::GC {
        let gc = tokens::fields::write_info(out, lanes, form, at, 0);
        return tokens::fields::write_len(out, lanes, form, gc, length.0);
    }
    if b.kind == block::SKIP {
        let skip = tokens::fields::write_info(out, lanes, form, at, 10);
        return tokens::line::number(out, skip, length.0);
    }
    if !block::is_item(b.kind) {
        return at;
    }
    let item = tokens::fields::write_info(out, lanes, form, at, info_byte(b));
    let placed = write_place(out, update, lanes, form, item, b);
    write_content(out, update, lanes, form, placed, b)
}

// A section's head: how many blocks, the client, the first clock.
fn write_head(
    out: &mut [u8],
    lanes: &mut [u64],
    form: u8,
    at: usize,
    count: usize,
    from: Units,
    b: Block,
) -> usize
    requires { Tidy lanes.old × (b.clock + from.0 ≤ max_clock) }
    ensures { Wrote form (head_tokens count from.0 b) out.old lanes.old at out.new lanes.new result }
{
    if count == 0 {
        return at;
    }
    let clock = b.clock as u64 + from.0;
    let counted = tokens::line::number(out, at, count as u64);
    let named = tokens::fields::write_client(out, lanes, form, counted, b.client);
    tokens::line::number(out, named, clock)
}

// The row of the table at a cursor.
pub fn write_row(
    out: &mut [u8],
    update: &[u8],
    lanes: &mut [u64],
    form: u8,
    at: usize,
    c: Cursor,
    b: Block,
) -> usize
    requires { Aliased update.now lanes.old
        × Room form (row_tokens update.now c.head (rest_of b c.from.0 c.skip.0) b) lanes.old }
    ensures { WroteKeys update.now form (row_tokens update.now c.head (rest_of b c.from.0 c.skip.0) b)
        out.old lanes.old at out.new lanes.new result }
{
    let from = c.from;
    let skip = c.skip;
    let ends = kept::cursor::rest(b, from, skip);
    if !kept::cursor::is_sane(b, ends) {
        return at;
    }
    let headed = write_head(out, lanes, form, at, c.head, from, b);
    let piece = kept::cursor::cut(b, ends);
    write_block(out, update, lanes, form, headed, piece)
}
