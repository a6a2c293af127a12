// A block of an update, in either form: one grammar over the words in which reading stands and the words of the row that is being read.
#![tactic(auto)]

ghost use Rattle.std.specs.Prelude.{◌≡◌, ◌+◌, ◌≤◌, ◌<◌, length, get_or};
ghost use Rattle.numbers.specs.Limits.{max_clock};
ghost use Rattle.block.specs.Rows.{plain};
ghost use Rattle.block.specs.Kinds.{GC, SKIP};
ghost use Rattle.grammar.specs.Grammar as grammar;
ghost use Rattle.grammar.specs.Blocks as blocks;
ghost use Rattle.fields.specs.Fields.{clock_at};
ghost use Rattle.cells.specs.Cells.{Small, part_in};
ghost use Rattle.item.specs.Row.{id_in, row_in, Narrow, Begun, bare_in, body_in, Put, PutId, PutBlock};

use block::{Block, Id};
use cells::PLACE;
use held::{KIND, LENGTH, MARK, PART, TYPE};
use text::{Part, Units};

// How many words a row has, and which are not of what it holds.
pub const WORDS: usize = 24;

const CLIENT: usize = 0;

const CLOCK: usize = 1;

const HAS_LEFT: usize = 4;

const LEFT: usize = 5;

const HAS_RIGHT: usize = 7;

const RIGHT: usize = 8;

const HAS_PARENT: usize = 10;

const PARENT: usize = 11;

const HAS_NAME: usize = 13;

const NAME: usize = 14;

const HAS_KEY: usize = 16;

const KEY: usize = 17;

// ---- where an item stands

// An id, into words k and k + 1 of the row: client, then clock, which has column c.
fn read_id(form: u8, update: &[u8], w: &mut [u64], r: &mut [u64], c: usize, k: usize) -> Option<()>
    requires { Small w.old × (2 ≤ c) × (c ≤ 3) × (k + 1 < length r.old) × (get_or r.old (k + 1) 0 ≤ 4294967295) }
    ensures { PutId form update.now k w.old w.new r.old r.new result (blocks.an_id (clock_at c)) }
{
    let client = fields::read_client(form, update, w)?;
    let clock = fields::read_clock(form, update, w, c)?;
    r[k] = client;
    r[k + 1] = clock;
    Some(())
}

fn read_left(form: u8, update: &[u8], w: &mut [u64], r: &mut [u64], info: u64) -> Option<()>
    requires { Small w.old × Narrow r.old }
    ensures { Put form update.now w.old w.new r.new result (blocks.left info (row_in r.old)) }
{
    if info < 128 {
        return Some(());
    }
    read_id(form, update, w, r, 2, LEFT)?;
    r[HAS_LEFT] = 1;
    Some(())
}

fn read_right(form: u8, update: &[u8], w: &mut [u64], r: &mut [u64], info: u64) -> Option<()>
    requires { Small w.old × Narrow r.old }
    ensures { Put form update.now w.old w.new r.new result (blocks.right info (row_in r.old)) }
{
    if info % 128 < 64 {
        return Some(());
    }
    read_id(form, update, w, r, 3, RIGHT)?;
    r[HAS_RIGHT] = 1;
    Some(())
}

// The parent that a parent info announces: 1 a name, otherwise an id.
fn read_parent_after(form: u8, update: &[u8], w: &mut [u64], r: &mut [u64], v: u64) -> Option<()>
    requires { Small w.old × Narrow r.old }
    ensures { Put form update.now w.old w.new r.new result (blocks.parent_after (row_in r.old) v) }
{
    if v == 1 {
        fields::read_text(form, update, w, r, NAME)?;
        r[HAS_NAME] = 1;
        return Some(());
    }
    read_id(form, update, w, r, 2, PARENT)?;
    r[HAS_PARENT] = 1;
    Some(())
}

fn read_parent(form: u8, update: &[u8], w: &mut [u64], r: &mut [u64]) -> Option<()>
    requires { Small w.old × Narrow r.old }
    ensures { Put form update.now w.old w.new r.new result (blocks.parent (row_in r.old)) }
{
    let v = fields::read_parent_info(form, update, w)?;
    read_parent_after(form, update, w, r, v)
}

fn read_key(form: u8, update: &[u8], w: &mut [u64], r: &mut [u64], info: u64) -> Option<()>
    requires { Small w.old × Narrow r.old }
    ensures { Put form update.now w.old w.new r.new result (blocks.key info (row_in r.old)) }
{
    if info < 32 {
        return Some(());
    }
    fields::read_text(form, update, w, r, KEY)?;
    r[HAS_KEY] = 1;
    Some(())
}

// Left and right id; if there is neither, parent and key.
fn read_place(form: u8, update: &[u8], w: &mut [u64], r: &mut [u64], info: u64) -> Option<()>
    requires { Small w.old × Narrow r.old }
    ensures { Put form update.now w.old w.new r.new result (blocks.place info (row_in r.old)) }
{
    if info < 64 {
        read_parent(form, update, w, r)?;
        return read_key(form, update, w, r, info);
    }
    read_left(form, update, w, r, info)?;
    read_right(form, update, w, r, info)
}

// ---- a block

fn read_item(
    form: u8,
    update: &[u8],
    w: &mut [u64],
    r: &mut [u64],
    info: u64,
    place: usize,
) -> Option<()>
    requires { Small w.old × Narrow r.old }
    ensures { Put form update.now w.old w.new r.new result (blocks.an_item info place (row_in r.old)) }
{
    read_place(form, update, w, r, info)?;
    held::read_content(form, update, w, r, info, place)
}

fn read_skip(form: u8, update: &[u8], w: &mut [u64], r: &mut [u64]) -> Option<()>
    requires { Small w.old × Narrow r.old × Begun r.old }
    ensures { Put form update.now w.old w.new r.new result
        (bare_in r.old SKIP (grammar.up_to max_clock)) }
{
    let v = fields::read_var(update, w, numbers::MAX_CLOCK)?;
    r[LENGTH] = v;
    r[KIND] = block::SKIP as u64;
    Some(())
}

fn read_gc(form: u8, update: &[u8], w: &mut [u64], r: &mut [u64]) -> Option<()>
    requires { Small w.old × Narrow r.old × Begun r.old }
    ensures { Put form update.now w.old w.new r.new result (bare_in r.old GC grammar.len) }
{
    let v = fields::read_len(form, update, w)?;
    r[LENGTH] = v;
    r[KIND] = block::GC as u64;
    Some(())
}

// The row of a block of which nothing is read yet.
fn begin_row(r: &mut [u64], client: u64, clock: u64)
    requires { (length r.old ≡ 24) × (clock ≤ max_clock) }
    ensures { Narrow r.new × (row_in r.new ≡ plain client clock 0 0) }
{
    r[CLIENT] = client;
    r[CLOCK] = clock;
    r[LENGTH] = 0;
    r[KIND] = 0;
    r[HAS_LEFT] = 0;
    r[LEFT] = 0;
    r[LEFT + 1] = 0;
    r[HAS_RIGHT] = 0;
    r[RIGHT] = 0;
    r[RIGHT + 1] = 0;
    r[HAS_PARENT] = 0;
    r[PARENT] = 0;
    r[PARENT + 1] = 0;
    r[HAS_NAME] = 0;
    r[NAME] = 0;
    r[NAME + 1] = 0;
    r[HAS_KEY] = 0;
    r[KEY] = 0;
    r[KEY + 1] = 0;
    r[PART] = 0;
    r[PART + 1] = 0;
    r[MARK] = 0;
    r[MARK + 1] = 0;
    r[TYPE] = 0;
}

// The info byte, which stands at `place`, decides between Skip, GC and item; the length of a Skip is in line.
fn read_body(
    form: u8,
    update: &[u8],
    w: &mut [u64],
    r: &mut [u64],
    info: u64,
    place: usize,
) -> Option<()>
    requires { Small w.old × Narrow r.old × Begun r.old }
    ensures { Put form update.now w.old w.new r.new result (body_in r.old info place) }
{
    match info {
        10 => read_skip(form, update, w, r),
        0 => read_gc(form, update, w, r),
        _ => read_item(form, update, w, r, info, place),
    }
}

// The block of this client that starts at this clock: the place of its info byte is given back.
pub fn read_block(
    form: u8,
    update: &[u8],
    w: &mut [u64],
    r: &mut [u64],
    client: u64,
    clock: u64,
) -> Option<u64>
    requires { Small w.old × (length r.old ≡ 24) × (clock ≤ max_clock) }
    ensures { PutBlock form update.now w.old w.new r.new result (blocks.block client clock) }
{
    begin_row(r, client, clock);
    let info = fields::read_info(form, update, w)?;
    let place = w[PLACE];
    read_body(form, update, w, r, info, place as usize)?;
    Some(place)
}

// ---- the row itself

fn id_in(r: &[u64], k: usize) -> Id
    requires { (k + 1 < length r.now) × ((id_in r.now k).clock ≤ 4294967295) }
    ensures { result ≡ id_in r.now k }
{
    let client = r[k];
    let clock = r[k + 1] as u32;
    Id { client, clock }
}

fn part_in(r: &[u64], k: usize) -> Part
    requires { k + 1 < length r.now }
    ensures { result ≡ part_in r.now k }
{
    let place = r[k] as usize;
    let bytes = r[k + 1] as usize;
    Part {
        place,
        bytes: text::Bytes(bytes),
    }
}

pub fn length_in(r: &[u64]) -> u64
    requires { Narrow r.now }
    ensures { result ≡ (row_in r.now).length.0 }
{
    r[LENGTH]
}

// An item of length 0; a GC or a Skip of length 0 is kept.
pub fn is_dropped(r: &[u64]) -> bool
    requires { Narrow r.now }
    ensures { result ≡ blocks.dropped (row_in r.now) }
{
    if r[LENGTH] != 0 {
        return false;
    }
    block::is_item(r[KIND] as u8)
}

// The row that the words hold.
pub fn row_in(r: &[u64]) -> Block
    requires { Narrow r.now }
    ensures { result ≡ row_in r.now }
{
    let left = id_in(r, LEFT);
    let right = id_in(r, RIGHT);
    let parent = id_in(r, PARENT);
    let name = part_in(r, NAME);
    let key = part_in(r, KEY);
    let part = part_in(r, PART);
    let mark = part_in(r, MARK);
    Block {
        client: r[CLIENT],
        clock: r[CLOCK] as u32,
        length: Units(r[LENGTH]),
        kind: r[KIND] as u8,
        has_left: r[HAS_LEFT] == 1,
        left_client: left.client,
        left_clock: left.clock,
        has_right: r[HAS_RIGHT] == 1,
        right_client: right.client,
        right_clock: right.clock,
        has_parent: r[HAS_PARENT] == 1,
        parent_client: parent.client,
        parent_clock: parent.clock,
        has_name: r[HAS_NAME] == 1,
        name,
        has_key: r[HAS_KEY] == 1,
        key,
        part,
        mark,
        type_number: r[TYPE] as u16,
    }
}
