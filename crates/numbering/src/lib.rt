// Keys in form 2, by number: the keys known stand in lent words behind the lanes, place and bytes of each. A key is looked for among them, at most 256, by its
// bytes; one that is not there takes the next number, and its text follows. A long key that is named again is known by its part (`aliases`).
#![tactic(auto)]

pub mod aliases;

ghost use Rattle.std.specs.Prelude.{◌≡◌, [], ◌∷◌, ◌≤◌, ◌<◌, length};
ghost use Rattle.text.specs.Utf8.{counted_in};
ghost use Rattle.readings.specs.Sound.{bytes_in};
ghost use Rattle.tokens.specs.Tokens.{key};
ghost use Rattle.tokens.specs.Keys.{same, number_of};
ghost use Rattle.tokens.specs.Desk.{key_count, key_at, known_in, Tidy, Room, Aliased, WroteKeys};
ghost use Rattle.numbering.specs.Numbering.{Remembers, SameBelow};

use text::{Bytes, Part, Units};

// How many keys are known, whether one found no room, and the first key.
pub const COUNT: usize = 50;

pub const CROWDED: usize = 51;

pub const FIRST: usize = 52;

pub const MAX_KEYS: usize = 256;

// Keys of so many bytes or fewer are compared each time: most marks and node names are short, and in form 1 each has a place of its own.
pub const SHORT: usize = 16;

// The units of a part's text.
pub fn count_units(update: &[u8], part: Part) -> Units
    ensures { result ≡ (counted_in (bytes_in update.now part)).units }
{
    let size = parts::bytes_inside(update, part);
    if size == 0 {
        return Units(0);
    }
    let from = part.place;
    let counted = text::count_units(update, from, from + size);
    counted.units
}

fn known(lanes: &[u64], i: usize) -> Part
    requires { Tidy lanes.now × (1333 ≤ length lanes.now) × (i < 256) }
    ensures { result ≡ key_at lanes.now i }
{
    let base = FIRST + 2 * i;
    let place = lanes[base] as usize;
    let bytes = lanes[base + 1] as usize;
    Part {
        place,
        bytes: Bytes(bytes),
    }
}

// Whether two parts have the same bytes.
fn is_same(update: &[u8], p: Part, q: Part) -> bool
    ensures { result ≡ same (bytes_in update.now p) (bytes_in update.now q) }
{
    parts::bytes(update, p) == parts::bytes(update, q)
}

// The number of a key: the next one, if it is not known.
fn find(update: &[u8], lanes: &[u64], part: Part) -> usize
    requires { Tidy lanes.now × (1333 ≤ length lanes.now) }
    ensures { result ≡ number_of (bytes_in update.now part) (known_in update.now lanes.now) }
{
    let count = lanes[COUNT] as usize;
    for i in 0..count {
        if is_same(update, part, known(lanes, i)) {
            return i;
        }
    }
    count
}

// A key more, if there is room for it; if there is none, that is noted.
fn remember(lanes: &mut [u64], count: usize, part: Part)
    requires { Tidy lanes.old × (1333 ≤ length lanes.old) × (count ≡ key_count lanes.old) }
    ensures { Remembers part lanes.old lanes.new }
{
    if MAX_KEYS <= count {
        lanes[CROWDED] = 1;
        return;
    }
    let base = FIRST + 2 * count;
    let bytes = part.bytes;
    lanes[base] = part.place as u64;
    lanes[base + 1] = bytes.0 as u64;
    let more = count + 1;
    lanes[COUNT] = more as u64;
}

// The number of a key, as `find` has it. In form 2 a long key stands once, and each block may name it: so a long one is compared the first two times that its
// part is seen, and no more.
fn look(update: &[u8], lanes: &mut [u64], part: Part) -> usize
    requires { Aliased update.now lanes.old × (1333 ≤ length lanes.old) }
    ensures { (result ≡ number_of (bytes_in update.now part) (known_in update.now lanes.old))
        × SameBelow lanes.old lanes.new × Aliased update.now lanes.new }
{
    let bytes = part.bytes;
    if bytes.0 <= SHORT {
        return find(update, lanes, part);
    }
    let count = lanes[aliases::COUNT] as usize;
    let i = aliases::find(lanes, part);
    if i < count {
        return aliases::number(lanes, i);
    }
    let number = find(update, lanes, part);
    aliases::note(lanes, part, number);
    number
}

// A key: form 1 has its text in line, and so has no use for its units. In form 2 they are counted where the text is written.
pub fn write_key(
    out: &mut [u8],
    update: &[u8],
    lanes: &mut [u64],
    form: u8,
    at: usize,
    part: Part,
) -> usize
    requires { Aliased update.now lanes.old
        × Room form (key (bytes_in update.now part) (counted_in (bytes_in update.now part)).units.0 ∷ []) lanes.old }
    ensures { WroteKeys update.now form
        (key (bytes_in update.now part) (counted_in (bytes_in update.now part)).units.0 ∷ [])
        out.old lanes.old at out.new lanes.new result }
{
    if form == 1 {
        return tokens::line::led_part(out, update, at, part);
    }
    let count = lanes[COUNT] as usize;
    let number = look(update, lanes, part);
    tokens::lanes::push_difference(out, lanes, tokens::lanes::KEYS, number as u64);
    if number < count {
        return at;
    }
    remember(lanes, count, part);
    let units = count_units(update, part);
    tokens::fields::write_string(out, update, lanes, form, at, part, units)
}
