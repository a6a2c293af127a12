// Aliases: parts that were seen as keys, in lent words behind the keys known, each with the number of its key. A key that is named by such a part has its
// number without a look at its bytes.
ghost use Rattle.std.specs.Prelude.{◌≡◌, ◌≤◌, ◌<◌, length};
ghost use Rattle.decoder.specs.States.{max_keys};
ghost use Rattle.tokens.specs.Desk.{alias_count, alias_at, alias_number, Tidy};
ghost use Rattle.numbering.specs.Numbering.{same_part, Notes};

use text::Part;

// How many aliases there are, and the first of them.
pub const COUNT: usize = 564;

pub const FIRST: usize = 565;

// Whether alias i is a part: of the same place and of the same length, for a part may begin where another does.
fn is_part(lanes: &[u64], i: usize, part: Part) -> bool
    requires { Tidy lanes.now × (1333 ≤ length lanes.now) × (i < 256) }
    ensures { result ≡ same_part (alias_at lanes.now i) part }
{
    let base = FIRST + 3 * i;
    lanes[base] == part.place as u64 && lanes[base + 1] == part.bytes.0 as u64
}

// A part's alias; how many there are, if it has none.
pub fn find(lanes: &[u64], part: Part) -> usize
    requires { Tidy lanes.now × (1333 ≤ length lanes.now) × (alias_count lanes.now ≤ max_keys) }
    ensures { result < alias_count lanes.now → alias_at lanes.now result ≡ part }
{
    let count = lanes[COUNT] as usize;
    for i in 0..count {
        if is_part(lanes, i, part) {
            return i;
        }
    }
    count
}

// Alias i's number.
pub fn number(lanes: &[u64], i: usize) -> usize
    requires { Tidy lanes.now × (1333 ≤ length lanes.now) × (i < 256) }
    ensures { result ≡ alias_number lanes.now i }
{
    lanes[FIRST + 3 * i + 2] as usize
}

// An alias more, if its number is a known key's and there is room.
pub fn note(lanes: &mut [u64], part: Part, number: usize)
    requires { Tidy lanes.old × (1333 ≤ length lanes.old) × (alias_count lanes.old ≤ max_keys) }
    ensures { Notes part number lanes.old lanes.new }
{
    let known = lanes[crate::COUNT] as usize;
    let count = lanes[COUNT] as usize;
    if known <= number {
        return;
    }
    if crate::MAX_KEYS <= count {
        return;
    }
    let base = FIRST + 3 * count;
    let bytes = part.bytes;
    lanes[base] = part.place as u64;
    lanes[base + 1] = bytes.0 as u64;
    lanes[base + 2] = number as u64;
    let more = count + 1;
    lanes[COUNT] = more as u64;
}
