// Any-values, as lib0 writes them in line: a tag byte, and what the tag says. An object's entries are a key and a value each, an array's are
// values. They are passed over, not built: what is told is the place after them, or the first refusal. An unknown tag is blamed at `blame`.
#![tactic(auto)]

ghost use Rattle.std.specs.Prelude.{◌≡◌, ◌≤◌, ◌<◌, length};
ghost use Rattle.anys.specs.Any.{skip_bytes, skip_led, text_at, signed_at, head_at, anys};
ghost use Rattle.anys.specs.Steps.{why_skipped, key_at, open_at, entry_at};

use numbers::{Read, Refusal, Signed};

// How many objects and arrays may be open at once.
pub const DEEPEST: usize = 16;

// And the list that they stand in.
const LEVELS: usize = DEEPEST + 1;

// The place after what was passed over, or why not all of it could be.
#[derive(Clone, Copy)]
pub enum Skipped {
    At(usize),
    Refused(Refusal),
}

// A value by its tag: it stands alone, and ends there or is refused; or it holds others, with keys or without, and their count is next.
#[derive(Clone, Copy)]
enum Head {
    Alone(Skipped),
    Holds(bool),
}

// An entry: it ends there; or it opens a level, of keyed entries or not, so many of them, from there on.
#[derive(Clone, Copy)]
enum Next {
    Past(usize),
    Opens(bool, u64, usize),
    Refused(Refusal),
}

// Why it could not be passed over, for the `else` of a `let .. else`.
fn why_skipped(s: Skipped) -> Refusal
    ensures { result ≡ why_skipped s }
{
    match s {
        Skipped::At(_) => Refusal {
            number: 0,
            place: 0,
        },
        Skipped::Refused(why) => why,
    }
}

// So many bytes.
fn skip_bytes(update: &[u8], at: usize, n: u64) -> Skipped
    requires { at ≤ length update.now }
    ensures { result ≡ skip_bytes update.now n at }
{
    let left = (update.len() - at) as u64;
    if left < n {
        return Skipped::Refused(Refusal {
            number: 1,
            place: update.len(),
        });
    }
    let size = n as usize;
    let end = at + size;
    Skipped::At(end)
}

// A length and so many bytes.
fn skip_buf(update: &[u8], at: usize) -> Skipped
    ensures { result ≡ skip_led update.now at }
{
    let r = numbers::read_unsigned(update, at);
    let Read::Number(n, e) = r else {
        return Skipped::Refused(numbers::why_read(r));
    };
    skip_bytes(update, e, n)
}

// A length and so many bytes of UTF-8.
fn skip_text(update: &[u8], at: usize) -> Skipped
    ensures { result ≡ text_at update.now at }
{
    let r = numbers::read_unsigned(update, at);
    let Read::Number(n, e) = r else {
        return Skipped::Refused(numbers::why_read(r));
    };
    let b = skip_bytes(update, e, n);
    let Skipped::At(end) = b else {
        return b;
    };
    if text::check(update, e, end) {
        return Skipped::At(end);
    }
    Skipped::Refused(Refusal {
        number: 6,
        place: e,
    })
}

// A signed number of any size.
fn skip_signed(update: &[u8], at: usize) -> Skipped
    ensures { result ≡ signed_at update.now at }
{
    let r = numbers::read_signed(update, at);
    match r {
        Signed::Value(_, _, e) => Skipped::At(e),
        Signed::Wrong(why) => Skipped::Refused(why),
    }
}

// A value by its tag: undefined, null, integer, float32, float64, bigint, false, true, string, object, array, byte array.
fn read_head(update: &[u8], blame: usize, at: usize) -> Head
    ensures { result ≡ head_at update.now blame at }
{
    if update.len() <= at {
        return Head::Alone(Skipped::Refused(Refusal {
            number: 1,
            place: update.len(),
        }));
    }
    let tag = update[at];
    let next = at + 1;
    match tag {
        127 => Head::Alone(Skipped::At(next)),
        126 => Head::Alone(Skipped::At(next)),
        125 => Head::Alone(skip_signed(update, next)),
        124 => Head::Alone(skip_bytes(update, next, 4)),
        123 => Head::Alone(skip_bytes(update, next, 8)),
        122 => Head::Alone(skip_bytes(update, next, 8)),
        121 => Head::Alone(Skipped::At(next)),
        120 => Head::Alone(Skipped::At(next)),
        119 => Head::Alone(skip_text(update, next)),
        118 => Head::Holds(true),
        117 => Head::Holds(false),
        116 => Head::Alone(skip_buf(update, next)),
        _ => Head::Alone(Skipped::Refused(Refusal {
            number: 5,
            place: blame,
        })),
    }
}

// The count of an object or array whose tag is at this place. `room`: one more may be open.
fn open_level(update: &[u8], at: usize, room: bool, keyed: bool) -> Next
    requires { at < length update.now }
    ensures { result ≡ open_at update.now at room keyed }
{
    if !room {
        return Next::Refused(Refusal {
            number: 3,
            place: at,
        });
    }
    let r = numbers::read_unsigned(update, at + 1);
    let Read::Number(n, e) = r else {
        return Next::Refused(numbers::why_read(r));
    };
    Next::Opens(keyed, n, e)
}

// The key of an entry that has one.
fn skip_key(update: &[u8], at: usize, keyed: bool) -> Skipped
    ensures { result ≡ key_at update.now keyed at }
{
    if keyed {
        return skip_text(update, at);
    }
    Skipped::At(at)
}

// One entry: its key, and its value up to where others may stand in it.
fn next_entry(update: &[u8], blame: usize, at: usize, room: bool, keyed: bool) -> Next
    ensures { result ≡ entry_at update.now blame room keyed at }
{
    let k = skip_key(update, at, keyed);
    let Skipped::At(from) = k else {
        return Next::Refused(why_skipped(k));
    };
    let h = read_head(update, blame, from);
    match h {
        Head::Holds(inner) => open_level(update, from, room, inner),
        Head::Alone(s) => match s {
            Skipped::At(e) => Next::Past(e),
            Skipped::Refused(why) => Next::Refused(why),
        },
    }
}

// So many values from a place on. Of each open level `left` has how many entries are to come, and `keyed` whether they have keys; level 0 is
// the list of the values, and in the entries of level i so many objects and arrays are open.
pub fn skip_anys(update: &[u8], blame: usize, at: usize, count: u64) -> Skipped
    ensures { result ≡ anys update.now blame count at }
{
    let mut left = [0u64; LEVELS];
    let mut keyed = [false; LEVELS];
    left[0] = count;
    let mut open: usize = 1;
    let mut at = at;
    while 0 < open {
        let level = open - 1;
        let more = left[level];
        if more == 0 {
            open = level;
            continue;
        }
        left[level] = more - 1;
        let x = next_entry(update, blame, at, level < DEEPEST, keyed[level]);
        match x {
            Next::Past(e) => {
                at = e;
                continue;
            }
            Next::Opens(inner, n, e) => {
                left[open] = n;
                keyed[open] = inner;
                open += 1;
                at = e;
                continue;
            }
            Next::Refused(why) => {
                return Skipped::Refused(why);
            }
        }
    }
    Skipped::At(at)
}

// One value: a list of one.
pub fn skip_any(update: &[u8], blame: usize, at: usize) -> Skipped
    ensures { result ≡ anys update.now blame 1 at }
{
    skip_anys(update, blame, at, 1)
}
