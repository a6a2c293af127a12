// Form 2 opened into the words that reading stands in: the flag, the nine columns, the text.
#![tactic(auto)]

ghost use Rattle.std.specs.Prelude.{◌≡◌, ◌≤◌, ◌<◌, length};
ghost use Rattle.decoder.specs.Opening.{text_opened};
ghost use Rattle.cells.specs.Cells.{state_in, Small, Enough};
ghost use Rattle.opening.specs.Opening.{Cut, opened_in, Opened};

use cells::{AT, KEY_COUNT};
use numbers::Read;

fn open_text(update: &[u8], w: &mut [u64]) -> Option<u64>
    requires { Small w.old }
    ensures { Small w.new × (opened_in w.new result ≡ text_opened update.now (state_in w.old)) }
{
    let at = w[35] as usize;
    let to = w[39] as usize;
    match string::open(cells::upto(update, to), at) {
        string::Opened::Not(why) => cells::refuse(w, why.number, why.place),
        string::Opened::At(place) => {
            let units = place.units;
            w[35] = units.at as u64;
            w[36] = units.from as u64;
            w[37] = units.last;
            w[38] = units.count as u64;
            w[40] = place.at as u64;
            w[41] = place.end as u64;
            Some(0)
        }
    }
}

// Column k from a place to its end, nothing drawn from it yet: a difference of 0, and no byte without end. A key column that may be read needs words for keys.
fn put_column(w: &mut [u64], k: usize, from: usize, to: usize)
    requires { Small w.old × (k ≤ 8) × (k ≡ 0 → length w.old < 580 → to ≤ from) }
    ensures { Cut k from to w.old w.new }
{
    let b = 7 * k;
    w[b] = from as u64;
    w[b + 1] = from as u64;
    w[b + 2] = 0;
    w[b + 3] = 0;
    w[b + 4] = to as u64;
    w[b + 5] = 2147483648;
    w[b + 6] = 0;
}

// The state before form 2's first number: a flag byte of any value, nine columns, and the text among them opened. No key was read yet.
pub fn open(update: &[u8], w: &mut [u64]) -> Option<u64>
    requires { Small w.old × Enough update.now w.old }
    ensures { Opened update.now w.new result }
{
    if update.len() == 0 {
        return cells::refuse(w, 1, 0);
    }
    let mut at: usize = 1;
    for k in 0..9 {
        let n = numbers::read_unsigned(update, at);
        let Read::Number(size, from) = n else {
            let why = numbers::why_read(n);
            return cells::refuse(w, why.number, why.place);
        };
        let left = (update.len() - from) as u64;
        if left < size {
            return cells::refuse(w, 1, update.len());
        }
        let to = from + size as usize;
        put_column(w, k, from, to);
        at = to;
    }
    w[AT] = at as u64;
    w[KEY_COUNT] = 0;
    open_text(update, w)
}
