// The lowest byte of an update that stays unread, found in the words that reading stands in.
#![tactic(auto)]

ghost use Rattle.std.specs.Prelude.{◌≡◌, [], eqb};
ghost use Rattle.numbers.specs.Number.{pick};
ghost use Rattle.cells.specs.Cells.{state_in, Small};
ghost use Rattle.leftover.specs.Leftover as leftover;

// The lower of a byte and the first of those from one place up to another.
fn lower(low: usize, from: u64, to: u64) -> usize
    ensures { result ≡ leftover.lower low (leftover.stretch from to) }
{
    if from < to {
        let first = from as usize;
        if first < low {
            return first;
        }
    }
    low
}

// Of the nine columns, a column's place and its end; of the text column its texts, then their unit lengths.
fn lowest_of_columns(w: &[u64], low: usize) -> usize
    requires { Small w.now }
    ensures { result ≡ leftover.lowest low (leftover.columns_at (state_in w.now)) }
{
    let key = lower(low, w[0], w[4]);
    let client = lower(key, w[7], w[11]);
    let left = lower(client, w[14], w[18]);
    let right = lower(left, w[21], w[25]);
    let info = lower(right, w[28], w[32]);
    let texts = lower(info, w[40], w[41]);
    let units = lower(texts, w[35], w[39]);
    let parent = lower(units, w[42], w[46]);
    let types = lower(parent, w[49], w[53]);
    lower(types, w[56], w[60])
}

// Of an update of `size` bytes whose delete set ends at `end`: its end, where no byte stays unread. Form 1 has no columns.
pub fn lowest(form: u8, size: usize, w: &[u64], end: usize) -> usize
    requires { Small w.now }
    ensures { result ≡ leftover.lowest (leftover.lower size (leftover.stretch end size))
        (pick (eqb form 1) [] (leftover.columns_at (state_in w.now))) }
{
    let rest = lower(size, end as u64, size as u64);
    if form == 1 {
        return rest;
    }
    lowest_of_columns(w, rest)
}
