// The delete set written: ranges in normal form, three words each, a client's together.
ghost use Rattle.std.specs.Prelude.{◌≡◌, ◌+◌, ◌-◌, ◌*◌, ◌≤◌, ◌<◌, length};
ghost use Rattle.ranges.specs.TableInner.{row, rows_from};
ghost use Rattle.readings.specs.Groups.{groups};
ghost use Rattle.records.specs.Records.{owner_of, delete_tokens};
ghost use Rattle.records.specs.DeleteRows.{is_first, end_before, siblings, owner_tokens, range_tokens, InLine};

#[tactic(auto, unfolding(ranges::specs::TableInner::row))]
fn client_at(ranges: &[u64], i: usize) -> u64
    requires { 3 * i + 3 ≤ length ranges.now }
    ensures { result ≡ (row ranges.now i).client }
{
    ranges[3 * i]
}

#[tactic(auto, unfolding(ranges::specs::TableInner::row))]
fn clock_at(ranges: &[u64], i: usize) -> u64
    requires { 3 * i + 3 ≤ length ranges.now }
    ensures { result ≡ (row ranges.now i).clock }
{
    ranges[3 * i + 1]
}

#[tactic(auto, unfolding(ranges::specs::TableInner::row))]
fn length_at(ranges: &[u64], i: usize) -> u64
    requires { 3 * i + 3 ≤ length ranges.now }
    ensures { result ≡ (row ranges.now i).len }
{
    ranges[3 * i + 2]
}

// Whether range i is its client's first.
fn is_first(ranges: &[u64], i: usize) -> bool
    requires { 3 * i + 3 ≤ length ranges.now }
    ensures { result ≡ is_first ranges.now i }
{
    if i == 0 {
        return true;
    }
    let before = client_at(ranges, i - 1);
    before != client_at(ranges, i)
}

// The number of clients among the first n ranges.
fn count_clients(ranges: &[u64], n: usize) -> usize
    requires { 3 * n ≤ length ranges.now }
    ensures { result ≡ length (groups owner_of (rows_from ranges.now 0 n)) }
{
    let mut count = 0;
    for i in 0..n {
        if is_first(ranges, i) {
            count += 1;
        }
    }
    count
}

// How many ranges range i's client has, if range i is its first: those up to n that have it, one after the other.
fn count_ranges(ranges: &[u64], i: usize, n: usize) -> usize
    requires { (i < n) × (3 * n ≤ length ranges.now) }
    ensures { result ≡ siblings ranges.now i (n - (i + 1)) }
{
    let client = client_at(ranges, i);
    for j in i + 1..n {
        if client_at(ranges, j) != client {
            return j - i;
        }
    }
    n - i
}

// Range i's clock less the end of the range before it, from 0 at its client's first. The end need not fit a word, so it is taken off in two steps.
fn increase(ranges: &[u64], i: usize) -> u64
    requires { 3 * i + 3 ≤ length ranges.now }
    ensures { result ≡ (row ranges.now i).clock - end_before ranges.now i }
{
    let clock = clock_at(ranges, i);
    if is_first(ranges, i) {
        return clock;
    }
    let since = clock.saturating_sub(clock_at(ranges, i - 1));
    since.saturating_sub(length_at(ranges, i - 1))
}

// Before a client's first range: the client, and how many ranges it has.
fn write_owner(out: &mut [u8], at: usize, ranges: &[u64], i: usize, n: usize) -> usize
    requires { (i < n) × (3 * n ≤ length ranges.now) }
    ensures { InLine (owner_tokens ranges.now i (n - (i + 1))) out.old at out.new result }
{
    if !is_first(ranges, i) {
        return at;
    }
    let client = client_at(ranges, i);
    let count = count_ranges(ranges, i, n);
    let named = tokens::line::number(out, at, client);
    tokens::line::number(out, named, count as u64)
}

// Range i of n.
fn write_range(out: &mut [u8], form: u8, at: usize, ranges: &[u64], i: usize, n: usize) -> usize
    requires { (i < n) × (3 * n ≤ length ranges.now) }
    ensures { InLine (range_tokens form ranges.now i (n - (i + 1))) out.old at out.new result }
{
    let len = length_at(ranges, i);
    let owned = write_owner(out, at, ranges, i, n);
    if form == 1 {
        let clock = clock_at(ranges, i);
        let begun = tokens::line::number(out, owned, clock);
        return tokens::line::number(out, begun, len);
    }
    let clock = increase(ranges, i);
    let begun = tokens::line::number(out, owned, clock);
    tokens::line::number(out, begun, len.saturating_sub(1))
}

// The first n ranges. They are numbers without columns, in line in both forms.
pub fn write_delete_set(out: &mut [u8], form: u8, at: usize, ranges: &[u64], n: usize) -> usize
    requires { 3 * n ≤ length ranges.now }
    ensures { InLine (delete_tokens form (rows_from ranges.now 0 n)) out.old at out.new result }
{
    let clients = count_clients(ranges, n);
    let mut end = tokens::line::number(out, at, clients as u64);
    for i in 0..n {
        end = write_range(out, form, end, ranges, i, n);
    }
    end
}
