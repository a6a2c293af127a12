// The delete set of an update, in either form: read into words that are lent, three a range, in normal form; or only checked. All of it is in
// line, so it is read by its place.
#![tactic(auto)]

ghost use Rattle.std.specs.Prelude.{◌≡◌, ◌/◌, ◌<◌, eqb, length, Ok, Err};
ghost use Rattle.numbers.specs.Number.{pick, read_unsigned};
ghost use Rattle.grammar.specs.Course.{fit, ending};
ghost use Rattle.decoder.specs.Update.{delete_set};
ghost use Rattle.deletes.specs.DeleteSet.{set_of, words_of};
ghost use Rattle.deletes.specs.Steps.{restored_to, first_of, Follows, Kept};

use numbers::{Read, Refusal};

// In form 1 a clock and a length stand as they are, in form 2 less `by`.
fn base(form: u8, by: u64) -> u64
    ensures { result ≡ pick (eqb form 1) 0 by }
{
    if form == 1 {
        return 0;
    }
    by
}

// A number that is stored less `low`, restored, and the place after it; over `most` it is refused.
fn read_at(update: &[u8], at: usize, low: u64, most: u64) -> Read
    ensures { result ≡ restored_to most low at (read_unsigned update.now at) }
{
    let r = numbers::read_unsigned(update, at);
    let Read::Number(v, e) = r else {
        return r;
    };
    let over = Refusal {
        number: 3,
        place: at,
    };
    if most < low {
        return Read::Refused(over);
    }
    let left = most - low;
    if left < v {
        return Read::Refused(over);
    }
    let whole = low + v;
    Read::Number(whole, e)
}

// Where reading stands: the next byte, how many clients are left, how many ranges of this client, and where its range before ended.
#[derive(Clone, Copy)]
struct Spot {
    at: usize,
    clients: u64,
    ranges: u64,
    client: u64,
    end: u64,
}

// So many clients, before the first.
fn first(clients: u64, at: usize) -> Spot
    ensures { result ≡ first_of clients at }
{
    Spot {
        at,
        clients,
        ranges: 0,
        client: 0,
        end: 0,
    }
}

// A range is its client, clock and length, and the place that its clock is blamed at. `On`: a client's head or an empty range was read.
// `Done` has the place after the last range.
#[derive(Clone, Copy)]
enum Move {
    Range(u64, u64, u64, usize, Spot),
    On(Spot),
    Done(usize),
}

fn next_client(form: u8, update: &[u8], p: Spot) -> Result<Move, Refusal>
    requires { (0 < p.clients) × (p.ranges ≡ 0) }
    ensures { Follows form update.now p result }
{
    let place = p.at;
    let c = read_at(update, place, 0, numbers::MAX_VALUE);
    let Read::Number(client, t) = c else {
        return Err(numbers::why_read(c));
    };
    let k = numbers::read_unsigned(update, t);
    let Read::Number(count, at) = k else {
        return Err(numbers::why_read(k));
    };
    let left = p.clients - 1;
    let after = Spot {
        at,
        clients: left,
        ranges: count,
        client,
        end: 0,
    };
    Ok(Move::On(after))
}

fn next_range(form: u8, update: &[u8], p: Spot) -> Result<Move, Refusal>
    requires { 0 < p.ranges }
    ensures { Follows form update.now p result }
{
    let place = p.at;
    let before = base(form, p.end);
    let d = read_at(update, place, before, numbers::MAX_CLOCK);
    let Read::Number(clock, t) = d else {
        return Err(numbers::why_read(d));
    };
    let one = base(form, 1);
    let e = read_at(update, t, one, numbers::MAX_CLOCK);
    let Read::Number(len, at) = e else {
        return Err(numbers::why_read(e));
    };
    let end = clock + len;
    if numbers::MAX_CLOCK < end {
        return Err(Refusal { number: 3, place });
    }
    let client = p.client;
    let left = p.ranges - 1;
    let after = Spot {
        at,
        clients: p.clients,
        ranges: left,
        client,
        end,
    };
    if len == 0 {
        return Ok(Move::On(after));
    }
    Ok(Move::Range(client, clock, len, place, after))
}

// One step: a client's head, or one range.
fn move_on(form: u8, update: &[u8], p: Spot) -> Result<Move, Refusal>
    ensures { Follows form update.now p result }
{
    if 0 < p.ranges {
        return next_range(form, update, p);
    }
    if 0 < p.clients {
        return next_client(form, update, p);
    }
    let at = p.at;
    Ok(Move::Done(at))
}

// The delete set is read through, and nothing kept: the place after it.
pub fn check_delete_set(form: u8, update: &[u8], at: usize) -> Result<usize, Refusal>
    ensures { result ≡ ending (delete_set form update.now at) Ok Err }
{
    let r = read_at(update, at, 0, numbers::MAX_CLIENTS);
    let Read::Number(clients, e) = r else {
        return Err(numbers::why_read(r));
    };
    let mut p = first(clients, e);
    loop {
        match move_on(form, update, p)? {
            Move::Range(_, _, _, _, t) => p = t,
            Move::On(t) => p = t,
            Move::Done(to) => return Ok(to),
        }
    }
}

// The ranges as they are read, three words each, while there are words: how many there are, and the place after them.
fn collect(form: u8, update: &[u8], at: usize, words: &mut [u64]) -> Result<(usize, usize), Refusal>
    ensures { Kept words.old words.new (fit (length words.old / 3) (delete_set form update.now at)) result }
{
    let most = words.len() / 3;
    let r = read_at(update, at, 0, numbers::MAX_CLIENTS);
    let Read::Number(clients, e) = r else {
        return Err(numbers::why_read(r));
    };
    let mut p = first(clients, e);
    let mut n: usize = 0;
    loop {
        match move_on(form, update, p)? {
            Move::Range(client, clock, len, place, t) => {
                if most <= n {
                    return Err(Refusal { number: 8, place });
                }
                ranges::store(words, n, client, clock, len);
                n += 1;
                p = t;
            }
            Move::On(t) => p = t,
            Move::Done(to) => return Ok((n, to)),
        }
    }
}

// The delete set in normal form, three words a range, and zeros after it: how many ranges that has, and the place after them. On a refusal all
// words are zero.
pub fn read_delete_set(
    form: u8,
    update: &[u8],
    at: usize,
    words: &mut [u64],
) -> Result<(usize, usize), Refusal>
    ensures { (result ≡ set_of form update.now at (length words.old))
        × (words.new ≡ words_of form update.now at (length words.old)) }
{
    match collect(form, update, at, words) {
        Ok((n, to)) => {
            let m = ranges::normalize(words, n);
            Ok((m, to))
        }
        Err(why) => {
            numbers::words::clear(words, 0);
            Err(why)
        }
    }
}
