// A state vector: how many entries, then a client and its clock each, as in 02 05 03 07 00: client 5 up to 3, client 7 up to 0.
// What comes after the entries is not read.
#![tactic(auto)]

ghost use Rattle.std.specs.Prelude.{◌≡◌, [], ◌*◌, ◌≤◌, length, take};
ghost use Rattle.numbers.specs.Limits.{max_clients};
ghost use Rattle.numbers.specs.Output.{padded};
ghost use Rattle.decoder.specs.Line.{number_at, up_to};
ghost use Rattle.vector.specs.Vector.{clients_in, vector_of, refused_vector, vector_answer, vector_words};
ghost use Rattle.vector.specs.VectorInner.{clocks_in, entries_of, kept, Filled, count_in, joined};

use numbers::{Read, Refusal, words};

// What a caller outside is told: how many entries, or a refusal and none. It blames no byte: places are an update's.
#[repr(C)]
#[derive(Clone, Copy)]
pub struct Vector {
    pub refusal: Refusal,
    pub count: usize,
}

// A number, and the place after it; over `most` it is refused.
fn read_up_to(vector: &[u8], at: usize, most: u64) -> Read
    ensures { up_to most vector.now at ≡ number_at at result }
{
    let r = numbers::read_unsigned(vector, at);
    let Read::Number(v, _) = r else {
        return r;
    };
    if most < v {
        return Read::Refused(Refusal {
            number: 3,
            place: at,
        });
    }
    r
}

// How many entries are announced, and then each of them: 3 of the client, 4, then 3 of the clock. What a refusal leaves in the words means
// nothing.
fn read_announced(vector: &[u8], clients: &mut [u64], clocks: &mut [u64]) -> Result<usize, Refusal>
    requires { (max_clients ≤ length clients.old) × (max_clients ≤ length clocks.old) }
    ensures { Filled vector.now result clients.new clocks.new }
{
    let d = read_up_to(vector, 0, numbers::MAX_CLIENTS);
    let Read::Number(n, first) = d else {
        return Err(numbers::why_read(d));
    };
    let count = n as usize;
    let mut at = first;
    for i in 0..count {
        let c = read_up_to(vector, at, numbers::MAX_VALUE);
        let Read::Number(client, t) = c else {
            return Err(numbers::why_read(c));
        };
        let seen = words::is_among(clients, i, client);
        if seen {
            return Err(Refusal {
                number: 4,
                place: at,
            });
        }
        let k = read_up_to(vector, t, numbers::MAX_CLOCK);
        let Read::Number(clock, e) = k else {
            return Err(numbers::why_read(k));
        };
        clients[i] = client;
        clocks[i] = clock;
        at = e;
    }
    Ok(count)
}

fn count_of(r: Result<usize, Refusal>) -> usize
    ensures { result ≡ count_in r }
{
    match r {
        Ok(n) => n,
        Err(_) => 0,
    }
}

// Every entry in reading order, its client and its clock at one index, and zeros after the last: how many there are. On a refusal zeros only.
pub fn read_entries(
    vector: &[u8],
    clients: &mut [u64],
    clocks: &mut [u64],
) -> Result<usize, Refusal>
    requires { (max_clients ≤ length clients.old) × (max_clients ≤ length clocks.old) }
    ensures { (result ≡ entries_of (vector_of vector.now))
        × (clients.new ≡ padded (length clients.old) (clients_in (kept (vector_of vector.now))))
        × (clocks.new ≡ padded (length clocks.old) (clocks_in (kept (vector_of vector.now)))) }
{
    let r = read_announced(vector, clients, clocks);
    let n = count_of(r);
    words::clear(clients, n);
    words::clear(clocks, n);
    r
}

// Each of n clients and its clock side by side, and zeros after the last.
fn put_words(out: &mut [u64], clients: &[u64], clocks: &[u64], n: usize)
    requires { (2 * n ≤ length out.old) × (n ≤ length clients.now) × (n ≤ length clocks.now) }
    ensures { out.new ≡ padded (length out.old) (joined (take n clients.now) (take n clocks.now)) }
{
    for i in 0..n {
        out[2 * i] = clients[i];
        out[2 * i + 1] = clocks[i];
    }
    words::clear(out, 2 * n);
}

// The answer to a caller outside that is refused: zeros everywhere.
fn refuse(out: &mut [u64], number: u8) -> Vector
    ensures { (result ≡ refused_vector number) × (out.new ≡ padded (length out.old) []) }
{
    words::clear(out, 0);
    Vector {
        refusal: Refusal { number, place: 0 },
        count: 0,
    }
}

// Client and clock of every entry in reading order, two words each, and zeros after the last: the vector's own refusal, then 10 where the
// words don't fit.
pub fn read_state_vector(vector: &[u8], out: &mut [u64]) -> Vector
    ensures { (result ≡ vector_answer (length out.old) (vector_of vector.now))
        × (out.new ≡ vector_words (length out.old) (vector_of vector.now)) }
{
    let mut clients = [0u64; 64];
    let mut clocks = [0u64; 64];
    let n = match read_entries(vector, &mut clients, &mut clocks) {
        Ok(n) => n,
        Err(why) => return refuse(out, why.number),
    };
    let words = 2 * n;
    if out.len() < words {
        return refuse(out, 10);
    }
    put_words(out, &clients, &clocks, n);
    Vector {
        refusal: Refusal {
            number: 0,
            place: 0,
        },
        count: n,
    }
}
