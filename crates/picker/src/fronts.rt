// The fronts of a sorter: what it keeps of each client, six words a front, in the order of the slots.
ghost use Rattle.std.specs.Prelude.{◌≡◌, ◌*◌, ◌≤◌, length};
ghost use Rattle.slots.specs.Slots.{slots_from};
ghost use Rattle.kept.specs.Plan.{entries_of};
ghost use Rattle.picker.specs.Fronts.{no_front, fresh, front_at, put_front, opened_from, filled_from, is_due, due_from};

// The row of the client's next block, and how many are left; it waits until the reach of a slot has come to `need` clocks (0: it may be looked at,
// NEVER: it may not), so many stages of its rule having been looked at; and the client of the one that it waits for.
#[derive(Clone, Copy)]
pub struct Front {
    pub next: usize,
    pub left: usize,
    pub slot: usize,
    pub need: u64,
    pub stage: usize,
    pub missing: u64,
}

// No reach comes to this.
pub const NEVER: u64 = 18446744073709551615;

pub fn none() -> Front
    ensures { result ≡ no_front }
{
    Front {
        next: 0,
        left: 0,
        slot: 0,
        need: NEVER,
        stage: 0,
        missing: 0,
    }
}

// The front of a client that has so many blocks, the first of them in row i.
pub fn begin(i: usize, count: usize) -> Front
    ensures { result ≡ fresh i count }
{
    if count == 0 {
        return none();
    }
    Front {
        next: i,
        left: count,
        slot: 0,
        need: 0,
        stage: 0,
        missing: 0,
    }
}

pub fn front_at(fronts: &[u64], i: usize) -> Front
    ensures { result ≡ front_at fronts.now i }
{
    if fronts.len() / 6 <= i {
        return none();
    }
    let at = 6 * i;
    let next = fronts[at] as usize;
    let left = fronts[at + 1] as usize;
    let slot = fronts[at + 2] as usize;
    let need = fronts[at + 3];
    let stage = fronts[at + 4] as usize;
    let missing = fronts[at + 5];
    Front {
        next,
        left,
        slot,
        need,
        stage,
        missing,
    }
}

pub fn put_front(fronts: &mut [u64], i: usize, f: Front)
    ensures { fronts.new ≡ put_front fronts.old i f }
{
    if fronts.len() / 6 <= i {
        return;
    }
    let at = 6 * i;
    fronts[at] = f.next as u64;
    fronts[at + 1] = f.left as u64;
    fronts[at + 2] = f.slot as u64;
    fronts[at + 3] = f.need;
    fronts[at + 4] = f.stage as u64;
    fronts[at + 5] = f.missing;
}

// The fronts of n slots.
pub fn open(slots: &[u64], n: usize, fronts: &mut [u64])
    requires { 3 * n ≤ length slots.now }
    ensures { fronts.new ≡ opened_from 0 (slots_from slots.now 0 n) fronts.old }
{
    for i in 0..n {
        let f = begin(slots[3 * i + 1] as usize, slots[3 * i + 2] as usize);
        put_front(fronts, i, f);
    }
}

// The reaches of n slots, as m entries of a vector have them.
pub fn fill_reaches(
    slots: &[u64],
    n: usize,
    clients: &[u64],
    clocks: &[u64],
    m: usize,
    reach: &mut [u64],
)
    requires { 3 * n ≤ length slots.now }
    ensures { reach.new
        ≡ filled_from 0 (slots_from slots.now 0 n) (entries_of m clients.now clocks.now) reach.old }
{
    for i in 0..n {
        let clock = kept::plan::remote_clock(clients, clocks, m, slots[3 * i]);
        numbers::words::put_word(reach, i, clock);
    }
}

// Whether front i may be looked at: one comparison.
fn is_due(fronts: &[u64], reach: &[u64], i: usize) -> bool
    ensures { result ≡ is_due fronts.now reach.now i }
{
    if fronts.len() / 6 <= i {
        return false;
    }
    let at = 6 * i;
    let slot = fronts[at + 2] as usize;
    let need = fronts[at + 3];
    if reach.len() <= slot {
        return need == 0;
    }
    need <= reach[slot]
}

// The first of n slots whose front may be looked at, else n.
pub fn first_due(fronts: &[u64], reach: &[u64], n: usize) -> usize
    ensures { (result ≡ due_from fronts.now reach.now 0 n) × (result ≤ n) }
{
    for i in 0..n {
        if is_due(fronts, reach, i) {
            return i;
        }
    }
    n
}
