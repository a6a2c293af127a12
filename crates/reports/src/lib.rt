// What a sorter reports when no front can be taken, highest client first: how many blocks of each client were taken, how far each client reaches, and what
// the clients that have blocks left wait for. Where the words lent do not suffice, they are filled, and the words needed are still counted.
#![tactic(auto)]

ghost use Rattle.std.specs.Prelude.{◌≡◌, ◌+◌, ◌-◌, ◌*◌, ◌≤◌, ◌++◌, eqb, length, get_or, take, replicate};
ghost use Rattle.std.proofs.lemmas.List.Edits.{sets};
ghost use Rattle.numbers.specs.Number.{pick};
ghost use Rattle.slots.specs.Slots.{slot_at, slots_from};
ghost use Rattle.picker.specs.Fronts.{never, front_at};
ghost use Rattle.reports.specs.Reports.{count_of, pending_of, counts_from, reaches_from, pending_from, fitted};

// Zeros after n words.
pub fn clear_after(out: &mut [u64], n: usize)
    ensures { out.new ≡ take n out.old ++ replicate (length out.old - n) 0 }
{
    if n < out.len() {
        numbers::words::clear(out, n);
    }
}

pub fn reach_at(reach: &[u64], i: usize) -> u64
    ensures { result ≡ get_or reach.now i 0 }
{
    reach.get(i).copied().unwrap_or(0)
}

// The reach that a front waits for: 0 where its client has no slot.
fn awaited_reach(reach: &[u64], need: u64, slot: usize) -> u64
    ensures { result ≡ pick (eqb need never) 0 (get_or reach.now slot 0) }
{
    if need == picker::fronts::NEVER {
        return 0;
    }
    reach_at(reach, slot)
}

// How many blocks of slot i were taken, from word `at` on. The place after.
fn report_count(slots: &[u64], i: usize, fronts: &[u64], out: &mut [u64], at: usize) -> usize
    requires { (3 * (i + 1) ≤ length slots.now) × (at ≤ 2 * i) }
    ensures { (result ≡ at + length (count_of (slot_at slots.now i) (front_at fronts.now i))) × (result ≤ at + 2)
        × (out.new ≡ sets out.old at (count_of (slot_at slots.now i) (front_at fronts.now i))) }
{
    let client = slots[3 * i];
    let count = slots[3 * i + 2];
    if count == 0 {
        return at;
    }
    let f = picker::fronts::front_at(fronts, i);
    let taken = count.saturating_sub(f.left as u64);
    numbers::words::put_word(out, at, client);
    numbers::words::put_word(out, at + 1, taken);
    at + 2
}

// How many blocks of each client that has any were taken: two words each. How many words these are.
pub fn report_counts(slots: &[u64], n: usize, fronts: &[u64], out: &mut [u64]) -> usize
    requires { 3 * n ≤ length slots.now }
    ensures { (result ≡ length (counts_from 0 (slots_from slots.now 0 n) fronts.now))
        × (out.new ≡ fitted (length out.old) (counts_from 0 (slots_from slots.now 0 n) fronts.now)) }
{
    let mut at = 0;
    for i in 0..n {
        at = report_count(slots, i, fronts, out, at);
    }
    clear_after(out, at);
    at
}

// How far each client reaches: two words each.
pub fn report_reaches(slots: &[u64], n: usize, reach: &[u64], out: &mut [u64]) -> usize
    requires { 3 * n ≤ length slots.now }
    ensures { (result ≡ length (reaches_from 0 (slots_from slots.now 0 n) reach.now))
        × (out.new ≡ fitted (length out.old) (reaches_from 0 (slots_from slots.now 0 n) reach.now)) }
{
    for i in 0..n {
        let clock = reach_at(reach, i);
        numbers::words::put_word(out, 2 * i, slots[3 * i]);
        numbers::words::put_word(out, 2 * i + 1, clock);
    }
    clear_after(out, 2 * n);
    2 * n
}

// What slot i waits for, from word `at` on. The place after.
fn report_waiting(
    slots: &[u64],
    i: usize,
    fronts: &[u64],
    reach: &[u64],
    out: &mut [u64],
    at: usize,
) -> usize
    requires { (3 * (i + 1) ≤ length slots.now) × (at ≤ 3 * i) }
    ensures { (result ≡ at + length (pending_of (slot_at slots.now i) (front_at fronts.now i) reach.now)) × (result ≤ at + 3)
        × (out.new ≡ sets out.old at (pending_of (slot_at slots.now i) (front_at fronts.now i) reach.now)) }
{
    let f = picker::fronts::front_at(fronts, i);
    if f.left == 0 {
        return at;
    }
    let client = slots[3 * i];
    let clock = awaited_reach(reach, f.need, f.slot);
    numbers::words::put_word(out, at, client);
    numbers::words::put_word(out, at + 1, f.missing);
    numbers::words::put_word(out, at + 2, clock);
    at + 3
}

// What each client that has blocks left waits for: three words each.
pub fn report_pending(
    slots: &[u64],
    n: usize,
    fronts: &[u64],
    reach: &[u64],
    out: &mut [u64],
) -> usize
    requires { 3 * n ≤ length slots.now }
    ensures { (result ≡ length (pending_from 0 (slots_from slots.now 0 n) fronts.now reach.now))
        × (out.new ≡ fitted (length out.old)
        (pending_from 0 (slots_from slots.now 0 n) fronts.now reach.now)) }
{
    let mut at = 0;
    for i in 0..n {
        at = report_waiting(slots, i, fronts, reach, out, at);
    }
    clear_after(out, at);
    at
}
