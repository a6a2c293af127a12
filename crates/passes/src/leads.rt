// What leads the lanes of a form, where they begin, and their ends.
ghost use Rattle.std.specs.Prelude.{◌≡◌, ◌≤◌, ◌<◌, length};
ghost use Rattle.tokens.specs.Desk.{desk_in, lanes_in, key_count, crowded_in, alias_count, Tidy, Blank, laid_ends};
ghost use Rattle.passes.specs.Forms.{places_of, any_far, text_size, is_bare, lead_end, lead_bytes, on_to, begun, led_bytes};

// The text column has its texts, led by their length, and their units.
fn text_size(sizes: &[u64]) -> u64
    requires { length sizes.now ≡ 10 }
    ensures { result ≡ text_size sizes.now }
{
    let texts = sizes[5];
    let units = sizes[6];
    if parts::BRIM as u64 <= texts {
        return 0;
    }
    if parts::BRIM as u64 <= units {
        return 0;
    }
    let head = numbers::size_unsigned(texts) as u64;
    let led = head + texts;
    led + units
}

// The length of a column, and what else stands before it: the flag before the keys, the texts' own length.
fn put_lead(out: &mut [u8], at: usize, sizes: &[u64], k: usize) -> usize
    requires { (length sizes.now ≡ 10) × (k < 10) }
    ensures { (result ≡ lead_end sizes.now k at) × (out.new ≡ lead_bytes out.old sizes.now k at) }
{
    let size = sizes[k];
    if k == tokens::lanes::UNITS {
        return at;
    }
    if k == tokens::lanes::KEYS {
        let flag = tokens::line::number(out, at, 0);
        return tokens::line::number(out, flag, size);
    }
    if k == tokens::lanes::TEXTS {
        let column = text_size(sizes);
        let led = tokens::line::number(out, at, column);
        return tokens::line::number(out, led, size);
    }
    tokens::line::number(out, at, size)
}

fn on_to(at: usize, size: u64) -> usize
    ensures { result ≡ on_to at size }
{
    if parts::BRIM <= at {
        return at;
    }
    if parts::BRIM as u64 <= size {
        return at;
    }
    at + size as usize
}

// The words of the lanes, how many they are with the two of the keys behind them.
const LANES: usize = 52;

// Words in which nothing is written and no key is known, whatever stood in them.
pub fn clear(lanes: &mut [u64])
    requires { 52 ≤ length lanes.old }
    ensures { Blank lanes.new }
{
    lanes[..LANES].fill(0);
    if lanes.len() <= numbering::aliases::COUNT {
        return;
    }
    lanes[numbering::aliases::COUNT] = 0;
}

// The lanes of a form at their beginnings, what leads them written; the place in line.
pub fn open(out: &mut [u8], lanes: &mut [u64], sizes: &[u64], form: u8) -> usize
    requires { (length sizes.now ≡ 10) × Blank lanes.old }
    ensures { (desk_in form lanes.new result ≡ begun form sizes.now)
        × (out.new ≡ led_bytes form sizes.now out.old)
        × Tidy lanes.new × (key_count lanes.new ≡ 0) × (alias_count lanes.new ≡ 0) }
{
    if form == 1 {
        return 0;
    }
    let mut at = 0;
    for k in 0..10 {
        let lead = put_lead(out, at, sizes, k);
        lanes[5 * k] = lead as u64;
        at = on_to(lead, sizes[k]);
    }
    at
}

// Whether a key found no room.
pub fn is_crowded(lanes: &[u64]) -> bool
    requires { Tidy lanes.now }
    ensures { result ≡ crowded_in lanes.now }
{
    0 < lanes[numbering::CROWDED]
}

// The ends of all lanes; the lane in line has none, wherever it stands.
pub fn close(out: &mut [u8], lanes: &mut [u64], form: u8)
    requires { Tidy lanes.old }
    ensures { out.new ≡ laid_ends out.old (desk_in form lanes.old 0) }
{
    if form == 1 {
        return;
    }
    tokens::lanes::close(out, lanes);
}

// The sizes of the lanes before the last, measured from place 0 on, and whether one of them needs a difference that cannot be spelled.
pub fn note(sizes: &mut [u64], lanes: &[u64]) -> bool
    requires { (length sizes.old ≡ 10) × Tidy lanes.now }
    ensures { (result ≡ any_far (lanes_in lanes.now)) × (sizes.new ≡ places_of (lanes_in lanes.now)) }
{
    let mut far = false;
    for k in 0..10 {
        sizes[k] = lanes[5 * k];
        if lanes[5 * k + 4] != 0 {
            far = true;
        }
    }
    far
}
