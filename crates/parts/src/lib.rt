// The bytes of a part, as far as the update has them.
#![tactic(auto)]

ghost use Rattle.std.specs.Prelude.{◌≡◌, ◌-◌, ◌≤◌, length};
ghost use Rattle.readings.specs.Sound.{bytes_in};

use text::Part;

// Places and counts stay below this, and none comes near it: an update has less than 2^24 bytes.
pub const BRIM: usize = 4611686018427387904;

// How many bytes of a part lie in the update: all of them, if it is one of its parts.
pub fn bytes_inside(update: &[u8], part: Part) -> usize
    ensures { (result ≡ length (bytes_in update.now part)) × (result ≤ length update.now - part.place) }
{
    update.len().saturating_sub(part.place).min(part.bytes.0)
}

// Those bytes.
pub fn bytes(update: &[u8], part: Part) -> &[u8]
    ensures { result.now ≡ bytes_in update.now part }
{
    let from = part.place.min(update.len());
    &update[from..from + bytes_inside(update, part)]
}
