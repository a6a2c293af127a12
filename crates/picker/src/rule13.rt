// Rule 13: a block waits for what rule 28 waits for, and then, behind a gap, for its own client's reach to come to its clock.
ghost use Rattle.std.specs.Prelude.{◌≡◌};
ghost use Rattle.picker.specs.Rule13.{own};

use crate::stages::Dependency;
use block::{Block, Id};

pub const STAGES: usize = 4;

// The last stage: the id before the block, if its client has one.
pub fn own(b: Block) -> Dependency
    ensures { result ≡ own b }
{
    let id = Id {
        client: b.client,
        clock: b.clock.saturating_sub(1),
    };
    Dependency {
        there: 0 < b.clock,
        id,
    }
}
