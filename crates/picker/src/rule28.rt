// Rule 28: a block waits for its left id, its right id and its parent id, where these are another client's.
ghost use Rattle.std.specs.Prelude.{◌≡◌, get_or};
ghost use Rattle.picker.specs.Waits.{no_dependency};
ghost use Rattle.picker.specs.Rule28.{other, stages28};

use crate::stages;
use crate::stages::Dependency;
use block::{Block, Id};

pub const STAGES: usize = 3;

// A dependency of a block of this client: its own client never holds it.
fn other(client: u64, there: bool, id: Id) -> Dependency
    ensures { result ≡ other client there id }
{
    Dependency {
        there: there && id.client != client,
        id,
    }
}

// Stage k.
pub fn at(b: Block, k: usize) -> Dependency
    ensures { result ≡ get_or (stages28 b) k no_dependency }
{
    let client = b.client;
    let left = Id {
        client: b.left_client,
        clock: b.left_clock,
    };
    let right = Id {
        client: b.right_client,
        clock: b.right_clock,
    };
    let parent = Id {
        client: b.parent_client,
        clock: b.parent_clock,
    };
    match k {
        0 => other(client, b.has_left, left),
        1 => other(client, b.has_right, right),
        2 => other(client, b.has_parent, parent),
        _ => stages::none(),
    }
}
