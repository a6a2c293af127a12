// The stages of a rule: what a block may wait for, in the order in which it is asked for. A Skip has none.
ghost use Rattle.std.specs.Prelude.{◌≡◌, ◌≤◌};
ghost use Rattle.picker.specs.Waits.{no_dependency};
ghost use Rattle.picker.specs.Stages.{stage_count, stage_at};

use crate::{rule13, rule28};
use block::{Block, Id};

// An id that a block may wait for.
#[derive(Clone, Copy)]
pub struct Dependency {
    pub there: bool,
    pub id: Id,
}

pub fn none() -> Dependency
    ensures { result ≡ no_dependency }
{
    let id = Id {
        client: 0,
        clock: 0,
    };
    Dependency { there: false, id }
}

// How many stages a rule has.
pub fn count(rule: u8) -> usize
    ensures { (result ≡ stage_count rule) × (result ≤ 4) }
{
    if rule == 13 {
        return rule13::STAGES;
    }
    rule28::STAGES
}

// Stage k of a block.
pub fn at(rule: u8, b: Block, k: usize) -> Dependency
    ensures { result ≡ stage_at rule b k }
{
    if b.kind == block::SKIP {
        return none();
    }
    if k < rule28::STAGES {
        return rule28::at(b, k);
    }
    if rule != 13 {
        return none();
    }
    if rule28::STAGES < k {
        return none();
    }
    rule13::own(b)
}
