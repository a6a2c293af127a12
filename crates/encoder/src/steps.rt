// The end of a plan, and whether a row has a key.
ghost use Rattle.std.specs.Prelude.{◌≡◌};
ghost use Rattle.block.specs.KindsInner.{is_marked};
ghost use Rattle.kept.specs.Plan.{ended_words};
ghost use Rattle.encoder.specs.Passes.{outcome_of};

use block::Block;
use kept::plan::Planning;

// How many sections are kept, whether a cut would be inside a pair, and whether a format is among them.
#[derive(Clone, Copy)]
pub struct Outcome {
    pub sections: usize,
    pub torn: bool,
    pub formats: bool,
}

pub fn end_plan(plan: &mut [u64], s: Planning) -> Outcome
    ensures { (result ≡ outcome_of plan.old s) × (plan.new ≡ ended_words plan.old s) }
{
    let torn = s.torn;
    let formats = s.formats;
    let sections = kept::plan::end_section(plan, s);
    Outcome {
        sections,
        torn,
        formats,
    }
}

// A format has one, and a type with a node name.
pub fn has_key(b: Block) -> bool
    ensures { result ≡ is_marked b.kind b.type_number }
{
    block::is_marked(b.kind, b.type_number)
}
