// Most rows of form 2 measured, and not written: a GC, and an item beside others that is deleted, binary or text. Two passes go over a diff's rows, and the
// first needs no more of a row than what its columns take; any other row is measured by writing it nowhere (`encoder`).
#![tactic(auto)]

ghost use Rattle.std.specs.Prelude.{◌≡◌, true, []};
ghost use Rattle.numbers.specs.Number.{pick};
ghost use Rattle.tokens.specs.Desk.{Tidy, Gauged};
ghost use Rattle.records.specs.Records.{left_tokens, right_tokens, content_tokens, block_tokens};
ghost use Rattle.sizing.specs.Plain.{in_limits, simple, plain};

use block::Block;

// Whether the row lies within the limits: it always does.
fn is_in_limits(b: Block) -> bool
    ensures { result ≡ in_limits b }
{
    let length = b.length;
    let part = b.part;
    let bytes = part.bytes;
    if numbers::MAX_CLOCK < length.0 {
        return false;
    }
    let end = b.clock as u64 + length.0;
    if numbers::MAX_CLOCK < end {
        return false;
    }
    if parts::BRIM <= part.place {
        return false;
    }
    let room = parts::BRIM - part.place;
    bytes.0 < room
}

#[tactic(auto, unfolding(crate::specs::Plain::simple))]
fn is_simple(kind: u8) -> bool
    ensures { result ≡ simple kind }
{
    matches!(kind, block::DELETED | block::BINARY | block::TEXT)
}

fn size_left(lanes: &mut [u64], b: Block)
    requires { Tidy lanes.old }
    ensures { Gauged (left_tokens b) lanes.old lanes.new }
{
    if !b.has_left {
        return;
    }
    tokens::lanes::size_number(lanes, tokens::lanes::CLIENTS, b.left_client);
    tokens::lanes::size_difference(lanes, tokens::lanes::LEFTS, b.left_clock as u64);
}

fn size_right(lanes: &mut [u64], b: Block)
    requires { Tidy lanes.old }
    ensures { Gauged (right_tokens b) lanes.old lanes.new }
{
    if !b.has_right {
        return;
    }
    tokens::lanes::size_number(lanes, tokens::lanes::CLIENTS, b.right_client);
    tokens::lanes::size_difference(lanes, tokens::lanes::RIGHTS, b.right_clock as u64);
}

// What is binary stands among the rest, which is not measured.
fn size_content(update: &[u8], lanes: &mut [u64], b: Block)
    requires { Tidy lanes.old × (simple b.kind ≡ true) }
    ensures { Gauged (content_tokens update.now b) lanes.old lanes.new }
{
    let length = b.length;
    if b.kind == block::TEXT {
        let part = b.part;
        tokens::lanes::size_text(update, lanes, part);
        tokens::lanes::size_number(lanes, tokens::lanes::UNITS, length.0);
        return;
    }
    if b.kind == block::DELETED {
        tokens::lanes::size_number(lanes, tokens::lanes::LENS, length.0);
    }
}

// A whole row, if it is one of those: whether it is.
pub fn size_block(update: &[u8], lanes: &mut [u64], b: Block) -> bool
    requires { Tidy lanes.old }
    ensures { (result ≡ plain b) × Gauged (pick (plain b) (block_tokens update.now b) []) lanes.old lanes.new }
{
    let length = b.length;
    if !is_in_limits(b) {
        return false;
    }
    if b.kind == block::GC {
        tokens::lanes::size_byte(lanes, tokens::lanes::INFOS, 0);
        tokens::lanes::size_number(lanes, tokens::lanes::LENS, length.0);
        return true;
    }
    if !is_simple(b.kind) {
        return false;
    }
    if !records::is_linked(b) {
        return false;
    }
    tokens::lanes::size_byte(lanes, tokens::lanes::INFOS, records::info_byte(b));
    size_left(lanes, b);
    size_right(lanes, b);
    size_content(update, lanes, b);
    true
}
