// The rows of a table as a line shows them, and rows that hold no block.
ghost use Rattle.std.specs.Prelude.{◌≡◌, ◌↔◌, IsTrue, false};
ghost use Rattle.block.specs.Row.{left_id, no_block, no_id, no_part, parent_id, right_id};

use block::Block;
use std::fmt;
use stream::shown::{After, Shown};
use text::{Bytes, Part, Units};

#[derive(Clone, Copy)]
struct Id(u64, u32);

impl Shown for Id {
    #[inline(always)]
    fn show<W: fmt::Write>(&self, out: &mut W) -> fmt::Result {
        (self.0, After(":", self.1)).show(out)
    }
}

// A part as its place and its bytes.
#[derive(Clone, Copy)]
struct Placed(Part);

impl Shown for Placed {
    #[inline(always)]
    fn show<W: fmt::Write>(&self, out: &mut W) -> fmt::Result {
        let Part { place, bytes } = self.0;
        (place, After("+", bytes.0)).show(out)
    }
}

// What may be absent, and is `-` then.
#[derive(Clone, Copy)]
struct Maybe<T>(bool, T);

impl<T: Shown> Shown for Maybe<T> {
    #[inline(always)]
    fn show<W: fmt::Write>(&self, out: &mut W) -> fmt::Result {
        if !self.0 {
            return out.write_str("-");
        }
        self.1.show(out)
    }
}

fn name(kind: u8) -> &'static str {
    match kind {
        block::GC => "gc",
        block::SKIP => "skip",
        block::DELETED => "deleted",
        block::BINARY => "binary",
        block::TEXT => "text",
        block::FORMAT => "format",
        block::TYPE => "type",
        block::ANY => "any",
        _ => "?",
    }
}

// A row with the space before it.
#[derive(Clone, Copy)]
struct Row(Block);

impl Row {
    // Its id, how long it is, and its kind.
    fn head<W: fmt::Write>(&self, out: &mut W) -> fmt::Result {
        let b = self.0;
        let id = (After(" ", b.client), After(".", b.clock));
        (id, After(".", b.length.0), After(".", name(b.kind))).show(out)
    }

    fn origins<W: fmt::Write>(&self, out: &mut W) -> fmt::Result {
        let b = self.0;
        let left = Maybe(b.has_left, Id(b.left_client, b.left_clock));
        let right = Maybe(b.has_right, Id(b.right_client, b.right_clock));
        (After(".", left), After(".", right)).show(out)
    }

    fn place<W: fmt::Write>(&self, out: &mut W) -> fmt::Result {
        let b = self.0;
        let name = Maybe(b.has_name, Placed(b.name));
        let parent = Maybe(b.has_parent, Id(b.parent_client, b.parent_clock));
        let key = Maybe(b.has_key, Placed(b.key));
        (After(".", name), After(".", parent), After(".", key)).show(out)
    }

    // The type number is that of a type; any other kind has none.
    fn contents<W: fmt::Write>(&self, out: &mut W) -> fmt::Result {
        let b = self.0;
        let stored = Maybe(block::has_part(b.kind), Placed(b.part));
        let mark = Maybe(block::is_marked(b.kind, b.type_number), Placed(b.mark));
        let number = Maybe(b.kind == block::TYPE, b.type_number);
        (After(".", stored), After(".", mark), After(".", number)).show(out)
    }
}

impl Shown for Row {
    fn show<W: fmt::Write>(&self, out: &mut W) -> fmt::Result {
        self.head(out)?;
        self.origins(out)?;
        self.place(out)?;
        self.contents(out)
    }
}

#[derive(Clone, Copy)]
pub(crate) struct Rows<'a>(pub(crate) &'a [Block]);

impl Shown for Rows<'_> {
    fn show<W: fmt::Write>(&self, out: &mut W) -> fmt::Result {
        for b in self.0 {
            Row(*b).show(out)?;
        }
        Ok(())
    }
}

const LENT_PART: Part = Part {
    place: 0xA5A5,
    bytes: Bytes(0xA5A5),
};

// A row that is lent: no field is zero.
pub const LENT: Block = Block {
    client: 0xA5A5,
    clock: 0xA5A5,
    length: Units(0xA5A5),
    kind: 0xA5,
    has_left: true,
    left_client: 0xA5A5,
    left_clock: 0xA5A5,
    has_right: true,
    right_client: 0xA5A5,
    right_clock: 0xA5A5,
    has_parent: true,
    parent_client: 0xA5A5,
    parent_clock: 0xA5A5,
    has_name: true,
    name: LENT_PART,
    has_key: true,
    key: LENT_PART,
    part: LENT_PART,
    mark: LENT_PART,
    type_number: 0xA5A5,
};

fn is_no_part(it: Part) -> bool
    ensures { IsTrue result ↔ (it ≡ no_part) }
{
    it.place == 0 && it.bytes.0 == 0
}

fn has_no_id(b: Block) -> bool
    ensures { IsTrue result ↔ ((left_id b ≡ no_id) × (right_id b ≡ no_id) × (parent_id b ≡ no_id)) }
{
    b.left_client == 0
        && b.left_clock == 0
        && b.right_client == 0
        && b.right_clock == 0
        && b.parent_client == 0
        && b.parent_clock == 0
}

fn has_none(b: Block) -> bool
    ensures { IsTrue result ↔ ((b.has_left ≡ false) × (b.has_right ≡ false) × (b.has_parent ≡ false) × (b.has_name ≡ false) × (b.has_key ≡ false)) }
{
    !b.has_left && !b.has_right && !b.has_parent && !b.has_name && !b.has_key
}

// Kept, point 4 (needed: the crates block and text derive no `PartialEq`, so that a row can't be held to `block::none()` by `==`).
pub(crate) fn is_none(b: Block) -> bool
    ensures { IsTrue result ↔ (b ≡ no_block) }
{
    b.client == 0
        && b.clock == 0
        && b.length.0 == 0
        && b.kind == 0
        && has_none(b)
        && has_no_id(b)
        && is_no_part(b.name)
        && is_no_part(b.key)
        && is_no_part(b.part)
        && is_no_part(b.mark)
        && b.type_number == 0
}
