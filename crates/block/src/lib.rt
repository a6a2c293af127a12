// A row of the block table: one block of an update, in plain data.
#![tactic(auto)]

ghost use Rattle.std.specs.Prelude.{◌≡◌, ◌≤◌};
ghost use Rattle.block.specs.Row.{no_block};
ghost use Rattle.block.specs.Kinds.{is_item, is_named};
ghost use Rattle.block.specs.KindsInner.{has_part, content_number, is_marked};

use text::{Bytes, Part, Units};

// What a row's `kind` says; 0 says that the row has no block.
pub const GC: u8 = 1;

pub const SKIP: u8 = 2;

pub const DELETED: u8 = 3;

pub const BINARY: u8 = 4;

pub const TEXT: u8 = 5;

pub const FORMAT: u8 = 6;

pub const TYPE: u8 = 7;

pub const ANY: u8 = 8;

// The highest type number.
pub const MAX_TYPE: u64 = 6;

// A block with content: it is not bare, as a GC and a Skip are.
pub fn is_item(kind: u8) -> bool
    ensures { result ≡ is_item kind }
{
    match kind {
        DELETED => true,
        BINARY => true,
        TEXT => true,
        FORMAT => true,
        TYPE => true,
        ANY => true,
        _ => false,
    }
}

// Whether its content is stored as bytes of the update.
pub fn has_part(kind: u8) -> bool
    ensures { result ≡ has_part kind }
{
    match kind {
        BINARY => true,
        TEXT => true,
        FORMAT => true,
        ANY => true,
        _ => false,
    }
}

// The number of its content in an info byte; 0 is no content's.
pub fn content_number(kind: u8) -> u8
    ensures { (result ≡ content_number kind) × (result ≤ 8) }
{
    match kind {
        DELETED => 1,
        BINARY => 3,
        TEXT => 4,
        FORMAT => 6,
        TYPE => 7,
        ANY => 8,
        _ => 0,
    }
}

// Whether a type of this number has a node name: an XML element and an XML hook.
pub fn is_named(number: u16) -> bool
    ensures { result ≡ is_named number }
{
    match number {
        3 => true,
        5 => true,
        _ => false,
    }
}

// Whether a block of this kind and type number has a mark: a format its key, such a type its node name.
pub fn is_marked(kind: u8, number: u16) -> bool
    ensures { result ≡ is_marked kind number }
{
    match kind {
        FORMAT => true,
        TYPE => is_named(number),
        _ => false,
    }
}

#[repr(C)]
#[derive(Clone, Copy)]
pub struct Id {
    pub client: u64,
    pub clock: u32,
}

// `has_left` says whether the left id is there, and so on; what is not there is zero. An id's client and clock stand with their like, and kind, flags and type
// number side by side behind the numbers: 128 bytes.
#[repr(C)]
#[derive(Clone, Copy)]
pub struct Block {
    pub client: u64,
    pub left_client: u64,
    pub right_client: u64,
    pub parent_client: u64,
    pub length: Units,
    pub name: Part,
    pub key: Part,
    // the stored part of a binary or a text, a format's value, an any-list's values
    pub part: Part,
    // a format's key, the node name of a type that has one
    pub mark: Part,
    pub clock: u32,
    pub left_clock: u32,
    pub right_clock: u32,
    pub parent_clock: u32,
    pub kind: u8,
    pub has_left: bool,
    pub has_right: bool,
    pub has_parent: bool,
    pub has_name: bool,
    pub has_key: bool,
    pub type_number: u16,
}

// The row that has no block: all zero.
pub fn none() -> Block
    ensures { result ≡ no_block }
{
    let part = Part {
        place: 0,
        bytes: Bytes(0),
    };
    Block {
        client: 0,
        clock: 0,
        length: Units(0),
        kind: 0,
        has_left: false,
        left_client: 0,
        left_clock: 0,
        has_right: false,
        right_client: 0,
        right_clock: 0,
        has_parent: false,
        parent_client: 0,
        parent_clock: 0,
        has_name: false,
        name: part,
        has_key: false,
        key: part,
        part,
        mark: part,
        type_number: 0,
    }
}
