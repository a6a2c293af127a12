// The plan of an update's blocks, draw by draw: what the next field drawn is of its section or its block, by what was drawn before.
#![tactic(auto)]

ghost use Rattle.std.specs.Prelude.{◌≡◌, ◌+◌, ◌≤◌};
ghost use Rattle.roles.specs.Roles as roles;
ghost use Rattle.roles.specs.RolesInner as roles-inner;
ghost use Rattle.roles.specs.Roles.{go_to, sectioned, announced, headed, informed, lengthened, info_role, content_role};
ghost use Rattle.roles.specs.Roles.{to_content, to_key, code_of};
ghost use Rattle.roles.specs.RolesInner.{is_bare, is_kept};

// What a field is drawn for. A section has its block count, its client and its first clock; a block its info byte, and then what that byte announces. `Ended`:
// nothing more of a block is drawn. `Over`: nothing more of the update's blocks.
#[derive(Clone, Copy)]
pub enum Role {
    Sections,
    Blocks,
    Client,
    FirstClock,
    Info,
    SkipLength,
    GcLength,
    LeftClient,
    LeftClock,
    RightClient,
    RightClock,
    ParentInfo,
    ParentName,
    ParentClient,
    ParentClock,
    Key,
    DeletedLength,
    Binary,
    Text,
    MarkKey,
    MarkValue,
    TypeNumber,
    NodeName,
    ListLength,
    ListValues,
    Ended,
    Over,
}

// Where the plan stands: what is drawn next; sections still to come, and blocks of this section behind this one; how many blocks may still be announced; the
// section's first clock; of this block its clock, its info byte and that byte's place, and its length, as far as they are drawn.
#[derive(Clone, Copy)]
pub struct Plan {
    pub role: Role,
    pub sections: u64,
    pub blocks: u64,
    pub room: u64,
    pub first: u64,
    pub clock: u64,
    pub info: u64,
    pub place: u64,
    pub length: u64,
}

// The plan before the first draw.
pub fn start() -> Plan
    ensures { result ≡ roles.start }
{
    Plan {
        role: Role::Sections,
        sections: 0,
        blocks: 0,
        room: numbers::MAX_BLOCKS,
        first: 0,
        clock: 0,
        info: 0,
        place: 0,
        length: 0,
    }
}

// ---- how a plan goes on

#[tactic(auto, unfolding(crate::specs::Roles::go_to))]
fn go_to(role: Role, q: Plan) -> Plan
    ensures { result ≡ go_to role q }
{
    Plan { role, ..q }
}

// What stands before a section: its head, or the end.
#[tactic(auto, unfolding(crate::specs::Roles::section_role))]
fn section_role(sections: u64) -> Role
    ensures { result ≡ roles.section_role sections }
{
    if sections == 0 {
        return Role::Over;
    }
    Role::Blocks
}

#[tactic(auto, unfolding(crate::specs::Roles::sectioned))]
fn to_sections(n: u64, q: Plan) -> Plan
    ensures { result ≡ sectioned n q }
{
    Plan {
        role: section_role(n),
        sections: n,
        blocks: 0,
        room: q.room,
        first: 0,
        clock: 0,
        info: 0,
        place: 0,
        length: 0,
    }
}

#[tactic(auto, unfolding(crate::specs::Roles::announced))]
fn announce(k: u64, q: Plan) -> Plan
    ensures { result ≡ announced k q }
{
    Plan {
        role: Role::Client,
        sections: numbers::words::less(q.sections, 1),
        blocks: k,
        room: numbers::words::less(q.room, k),
        first: 0,
        clock: 0,
        info: 0,
        place: 0,
        length: 0,
    }
}

// What stands behind a block, or a section's head.
#[tactic(auto, unfolding(crate::specs::Roles::block_role))]
fn block_role(blocks: u64, sections: u64) -> Role
    ensures { result ≡ roles.block_role blocks sections }
{
    if blocks == 0 {
        return section_role(sections);
    }
    Role::Info
}

// Behind a block, or a section's head: the next block of this section, which begins where the one before ended; where none is left, the next section.
#[tactic(auto, unfolding(crate::specs::Roles::onward))]
pub fn onward(q: Plan) -> Plan
    requires { q.clock + q.length ≤ 18446744073709551615 }
    ensures { result ≡ roles.onward q }
{
    Plan {
        role: block_role(q.blocks, q.sections),
        sections: q.sections,
        blocks: numbers::words::less(q.blocks, 1),
        room: q.room,
        first: q.first,
        clock: q.clock + q.length,
        info: 0,
        place: 0,
        length: 0,
    }
}

// The first clock of a section.
#[tactic(auto, unfolding(crate::specs::Roles::headed))]
fn head(clock: u64, q: Plan) -> Plan
    ensures { result ≡ headed clock q }
{
    onward(Plan {
        role: Role::Ended,
        first: clock,
        clock,
        info: 0,
        place: 0,
        length: 0,
        ..q
    })
}

#[tactic(auto, unfolding(crate::specs::Roles::lengthened))]
fn lengthen(role: Role, n: u64, q: Plan) -> Plan
    ensures { result ≡ lengthened role n q }
{
    Plan {
        role,
        length: n,
        ..q
    }
}

// Nothing more of this block is drawn, and it has so many clocks.
fn last(n: u64, q: Plan) -> Plan
    ensures { result ≡ lengthened roles-inner.ended n q }
{
    lengthen(Role::Ended, n, q)
}

// ---- what an info byte announces

// Exactly 10 is a Skip, exactly 0 a GC; else a left id, a right id, or neither, and then a parent.
#[tactic(auto, unfolding(crate::specs::Roles::info_role))]
fn info_role(info: u64) -> Role
    ensures { result ≡ info_role info }
{
    if info == 10 {
        return Role::SkipLength;
    }
    if info == 0 {
        return Role::GcLength;
    }
    if info < 64 {
        return Role::ParentInfo;
    }
    if info < 128 {
        return Role::RightClient;
    }
    Role::LeftClient
}

// The info byte, and its place.
#[tactic(auto, unfolding(crate::specs::Roles::informed))]
fn inform(info: u64, place: u64, q: Plan) -> Plan
    ensures { result ≡ informed (info_role info) info place q }
{
    Plan {
        role: info_role(info),
        info,
        place,
        length: 0,
        ..q
    }
}

// By the low five bits.
#[tactic(auto, unfolding(crate::specs::Roles::content_role))]
fn content_role(n: u64) -> Role
    ensures { result ≡ content_role n }
{
    match n {
        1 => Role::DeletedLength,
        3 => Role::Binary,
        4 => Role::Text,
        6 => Role::MarkKey,
        7 => Role::TypeNumber,
        8 => Role::ListLength,
        _ => Role::Over,
    }
}

fn to_content(q: Plan) -> Plan
    ensures { result ≡ to_content q }
{
    go_to(content_role(q.info % 32), q)
}

fn to_key(q: Plan) -> Plan
    ensures { result ≡ to_key q }
{
    if q.info < 32 {
        return to_content(q);
    }
    go_to(Role::Key, q)
}

// Behind a left id: a right id, where the info byte has one.
#[tactic(auto, unfolding(crate::specs::Roles::to_right))]
fn to_right(q: Plan) -> Plan
    ensures { result ≡ roles.to_right q }
{
    if q.info % 128 < 64 {
        return to_content(q);
    }
    go_to(Role::RightClient, q)
}

// A parent info of 1: a name; otherwise an id.
#[tactic(auto, unfolding(crate::specs::Roles::to_parent))]
fn to_parent(v: u64, q: Plan) -> Plan
    ensures { result ≡ roles.to_parent v q }
{
    if v == 1 {
        return go_to(Role::ParentName, q);
    }
    go_to(Role::ParentClient, q)
}

// A type number too high ends the plan: it is refused.
#[tactic(auto, unfolding(crate::specs::Roles::to_node))]
fn to_node(v: u64, q: Plan) -> Plan
    ensures { result ≡ roles.to_node v q }
{
    if block::MAX_TYPE < v {
        return go_to(Role::Over, q);
    }
    if block::is_named(v as u16) {
        return go_to(Role::NodeName, q);
    }
    last(1, q)
}

// ---- behind a draw

// The plan behind the draw that it names, which gave v, a number or a text's units, and is blamed at p.
#[tactic(auto, unfolding(crate::specs::Roles::plan_after, crate::specs::Roles::after))]
pub fn after(q: Plan, v: u64, p: u64) -> Plan
    ensures { result ≡ roles.after q v p }
{
    match q.role {
        Role::Sections => to_sections(v, q),
        Role::Blocks => announce(v, q),
        Role::Client => go_to(Role::FirstClock, q),
        Role::FirstClock => head(v, q),
        Role::Info => inform(v, p, q),
        Role::SkipLength => last(v, q),
        Role::GcLength => last(v, q),
        Role::LeftClient => go_to(Role::LeftClock, q),
        Role::LeftClock => to_right(q),
        Role::RightClient => go_to(Role::RightClock, q),
        Role::RightClock => to_content(q),
        Role::ParentInfo => to_parent(v, q),
        Role::ParentName => to_key(q),
        Role::ParentClient => go_to(Role::ParentClock, q),
        Role::ParentClock => to_key(q),
        Role::Key => to_content(q),
        Role::DeletedLength => last(v, q),
        Role::Binary => last(1, q),
        Role::Text => last(v, q),
        Role::MarkKey => go_to(Role::MarkValue, q),
        Role::MarkValue => last(1, q),
        Role::TypeNumber => to_node(v, q),
        Role::NodeName => last(1, q),
        Role::ListLength => lengthen(Role::ListValues, v, q),
        Role::ListValues => go_to(Role::Ended, q),
        Role::Ended => q,
        Role::Over => q,
    }
}

// ---- what is told of a role

// Its number: what a line's first word says. 5 is the block's own clock, which is not drawn, and 27 the text of a key that has a number.
#[tactic(auto, unfolding(crate::specs::Roles::code_of))]
pub fn code_of(r: Role) -> u64
    ensures { result ≡ code_of r }
{
    match r {
        Role::Sections => 1,
        Role::Blocks => 2,
        Role::Client => 3,
        Role::FirstClock => 4,
        Role::Info => 6,
        Role::SkipLength => 7,
        Role::GcLength => 8,
        Role::LeftClient => 9,
        Role::LeftClock => 10,
        Role::RightClient => 11,
        Role::RightClock => 12,
        Role::ParentInfo => 13,
        Role::ParentName => 14,
        Role::ParentClient => 15,
        Role::ParentClock => 16,
        Role::Key => 17,
        Role::DeletedLength => 18,
        Role::Binary => 19,
        Role::Text => 20,
        Role::MarkKey => 21,
        Role::MarkValue => 22,
        Role::TypeNumber => 23,
        Role::NodeName => 24,
        Role::ListLength => 25,
        Role::ListValues => 26,
        Role::Ended => 0,
        Role::Over => 28,
    }
}

// Nothing more of a block is drawn.
#[tactic(auto, unfolding(crate::specs::Roles::is_ended))]
pub fn is_ended(q: Plan) -> bool
    ensures { result ≡ roles.is_ended q }
{
    code_of(q.role) == 0
}

// Nothing more of the update's blocks is drawn.
#[tactic(auto, unfolding(crate::specs::RolesInner::is_over))]
pub fn is_over(q: Plan) -> bool
    ensures { result ≡ roles-inner.is_over q }
{
    code_of(q.role) == 28
}

// A GC or a Skip.
#[tactic(auto, unfolding(crate::specs::RolesInner::is_bare))]
fn is_bare(info: u64) -> bool
    ensures { result ≡ is_bare info }
{
    matches!(info, 0 | 10)
}

// The block that ended is kept: it is not an item of length 0.
#[tactic(auto, unfolding(crate::specs::RolesInner::is_kept))]
pub fn is_kept(q: Plan) -> bool
    ensures { result ≡ is_kept q }
{
    q.length != 0 || is_bare(q.info)
}
