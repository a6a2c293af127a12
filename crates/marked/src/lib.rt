// The contents that have a mark, a type number or plain values, written token by token in either form.
#![tactic(auto)]

ghost use Rattle.tokens.specs.Desk.{Room, Aliased, WroteKeys};
ghost use Rattle.marked.specs.Marked.{format_tokens, type_tokens, marked_tokens};

use block::Block;

// A key and its value.
fn write_format(
    out: &mut [u8],
    update: &[u8],
    lanes: &mut [u64],
    form: u8,
    at: usize,
    b: Block,
) -> usize
    requires { Aliased update.now lanes.old × Room form (format_tokens update.now b) lanes.old }
    ensures { WroteKeys update.now form (format_tokens update.now b)
        out.old lanes.old at out.new lanes.new result }
{
    let marked = numbering::write_key(out, update, lanes, form, at, b.mark);
    tokens::fields::write_value(out, update, lanes, form, marked, b.part)
}

// A type number, and the node name of a type that has one.
fn write_type(
    out: &mut [u8],
    update: &[u8],
    lanes: &mut [u64],
    form: u8,
    at: usize,
    b: Block,
) -> usize
    requires { Aliased update.now lanes.old × Room form (type_tokens update.now b) lanes.old }
    ensures { WroteKeys update.now form (type_tokens update.now b)
        out.old lanes.old at out.new lanes.new result }
{
    let typed = tokens::fields::write_type(out, lanes, form, at, b.type_number as u64);
    if block::is_named(b.type_number) {
        return numbering::write_key(out, update, lanes, form, typed, b.mark);
    }
    typed
}

// The content of a format, a type or a list of plain values.
pub fn write_marked(
    out: &mut [u8],
    update: &[u8],
    lanes: &mut [u64],
    form: u8,
    at: usize,
    b: Block,
) -> usize
    requires { Aliased update.now lanes.old × Room form (marked_tokens update.now b) lanes.old }
    ensures { WroteKeys update.now form (marked_tokens update.now b)
        out.old lanes.old at out.new lanes.new result }
{
    if b.kind == block::FORMAT {
        return write_format(out, update, lanes, form, at, b);
    }
    if b.kind == block::TYPE {
        return write_type(out, update, lanes, form, at, b);
    }
    if b.kind == block::ANY {
        let length = b.length;
        let counted = tokens::fields::write_len(out, lanes, form, at, length.0);
        return tokens::line::part(out, update, counted, b.part);
    }
    at
}
