// The public call `content`: the stored part of a block, as a part of the lent update itself.
#![tactic(auto)]

pub mod answer;

ghost use Rattle.std.specs.Prelude.{◌≡◌};
ghost use Rattle.contents.specs.Promises.{refused_where, Looks, PartOf, Contents};
ghost use Rattle.contents.specs.PromisesInner.{In};

use answer::Content;
use numbers::Refusal;
use text::{Bytes, Part};

// A refusal, zeros for done, and where the part lies that is handed back with it.
#[repr(C)]
#[derive(Clone, Copy)]
pub struct Where {
    pub refusal: Refusal,
    pub part: Part,
}

fn refused_where(why: Refusal) -> Where
    ensures { result ≡ refused_where why }
{
    Where {
        refusal: why,
        part: Part {
            place: 0,
            bytes: Bytes(0),
        },
    }
}

// All that is decided: the form, then the update's length, then what the update has. Public for C, which cannot be handed the part.
pub fn look(form: u8, update: &[u8], n: usize) -> Where
    ensures { Looks form update.now n result }
{
    if form < 1 {
        return refused_where(Refusal {
            number: 12,
            place: 0,
        });
    }
    if 2 < form {
        return refused_where(Refusal {
            number: 12,
            place: 0,
        });
    }
    if numbers::MAX_UPDATE < update.len() {
        return refused_where(Refusal {
            number: 3,
            place: 0,
        });
    }
    match content::find(form, update, n) {
        Ok(part) => Where {
            refusal: Refusal {
                number: 0,
                place: 0,
            },
            part,
        },
        Err(why) => refused_where(why),
    }
}

// The part of the update itself.
fn cut(update: &[u8], p: Part) -> &[u8]
    requires { In update.now p }
    ensures { PartOf update.entry p result }
{
    let place = p.place;
    let bytes = p.bytes;
    let end = place + bytes.0;
    &update[place..end]
}

// Block n's text or binary, where it lies in the update; an empty part after a refusal.
pub fn content<'a>(form: u8, update: &'a [u8], n: usize) -> Content<'a>
    ensures { Contents form update.entry n result.refusal result.part }
{
    let w = look(form, update, n);
    let part = cut(update, w.part);
    Content {
        refusal: w.refusal,
        part,
    }
}
