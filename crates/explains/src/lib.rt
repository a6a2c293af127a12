// The public call `explain`: for a block that was read, where each of its numbers came from. It asks nothing of its caller; after a refusal the words lent
// are zeros.
#![tactic(auto)]

ghost use Rattle.std.specs.Prelude.{◌≡◌, ◌≤◌, length};
ghost use Rattle.origins.specs.Sheets.{lines_from};
ghost use Rattle.explains.specs.Promises.{refused, fitting, Gives, Explains};
ghost use Rattle.explains.specs.Whole.{whole_of};

use numbers::Refusal;

// A refusal, zeros for done, and how many lines of twelve words each were told.
#[repr(C)]
#[derive(Clone, Copy)]
pub struct Explained {
    pub refusal: Refusal,
    pub lines: usize,
}

// Whether an update reads, from its form to its delete set. Nothing of it is kept.
fn read_whole(form: u8, update: &[u8]) -> Result<(), Refusal>
    ensures { result ≡ whole_of form update.now }
{
    let mut w = [0u64; 580];
    let s = update::begin(form, update, &mut w)?;
    // Kept, point 1 (eleven_first and set_nowhere): both plant a value in an arm, and a `?` has none.
    let at = match content::scan(form, update, &mut w, s, 0) {
        Ok((_, at)) => at,
        Err(why) => return Err(why),
    };
    match deletes::check_delete_set(form, update, at) {
        Ok(_) => Ok(()),
        Err(why) => Err(why),
    }
}

fn refuse(out: &mut [u64], why: Refusal) -> Explained
    ensures { Gives (refused why) out.old result out.new }
{
    numbers::words::clear(out, 0);
    Explained {
        refusal: why,
        lines: 0,
    }
}

// The sheet's first lines, if there are any, and if the words lent take them.
fn told(out: &mut [u64], sheet: &[u64], lines: usize) -> Explained
    requires { (length sheet.now ≡ 192) × (lines ≤ 16) }
    ensures { Gives (fitting (length out.old) (lines_from sheet.now 0 lines)) out.old result out.new }
{
    if lines == 0 {
        return refuse(
            out,
            Refusal {
                number: 11,
                place: 0,
            },
        );
    }
    let n = 12 * lines;
    if out.len() < n {
        return refuse(
            out,
            Refusal {
                number: 10,
                place: 0,
            },
        );
    }
    out[..n].copy_from_slice(&sheet[..n]);
    numbers::words::clear(out, n);
    Explained {
        refusal: Refusal {
            number: 0,
            place: 0,
        },
        lines,
    }
}

// The draws that made block n, from 0 in reading order, in the order in which they were read, from its section's block count on: twelve words each.
pub fn explain(form: u8, update: &[u8], n: usize, out: &mut [u64]) -> Explained
    ensures { Explains form update.now n out.old result out.new }
{
    let unknown = Refusal {
        number: 12,
        place: 0,
    };
    if form < 1 {
        return refuse(out, unknown);
    }
    if 2 < form {
        return refuse(out, unknown);
    }
    if numbers::MAX_UPDATE < update.len() {
        return refuse(
            out,
            Refusal {
                number: 3,
                place: 0,
            },
        );
    }
    match read_whole(form, update) {
        Ok(()) => {
            let mut sheet = [0u64; 192];
            let lines = explainer::explain_block(form, update, n, &mut sheet);
            told(out, &sheet, lines)
        }
        Err(why) => refuse(out, why),
    }
}
