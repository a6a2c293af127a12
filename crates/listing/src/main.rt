// Prints the listing of the update on standard input: a form byte, then the update.
#![tactic(auto)]

ghost use Rattle.std.specs.Counts.{IsPrefixLen};

use std::io::{Read, Stdin, Write};

// Fills what is lent from standard input, as far as that goes, and says how far. A read that fails is taken as its end.
fn filled(stdin: Stdin, lent: &mut [u8]) -> usize
    ensures { IsPrefixLen result lent.new }
{
    let mut from = stdin;
    let mut done = 0;
    // Kept, point 3 (no plainer): it counts no index, a turn takes as many bytes as the read gives; std reads to the end only into a heap.
    while done < lent.len() {
        let more = from.read(&mut lent[done..]).unwrap_or(0);
        if more == 0 {
            return done;
        }
        done += more;
    }
    done
}

fn main(rt: HostRuntime) {
    // one byte more than is allowed, so that a longer input is seen
    let mut input = [0u8; listed::MAX_INPUT + 1];
    let mut text = [0u8; listed::MAX_TEXT];
    let size = filled(rt.stdin(), &mut input);
    let answer = listed::list(&input[..size], &mut text);
    if let Some(listing) = text.get(..answer.bytes) {
        let mut to = rt.stdout();
        // where standard output takes nothing more there is no one left to tell
        let _ = to.write_all(listing);
    }
}
