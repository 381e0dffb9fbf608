// Document 01, 'Listing program': reads one file from standard input, and prints its text. Where the input cannot be read it prints nothing. What failed stands in one line on standard error, and the program ends with 0.

#![tactic(auto)]

ghost use Rattle.std.specs.Prelude.{◌≤◌, length, IfOk};

use std::io;
use std::io::{Read, Stdin};

// One byte more than the longest file that is not refused: more bytes change nothing (`trials/proofs/Long.antt`).
const ENOUGH: usize = 473;

const UNREAD: [u8; 39] = *b"listing: standard input cannot be read\n";

const UNWRITTEN: [u8; 43] = *b"listing: standard output cannot be written\n";

// Reads the rest of the input, so that who writes it is not cut off. A proved loop has to end, and nothing says that an input does: it counts its turns, to a number that no run uses up.
fn skip_rest(mut input: Stdin) -> io::Result<()> {
    for _ in 0..u64::MAX {
        let mut rest = [0; 4096];
        if input.read(&mut rest)? == 0 {
            break;
        }
    }
    Ok(())
}

// Reads the input to its end, keeps as many of its first bytes as there are places, and answers how many. A read that a signal interrupts fails.
fn read_input(mut input: Stdin, file: &mut [u8]) -> io::Result<usize>
    ensures { IfOk result (λ many. many ≤ length file.new) }
{
    let mut many = 0;
    // Stays: `read_to_end` wants a Vec, and nothing here lies on a heap.
    while many < file.len() {
        let more = input.read(&mut file[many..])?;
        if more == 0 {
            return Ok(many);
        }
        many += more;
    }
    skip_rest(input)?;
    Ok(many)
}

// Prints the text of a file.
fn print(rt: &HostRuntime, file: &[u8]) {
    let mut text = [0; trials::TEXT];
    let length = trials::list(file, &mut text);
    if rt.stdout().write_all(&text[..length]).is_err() {
        let _ = rt.stderr().write_all(&UNWRITTEN);
    }
}

fn main(rt: HostRuntime) {
    let mut file = [0; ENOUGH];
    match read_input(rt.stdin(), &mut file) {
        Ok(many) => print(&rt, &file[..many]),
        Err(_) => {
            let _ = rt.stderr().write_all(&UNREAD);
        }
    }
}
