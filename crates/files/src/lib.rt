// Document 01, 'Listing program': a file's fields, when it is refused, and the table that it gives.

#![tactic(auto)]

ghost use Rattle.std.specs.Prelude.{◌≡◌};
ghost use Rattle.ground.specs.Checks.{verdict};
ghost use Rattle.ground.specs.Answer.{refusal_of, of_result};
ghost use Rattle.files.specs.File as spec;

use ground::refusal::Refusal;
use ground::{bytes, refusal};
use settings::{Rack, Settings, Turn};

const MARK: [u8; 3] = *b"OMX";

const VERSION: u16 = 1;

// The bytes before the exceptions, and of each exception.
const HEAD: usize = 24;

const EXCEPTION_SIZE: usize = 7;

const MOST_EXCEPTIONS: usize = 64;

// The rack, its sender and the sender's value.
#[derive(Clone, Copy, Debug, PartialEq, Eq)]
pub struct Head {
    pub turn: Turn,
    pub x: i32,
}

// A word for a slot and a receiver.
#[derive(Clone, Copy, Debug, PartialEq, Eq)]
struct Exception {
    slot: u16,
    receiver: u8,
    word: i32,
}

#[tactic(auto, unfolding(crate::specs::File::value_in))]
fn head_of(file: &[u8]) -> Head
    ensures { result ≡ spec.head_of file.now }
{
    let rack = Rack {
        n: bytes::byte_at(file, 5) as usize,
        m: bytes::byte_at(file, 6) as usize,
    };
    let turn = Turn {
        rack,
        t: bytes::byte_at(file, 7) as usize,
    };
    Head {
        turn,
        x: bytes::from_bits(bytes::get32(file, 18)),
    }
}

// The number of exceptions, which two bytes hold.
fn exceptions(file: &[u8]) -> u16
    ensures { result ≡ spec.exceptions file.now }
{
    bytes::get16(file, 22)
}

// The exception that the file has at this place, counted from 0; two bytes hold its slot, one its receiver.
fn exception_at(file: &[u8], i: u16) -> Exception
    ensures { result ≡ spec.exception_at file.now i }
{
    let at = HEAD + EXCEPTION_SIZE * i as usize;
    Exception {
        slot: bytes::get16(file, at),
        receiver: bytes::byte_at(file, at + 2),
        word: bytes::from_bits(bytes::get32(file, at + 3)),
    }
}

#[tactic(auto, unfolding(crate::specs::File::exception_bad))]
fn exception_bad(file: &[u8], i: u16) -> bool
    ensures { result ≡ spec.exception_bad file.now i }
{
    let e = exception_at(file, i);
    (Settings::SLOTS <= e.slot as usize) | (Settings::MAX_CARDS <= e.receiver as usize)
}

fn exceptions_bad(file: &[u8]) -> bool
    ensures { result ≡ spec.exceptions_bad file.now }
{
    (0..exceptions(file)).any(|i| exception_bad(file, i))
}

// Whether a file is refused by its mark, version and lengths.
#[tactic(auto, unfolding(ground::specs::Checks::verdict))]
fn shape_refused(file: &[u8]) -> Result<(), Refusal>
    ensures { refusal_of result ≡ verdict (spec.shape_checks file.now) }
{
    let number = exceptions(file) as usize;
    refusal::when(file.len() < HEAD, Refusal::Size)?;
    refusal::when(!bytes::starts_with(file, &MARK), Refusal::Mark)?;
    refusal::when(bytes::get16(file, 3) != VERSION, Refusal::Version)?;
    refusal::when(MOST_EXCEPTIONS < number, Refusal::Exception)?;
    refusal::when(file.len() != HEAD + EXCEPTION_SIZE * number, Refusal::Size)
}

// Whether a file with this head is refused. Its statuses and exceptions are looked at where they are there.
fn refused(file: &[u8], h: Head) -> Result<(), Refusal>
    requires { h ≡ spec.head_of file.now }
    ensures { refusal_of result ≡ verdict (spec.file_checks file.now) }
{
    shape_refused(file)?;
    settings::turn_refused(h.turn)?;
    exchange::statuses_refused(h.turn.rack, h.x, &file[8..18])?;
    refusal::when(exceptions_bad(file), Refusal::Exception)
}

// The head of a file that is not refused.
#[tactic(auto, unfolding(crate::specs::File::file_asked, ground::specs::Answer::answer))]
pub fn read(file: &[u8]) -> Result<Head, Refusal>
    ensures { of_result result ≡ spec.file_asked file.now }
{
    let h = head_of(file);
    refused(file, h)?;
    Ok(h)
}

// Puts the word of an exception in its place, where the table has it.
// Stays: of what is written through a slice's `get_mut` a proof knows the length only.
fn tell_one(file: &[u8], i: u16, table: &mut [i32])
    ensures { table.new ≡ spec.told_one file.now i table.old }
{
    let e = exception_at(file, i);
    let place = 10 * e.slot as usize + e.receiver as usize;
    if place < table.len() {
        table[place] = e.word;
    }
}

// Puts the words of all exceptions in the table, in their order.
// Stays: an exception may lie past the file's end, where bytes count as 0, so this counts and takes no parts of the file.
#[tactic(auto, unfolding(crate::specs::File::told))]
pub fn tell(file: &[u8], table: &mut [i32])
    ensures { table.new ≡ spec.told file.now (spec.exceptions file.now) table.old }
{
    for i in 0..exceptions(file) {
        tell_one(file, i, table);
    }
}
