// Document 01, 'Frames' and 'Refusal numbers': a frame entered in a book.

#![tactic(auto)]

ghost use Rattle.std.specs.Prelude.{◌≡◌};
ghost use Rattle.ground.specs.Checks.{verdict};
ghost use Rattle.ground.specs.Answer.{outcome, refusal_of, of_result};
ghost use Rattle.book.specs.Book.{book_of};
ghost use Rattle.arrivals.specs.Entry.{timely_checks, entry_asked, arrival_asked, frame_asked};

use ages::Age;
use entering::Entry;
use frames::Frame;
use ground::refusal;
use ground::refusal::Refusal;
use settings::Settings;

// Whether a frame is old, ahead or another book's.
#[tactic(auto, unfolding(ground::specs::Checks::verdict))]
fn untimely(s: Settings, current: u16, f: Frame) -> Result<(), Refusal>
    ensures { refusal_of result ≡ verdict (timely_checks s current f) }
{
    match ages::age_class(current, f.exchange) {
        Age::Old => Err(Refusal::Old),
        Age::Ahead => Err(Refusal::Ahead),
        Age::Current => {
            let own = (f.sender as usize == s.t) & (f.receiver as usize == s.p);
            refusal::when(!own, Refusal::Foreign)
        }
    }
}

// What a frame's record carries to the book of these settings.
pub fn entry_of(s: Settings, current: u16, f: Frame) -> Result<Entry, Refusal>
    ensures { of_result result ≡ entry_asked s current f }
{
    untimely(s, current, f)?;
    let slot = paths::slot_of(
        f.level as usize,
        f.q1 as usize,
        f.q2 as usize,
        f.q3 as usize,
    )?;
    Ok(Entry { slot, word: f.word })
}

// The entry that the bytes of a frame give a book of these settings.
pub fn arrival(s: Settings, current: u16, bytes: &[u8]) -> Result<Entry, Refusal>
    ensures { of_result result ≡ arrival_asked s current bytes.now }
{
    entry_of(s, current, frames::read(bytes)?)
}

// Enters a frame in a book, where `current` is the exchange number. What the book is refused for comes before the frame; where the frame passes, the book's entering sees to that.
pub fn enter(
    s: Settings,
    words: &mut [i32],
    votes: &mut [i32],
    current: u16,
    bytes: &[u8],
) -> Result<(), Refusal>
    ensures { outcome (of_result result) (book_of words.new votes.new) ≡ frame_asked s (book_of words.old votes.old) current bytes.now }
{
    match arrival(s, current, bytes) {
        Ok(Entry { slot, word }) => entering::enter(s, words, votes, slot, word),
        Err(reason) => refusal::first(book::book_refused(s, words, votes), Err(reason)),
    }
}
