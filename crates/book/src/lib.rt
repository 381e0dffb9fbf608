// Document 01, 'The book': opened, and the held answer.

#![tactic(auto)]

ghost use Rattle.std.specs.Prelude.{◌≡◌};
ghost use Rattle.ground.specs.Checks.{verdict};
ghost use Rattle.ground.specs.Answer.{outcome, refusal_of, of_result};
ghost use Rattle.book.specs.Book.{book_of, sized, halves};
ghost use Rattle.book.specs.Asked.{book_checks, open_asked, held_asked};

use ground::refusal;
use ground::refusal::Refusal;
use settings::Settings;
use words::E;

// A book in one list: the words, and then the votes.
pub const BOOK: usize = 2 * Settings::SLOTS;

// Whether both lists have their right length. They stay two: C lends them so (`omh_open`).
pub fn is_whole(words: &[i32], votes: &[i32]) -> bool
    ensures { result ≡ sized (book_of words.now votes.now) }
{
    (words.len() == Settings::SLOTS) & (votes.len() == Settings::SLOTS)
}

// Whether a call on a book is refused.
pub fn book_refused(s: Settings, words: &[i32], votes: &[i32]) -> Result<(), Refusal>
    ensures { refusal_of result ≡ verdict (book_checks s (book_of words.now votes.now)) }
{
    refusal::first(
        settings::settings_refused(s),
        refusal::when(!is_whole(words, votes), Refusal::Long),
    )
}

// The same of a book in one list.
pub fn part_refused(s: Settings, part: &[i32]) -> Result<(), Refusal>
    ensures { refusal_of result ≡ verdict (book_checks s (halves part.now)) }
{
    let (words, votes) = part.split_at(Settings::SLOTS.min(part.len()));
    book_refused(s, words, votes)
}

pub fn open(s: Settings, words: &mut [i32], votes: &mut [i32]) -> Result<(), Refusal>
    ensures { outcome (of_result result) (book_of words.new votes.new) ≡ open_asked s (book_of words.old votes.old) }
{
    book_refused(s, words, votes)?;
    words.fill(E);
    votes.fill(E);
    Ok(())
}

// The same of a book in one list.
pub fn open_part(s: Settings, part: &mut [i32]) -> Result<(), Refusal>
    ensures { outcome (of_result result) (halves part.new) ≡ open_asked s (halves part.old) }
{
    let half = Settings::SLOTS.min(part.len());
    let (words, votes) = part.split_at_mut(half);
    open(s, words, votes)
}

// The vote at slot 0 as it stands.
pub fn held_answer(words: &[i32], votes: &[i32]) -> Result<i32, Refusal>
    ensures { of_result result ≡ held_asked (book_of words.now votes.now) }
{
    refusal::when(!is_whole(words, votes), Refusal::Long)?;
    Ok(votes[0])
}
