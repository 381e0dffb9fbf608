// Document 02, Q-1: a card's books, one for each sender, in one list.

#![tactic(auto)]

ghost use Rattle.std.specs.Prelude.{◌≡◌, true, false, List, ℤ};
ghost use Rattle.std.specs.Fn.{FnOnceReturnsAtMut};
ghost use Rattle.ground.specs.Checks.{verdict};
ghost use Rattle.ground.specs.Answer.{outcome, refusal_of, of_result};
ghost use Rattle.ground.specs.Lists.{part, with_part};
ghost use Rattle.books.specs.Books.{book_words, has_part, books_checks};
ghost use Rattle.books.specs.Asked.{books_open_asked, books_enter_asked, books_refill_asked, books_frame_asked};

use book::BOOK;
use entering::Entry;
use ground::refusal;
use ground::refusal::Refusal;
use settings::Settings;

// The long list: a book for each of the ten cards as sender, sender after sender.
pub const BOOKS: usize = Settings::MAX_CARDS * BOOK;

// Whether a call on the long list is refused.
pub fn books_refused(s: Settings, books: &[i32]) -> Result<(), Refusal>
    ensures { refusal_of result ≡ verdict (books_checks s books.now) }
{
    refusal::first(
        settings::settings_refused(s),
        refusal::when(books.len() != BOOKS, Refusal::Long),
    )
}

// The call on the sender's part of the long list, which sees to the settings; where there is no such part, the long list's refusal.
fn on_part<F: FnOnce(&mut [i32]) -> Result<(), Refusal>>(
    s: Settings,
    books: &mut [i32],
    call: F,
) -> Result<(), Refusal>
    requires { F.IsAlwaysCallable call }
    ensures called { has_part s books.old ≡ true → (new : List ℤ) × FnOnceReturnsAtMut F.FnOnce call (part book_words s.t books.old) result new × (books.new ≡ with_part book_words s.t books.old new) }
    ensures refused { has_part s books.old ≡ false → (refusal_of result ≡ verdict (books_checks s books.old)) × (books.new ≡ books.old) }
{
    if (s.t < Settings::MAX_CARDS) & (books.len() == BOOKS) {
        let from = BOOK * s.t;
        return call(&mut books[from..from + BOOK]);
    }
    books_refused(s, books)
}

pub fn open(s: Settings, books: &mut [i32]) -> Result<(), Refusal>
    ensures { outcome (of_result result) books.new ≡ books_open_asked s books.old }
{
    on_part(s, books, |part| book::open_part(s, part))
}

// Enters a word at a slot.
pub fn enter(s: Settings, books: &mut [i32], slot: usize, word: i32) -> Result<(), Refusal>
    ensures { outcome (of_result result) books.new ≡ books_enter_asked s books.old slot word }
{
    on_part(s, books, |part| entering::enter_part(s, part, slot, word))
}

// Makes every live vote of the sender's book again from the words.
pub fn refill(s: Settings, books: &mut [i32]) -> Result<(), Refusal>
    ensures { outcome (of_result result) books.new ≡ books_refill_asked s books.old }
{
    on_part(s, books, |part| refilling::refill_part(s, part))
}

// Enters a frame, where `current` is the exchange number.
pub fn enter_frame(
    s: Settings,
    books: &mut [i32],
    current: u16,
    bytes: &[u8],
) -> Result<(), Refusal>
    ensures { outcome (of_result result) books.new ≡ books_frame_asked s books.old current bytes.now }
{
    match arrivals::arrival(s, current, bytes) {
        Ok(Entry { slot, word }) => enter(s, books, slot, word),
        Err(reason) => refusal::first(books_refused(s, books), Err(reason)),
    }
}
