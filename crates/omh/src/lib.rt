// What C sees: every function that crate `omh_c` exports stands here and calls down. An answer is 0 or a refusal number.

#![tactic(auto)]

ghost use Rattle.std.specs.Prelude.{◌≡◌, ◌++◌, length, drop};
ghost use Rattle.ground.specs.Checks.{verdict};
ghost use Rattle.ground.specs.Answer.{outcome, of_result};
ghost use Rattle.words.specs.Word.{read_at, wrapped, unwrapped};
ghost use Rattle.words.specs.Rule.{omh, majority_by};
ghost use Rattle.settings.specs.Settings.{settings_checks};
ghost use Rattle.settings.specs.Asked.{settings};
ghost use Rattle.paths.specs.Asked.{slot_asked, above_asked, live_asked};
ghost use Rattle.vote.specs.Asked.{vote_asked};
ghost use Rattle.book.specs.Book.{book_of};
ghost use Rattle.book.specs.Asked.{open_asked, held_asked};
ghost use Rattle.entering.specs.Asked.{enter_asked};
ghost use Rattle.refilling.specs.Refilled.{refill_asked};
ghost use Rattle.ages.specs.Ages.{next_number, age_of, class_of, class_number};
ghost use Rattle.frames.specs.Asked.{read_asked, write_asked};
ghost use Rattle.arrivals.specs.Entry.{frame_asked};
ghost use Rattle.books.specs.Asked.{books_open_asked, books_enter_asked, books_refill_asked, books_frame_asked};
ghost use Rattle.bench.specs.Asked.{answer_for_asked, answers_asked};
ghost use Rattle.dealing.specs.Asked.{word_asked, fill_asked};
ghost use Rattle.bound.specs.Bound.{bound_asked};
ghost use Rattle.outcomes.specs.Asked.{start_asked, list_asked};
ghost use Rattle.trials.specs.Listing.{text_of};
ghost use Rattle.omh.specs.Numbers.{rack as rack_spec, turn as turn_spec, frame_with, number_of, numbered, placed, placed_as, bit, fields_of};

use ages::Age;
use frames::Frame;
use ground::refusal::Refusal;
use settings::{Rack, Settings, Turn};

// ---- numbers in and out

fn settings_of(n: usize, m: usize, t: usize, p: usize) -> Settings
    ensures { result ≡ settings n m t p }
{
    let rack = Rack { n, m };
    Settings { rack, t, p }
}

fn turn_of(n: usize, m: usize, t: usize) -> Turn
    ensures { result ≡ turn_spec n m t }
{
    let rack = Rack { n, m };
    Turn { rack, t }
}

// 0, or the refusal's number.
fn number_of(done: Result<(), Refusal>) -> u8
    ensures { result ≡ number_of (of_result done) }
{
    match done {
        Ok(()) => 0,
        Err(refusal) => refusal.number(),
    }
}

// The value goes to its place.
fn place<T: Copy>(told: Result<T, Refusal>, at: &mut T) -> u8
    ensures { outcome result at.new ≡ placed (of_result told) at.old }
{
    match told {
        Ok(value) => {
            *at = value;
            0
        }
        Err(refusal) => refusal.number(),
    }
}

// ---- words

pub fn omh_read_at(level: usize, word: i32) -> i32
    ensures { result ≡ read_at level word }
{
    words::read_at(level, word)
}

pub fn omh_wrap(word: i32) -> i32
    ensures { result ≡ wrapped word }
{
    words::wrap(word)
}

pub fn omh_unwrap(word: i32) -> i32
    ensures { result ≡ unwrapped word }
{
    words::unwrap(word)
}

pub fn omh_majority(list: &[i32]) -> i32
    ensures { result ≡ majority_by omh list.now }
{
    words::majority(list)
}

// ---- settings, paths and slots

// 0 for settings that are not refused.
pub fn omh_settings_refused(n: usize, m: usize, t: usize, p: usize) -> u8
    ensures { result ≡ verdict (settings_checks (settings n m t p)) }
{
    number_of(settings::settings_refused(settings_of(n, m, t, p)))
}

pub fn omh_slot_of(level: usize, q1: usize, q2: usize, q3: usize, slot: &mut usize) -> u8
    ensures { outcome result slot.new ≡ placed (slot_asked level q1 q2 q3) slot.old }
{
    place(paths::slot_of(level, q1, q2, q3), slot)
}

pub fn omh_slot_above(slot: usize, above: &mut usize) -> u8
    ensures { outcome result above.new ≡ placed (above_asked slot) above.old }
{
    place(paths::slot_above(slot), above)
}

// 1 in the place where the slot is live, else 0.
pub fn omh_is_live(n: usize, m: usize, t: usize, p: usize, slot: usize, live: &mut i32) -> u8
    ensures { outcome result live.new ≡ placed_as bit (live_asked (settings n m t p) slot) live.old }
{
    place(
        paths::is_live(settings_of(n, m, t, p), slot).map(i32::from),
        live,
    )
}

// ---- the vote

pub fn omh_vote_at(
    n: usize,
    m: usize,
    t: usize,
    p: usize,
    words: &[i32],
    slot: usize,
    vote: &mut i32,
) -> u8
    ensures { outcome result vote.new ≡ placed (vote_asked (settings n m t p) words.now slot) vote.old }
{
    place(vote::vote_at(settings_of(n, m, t, p), words, slot), vote)
}

// ---- the book

pub fn omh_open(n: usize, m: usize, t: usize, p: usize, words: &mut [i32], votes: &mut [i32]) -> u8
    ensures { outcome result (book_of words.new votes.new) ≡ numbered (open_asked (settings n m t p) (book_of words.old votes.old)) }
{
    number_of(book::open(settings_of(n, m, t, p), words, votes))
}

pub fn omh_enter(
    n: usize,
    m: usize,
    t: usize,
    p: usize,
    words: &mut [i32],
    votes: &mut [i32],
    slot: usize,
    word: i32,
) -> u8
    ensures { outcome result (book_of words.new votes.new) ≡ numbered (enter_asked (settings n m t p) (book_of words.old votes.old) slot word) }
{
    number_of(entering::enter(settings_of(n, m, t, p), words, votes, slot, word))
}

pub fn omh_refill(n: usize, m: usize, t: usize, p: usize, words: &[i32], votes: &mut [i32]) -> u8
    ensures { outcome result (book_of words.now votes.new) ≡ numbered (refill_asked (settings n m t p) (book_of words.now votes.old)) }
{
    number_of(refilling::refill(settings_of(n, m, t, p), words, votes))
}

pub fn omh_held_answer(words: &[i32], votes: &[i32], answer: &mut i32) -> u8
    ensures { outcome result answer.new ≡ placed (held_asked (book_of words.now votes.now)) answer.old }
{
    place(book::held_answer(words, votes), answer)
}

// ---- the long list

pub fn omh_books_open(n: usize, m: usize, t: usize, p: usize, books: &mut [i32]) -> u8
    ensures { outcome result books.new ≡ numbered (books_open_asked (settings n m t p) books.old) }
{
    number_of(books::open(settings_of(n, m, t, p), books))
}

pub fn omh_books_enter(
    n: usize,
    m: usize,
    t: usize,
    p: usize,
    books: &mut [i32],
    slot: usize,
    word: i32,
) -> u8
    ensures { outcome result books.new ≡ numbered (books_enter_asked (settings n m t p) books.old slot word) }
{
    number_of(books::enter(settings_of(n, m, t, p), books, slot, word))
}

pub fn omh_books_refill(n: usize, m: usize, t: usize, p: usize, books: &mut [i32]) -> u8
    ensures { outcome result books.new ≡ numbered (books_refill_asked (settings n m t p) books.old) }
{
    number_of(books::refill(settings_of(n, m, t, p), books))
}

// ---- frames

pub fn omh_next_exchange(x: u16) -> u16
    ensures { result ≡ next_number x }
{
    ages::next_exchange(x)
}

pub fn omh_age(current: u16, frame: u16) -> u16
    ensures { result ≡ age_of current frame }
{
    ages::age_of(current, frame)
}

// 0 for current, 12 for old, 13 for ahead.
pub fn omh_age_class(current: u16, frame: u16) -> u8
    ensures { result ≡ class_number (class_of (age_of current frame)) }
{
    match ages::age_class(current, frame) {
        Age::Current => 0,
        Age::Old => Refusal::Old.number(),
        Age::Ahead => Refusal::Ahead.number(),
    }
}

// How many fields a frame has.
const FIELDS: usize = 8;

// A frame's fields as words, in the order in which they lie in it.
fn fields_of(f: Frame) -> [i32; FIELDS]
    ensures { result ≡ fields_of f }
{
    [
        f.exchange as i32,
        f.sender as i32,
        f.level as i32,
        f.q1 as i32,
        f.q2 as i32,
        f.q3 as i32,
        f.receiver as i32,
        f.word,
    ]
}

pub fn omh_read_frame(bytes: &[u8], fields: &mut [i32; FIELDS]) -> u8
    ensures { outcome result fields.new ≡ placed_as fields_of (read_asked bytes.now) fields.old }
{
    place(frames::read(bytes).map(fields_of), fields)
}

pub fn omh_write_frame(
    exchange: u16,
    sender: u8,
    level: u8,
    q1: u8,
    q2: u8,
    q3: u8,
    receiver: u8,
    word: i32,
    buffer: &mut [u8],
) -> u8
    ensures { outcome result buffer.new ≡ numbered (write_asked (frame_with exchange sender level q1 q2 q3 receiver word) buffer.old) }
{
    let frame = Frame {
        exchange,
        sender,
        level,
        q1,
        q2,
        q3,
        receiver,
        word,
    };
    number_of(frames::write(frame, buffer))
}

pub fn omh_enter_frame(
    n: usize,
    m: usize,
    t: usize,
    p: usize,
    words: &mut [i32],
    votes: &mut [i32],
    current: u16,
    frame: &[u8],
) -> u8
    ensures { outcome result (book_of words.new votes.new) ≡ numbered (frame_asked (settings n m t p) (book_of words.old votes.old) current frame.now) }
{
    number_of(arrivals::enter(settings_of(n, m, t, p), words, votes, current, frame))
}

pub fn omh_books_enter_frame(
    n: usize,
    m: usize,
    t: usize,
    p: usize,
    books: &mut [i32],
    current: u16,
    frame: &[u8],
) -> u8
    ensures { outcome result books.new ≡ numbered (books_frame_asked (settings n m t p) books.old current frame.now) }
{
    number_of(books::enter_frame(settings_of(n, m, t, p), books, current, frame))
}

// ---- the bench

pub fn omh_word_for(
    n: usize,
    m: usize,
    t: usize,
    x: i32,
    statuses: &[u8],
    table: &[i32],
    p: usize,
    slot: usize,
    word: &mut i32,
) -> u8
    ensures { outcome result word.new ≡ placed (word_asked (settings n m t p) x statuses.now table.now slot) word.old }
{
    place(
        dealing::word_for(settings_of(n, m, t, p), x, statuses, table, slot),
        word,
    )
}

pub fn omh_answer_for(
    n: usize,
    m: usize,
    t: usize,
    x: i32,
    statuses: &[u8],
    table: &[i32],
    p: usize,
    answer: &mut i32,
) -> u8
    ensures { outcome result answer.new ≡ placed (answer_for_asked (settings n m t p) x statuses.now table.now) answer.old }
{
    place(
        bench::answer_for(settings_of(n, m, t, p), x, statuses, table),
        answer,
    )
}

pub fn omh_all_answers(
    n: usize,
    m: usize,
    t: usize,
    x: i32,
    statuses: &[u8],
    table: &[i32],
    answers: &mut [i32],
) -> u8
    ensures { outcome result answers.new ≡ numbered (answers_asked (turn_spec n m t) x statuses.now table.now answers.old) }
{
    number_of(bench::all_answers(turn_of(n, m, t), x, statuses, table, answers))
}

pub fn omh_fill(
    n: usize,
    m: usize,
    t: usize,
    x: i32,
    statuses: &[u8],
    table: &[i32],
    p: usize,
    words: &mut [i32],
    votes: &mut [i32],
) -> u8
    ensures { outcome result (book_of words.new votes.new) ≡ numbered (fill_asked (settings n m t p) x statuses.now table.now (book_of words.old votes.old)) }
{
    number_of(dealing::fill(settings_of(n, m, t, p), x, statuses, table, words, votes))
}

// 1 in the place where the bound holds, else 0.
pub fn omh_bound(n: usize, m: usize, statuses: &[u8], held: &mut i32) -> u8
    ensures { outcome result held.new ≡ placed_as bit (bound_asked (rack_spec n m) statuses.now) held.old }
{
    place(bound::bound(Rack { n, m }, statuses).map(i32::from), held)
}

// ---- the outcome of exchanges

pub fn omh_outcome_start(list: &mut [i32]) -> u8
    ensures { outcome result list.new ≡ numbered (start_asked list.old) }
{
    number_of(outcomes::start_list(list))
}

pub fn omh_outcome_set(
    n: usize,
    m: usize,
    t: usize,
    x: i32,
    statuses: &[u8],
    table: &[i32],
    list: &mut [i32],
) -> u8
    ensures { outcome result list.new ≡ numbered (list_asked (turn_spec n m t) x statuses.now table.now list.old) }
{
    number_of(outcomes::set_in_list(turn_of(n, m, t), x, statuses, table, list))
}

// ---- listing

// Stores the text of a listing file, and answers its length.
pub fn omh_list(file: &[u8], text: &mut [u8; trials::TEXT]) -> usize
    ensures { (result ≡ length (text_of file.now)) × (text.new ≡ text_of file.now ++ drop (length (text_of file.now)) text.old) }
{
    trials::list(file, text)
}
