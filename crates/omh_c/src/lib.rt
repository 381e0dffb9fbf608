// The exports for C, one for each function of crate `omh`, under its name: it calls that function, and its clauses are that function's again. A slice is a pointer and a length, an array a pointer; an answer is 0 or a refusal number.

#![tactic(auto)]

ghost use Rattle.std.specs.Prelude.{◌≡◌, ◌++◌, length, drop};
ghost use Rattle.ground.specs.Checks.{verdict};
ghost use Rattle.ground.specs.Answer.{outcome};
ghost use Rattle.words.specs.Word.{read_at, wrapped, unwrapped};
ghost use Rattle.words.specs.Rule.{omh, majority_by};
ghost use Rattle.settings.specs.Settings.{settings_checks};
ghost use Rattle.settings.specs.Asked.{settings};
ghost use Rattle.paths.specs.Asked.{slot_asked, above_asked, live_asked};
ghost use Rattle.vote.specs.Asked.{vote_asked};
ghost use Rattle.book.specs.Book.{book_of};
ghost use Rattle.book.specs.Asked.{open_asked, held_asked};
ghost use Rattle.entering.specs.Asked.{enter_asked};
ghost use Rattle.refilling.specs.Refilled.{refill_asked};
ghost use Rattle.ages.specs.Ages.{next_number, age_of, class_of, class_number};
ghost use Rattle.frames.specs.Asked.{read_asked, write_asked};
ghost use Rattle.arrivals.specs.Entry.{frame_asked};
ghost use Rattle.books.specs.Asked.{books_open_asked, books_enter_asked, books_refill_asked, books_frame_asked};
ghost use Rattle.bench.specs.Asked.{answer_for_asked, answers_asked};
ghost use Rattle.dealing.specs.Asked.{word_asked, fill_asked};
ghost use Rattle.bound.specs.Bound.{bound_asked};
ghost use Rattle.outcomes.specs.Asked.{start_asked, list_asked};
ghost use Rattle.trials.specs.Listing.{text_of};
ghost use Rattle.omh.specs.Numbers.{rack as rack_spec, turn as turn_spec, frame_with, numbered, placed, placed_as, bit, fields_of};

// ---- words

#[unsafe(no_mangle)]
pub extern "C" fn omh_read_at(level: usize, word: i32) -> i32
    ensures { result ≡ read_at level word }
{
    omh::omh_read_at(level, word)
}

#[unsafe(no_mangle)]
pub extern "C" fn omh_wrap(word: i32) -> i32
    ensures { result ≡ wrapped word }
{
    omh::omh_wrap(word)
}

#[unsafe(no_mangle)]
pub extern "C" fn omh_unwrap(word: i32) -> i32
    ensures { result ≡ unwrapped word }
{
    omh::omh_unwrap(word)
}

#[unsafe(no_mangle)]
pub extern "C" fn omh_majority(list: &[i32]) -> i32
    ensures { result ≡ majority_by omh list.now }
{
    omh::omh_majority(list)
}

// ---- settings, paths and slots

// 0 for settings that are not refused.
#[unsafe(no_mangle)]
pub extern "C" fn omh_settings_refused(n: usize, m: usize, t: usize, p: usize) -> u8
    ensures { result ≡ verdict (settings_checks (settings n m t p)) }
{
    omh::omh_settings_refused(n, m, t, p)
}

#[unsafe(no_mangle)]
pub extern "C" fn omh_slot_of(level: usize, q1: usize, q2: usize, q3: usize, slot: &mut usize) -> u8
    ensures { outcome result slot.new ≡ placed (slot_asked level q1 q2 q3) slot.old }
{
    omh::omh_slot_of(level, q1, q2, q3, slot)
}

#[unsafe(no_mangle)]
pub extern "C" fn omh_slot_above(slot: usize, above: &mut usize) -> u8
    ensures { outcome result above.new ≡ placed (above_asked slot) above.old }
{
    omh::omh_slot_above(slot, above)
}

// 1 in the place where the slot is live, else 0.
#[unsafe(no_mangle)]
pub extern "C" fn omh_is_live(
    n: usize,
    m: usize,
    t: usize,
    p: usize,
    slot: usize,
    live: &mut i32,
) -> u8
    ensures { outcome result live.new ≡ placed_as bit (live_asked (settings n m t p) slot) live.old }
{
    omh::omh_is_live(n, m, t, p, slot, live)
}

// ---- the vote

#[unsafe(no_mangle)]
pub extern "C" fn omh_vote_at(
    n: usize,
    m: usize,
    t: usize,
    p: usize,
    words: &[i32],
    slot: usize,
    vote: &mut i32,
) -> u8
    ensures { outcome result vote.new ≡ placed (vote_asked (settings n m t p) words.now slot) vote.old }
{
    omh::omh_vote_at(n, m, t, p, words, slot, vote)
}

// ---- the book

#[unsafe(no_mangle)]
pub extern "C" fn omh_open(
    n: usize,
    m: usize,
    t: usize,
    p: usize,
    words: &mut [i32],
    votes: &mut [i32],
) -> u8
    ensures { outcome result (book_of words.new votes.new) ≡ numbered (open_asked (settings n m t p) (book_of words.old votes.old)) }
{
    omh::omh_open(n, m, t, p, words, votes)
}

#[unsafe(no_mangle)]
pub extern "C" fn omh_enter(
    n: usize,
    m: usize,
    t: usize,
    p: usize,
    words: &mut [i32],
    votes: &mut [i32],
    slot: usize,
    word: i32,
) -> u8
    ensures { outcome result (book_of words.new votes.new) ≡ numbered (enter_asked (settings n m t p) (book_of words.old votes.old) slot word) }
{
    omh::omh_enter(n, m, t, p, words, votes, slot, word)
}

#[unsafe(no_mangle)]
pub extern "C" fn omh_refill(
    n: usize,
    m: usize,
    t: usize,
    p: usize,
    words: &[i32],
    votes: &mut [i32],
) -> u8
    ensures { outcome result (book_of words.now votes.new) ≡ numbered (refill_asked (settings n m t p) (book_of words.now votes.old)) }
{
    omh::omh_refill(n, m, t, p, words, votes)
}

#[unsafe(no_mangle)]
pub extern "C" fn omh_held_answer(words: &[i32], votes: &[i32], answer: &mut i32) -> u8
    ensures { outcome result answer.new ≡ placed (held_asked (book_of words.now votes.now)) answer.old }
{
    omh::omh_held_answer(words, votes, answer)
}

// ---- the long list

#[unsafe(no_mangle)]
pub extern "C" fn omh_books_open(n: usize, m: usize, t: usize, p: usize, books: &mut [i32]) -> u8
    ensures { outcome result books.new ≡ numbered (books_open_asked (settings n m t p) books.old) }
{
    omh::omh_books_open(n, m, t, p, books)
}

#[unsafe(no_mangle)]
pub extern "C" fn omh_books_enter(
    n: usize,
    m: usize,
    t: usize,
    p: usize,
    books: &mut [i32],
    slot: usize,
    word: i32,
) -> u8
    ensures { outcome result books.new ≡ numbered (books_enter_asked (settings n m t p) books.old slot word) }
{
    omh::omh_books_enter(n, m, t, p, books, slot, word)
}

#[unsafe(no_mangle)]
pub extern "C" fn omh_books_refill(n: usize, m: usize, t: usize, p: usize, books: &mut [i32]) -> u8
    ensures { outcome result books.new ≡ numbered (books_refill_asked (settings n m t p) books.old) }
{
    omh::omh_books_refill(n, m, t, p, books)
}

// ---- frames

#[unsafe(no_mangle)]
pub extern "C" fn omh_next_exchange(x: u16) -> u16
    ensures { result ≡ next_number x }
{
    omh::omh_next_exchange(x)
}

#[unsafe(no_mangle)]
pub extern "C" fn omh_age(current: u16, frame: u16) -> u16
    ensures { result ≡ age_of current frame }
{
    omh::omh_age(current, frame)
}

// 0 for current, 12 for old, 13 for ahead.
#[unsafe(no_mangle)]
pub extern "C" fn omh_age_class(current: u16, frame: u16) -> u8
    ensures { result ≡ class_number (class_of (age_of current frame)) }
{
    omh::omh_age_class(current, frame)
}

// How many fields a frame has.
const FIELDS: usize = 8;

#[unsafe(no_mangle)]
pub extern "C" fn omh_read_frame(bytes: &[u8], fields: &mut [i32; FIELDS]) -> u8
    ensures { outcome result fields.new ≡ placed_as fields_of (read_asked bytes.now) fields.old }
{
    omh::omh_read_frame(bytes, fields)
}

#[unsafe(no_mangle)]
pub extern "C" fn omh_write_frame(
    exchange: u16,
    sender: u8,
    level: u8,
    q1: u8,
    q2: u8,
    q3: u8,
    receiver: u8,
    word: i32,
    buffer: &mut [u8],
) -> u8
    ensures { outcome result buffer.new ≡ numbered (write_asked (frame_with exchange sender level q1 q2 q3 receiver word) buffer.old) }
{
    omh::omh_write_frame(exchange, sender, level, q1, q2, q3, receiver, word, buffer)
}

#[unsafe(no_mangle)]
pub extern "C" fn omh_enter_frame(
    n: usize,
    m: usize,
    t: usize,
    p: usize,
    words: &mut [i32],
    votes: &mut [i32],
    current: u16,
    frame: &[u8],
) -> u8
    ensures { outcome result (book_of words.new votes.new) ≡ numbered (frame_asked (settings n m t p) (book_of words.old votes.old) current frame.now) }
{
    omh::omh_enter_frame(n, m, t, p, words, votes, current, frame)
}

#[unsafe(no_mangle)]
pub extern "C" fn omh_books_enter_frame(
    n: usize,
    m: usize,
    t: usize,
    p: usize,
    books: &mut [i32],
    current: u16,
    frame: &[u8],
) -> u8
    ensures { outcome result books.new ≡ numbered (books_frame_asked (settings n m t p) books.old current frame.now) }
{
    omh::omh_books_enter_frame(n, m, t, p, books, current, frame)
}

// ---- the bench

#[unsafe(no_mangle)]
pub extern "C" fn omh_word_for(
    n: usize,
    m: usize,
    t: usize,
    x: i32,
    statuses: &[u8],
    table: &[i32],
    p: usize,
    slot: usize,
    word: &mut i32,
) -> u8
    ensures { outcome result word.new ≡ placed (word_asked (settings n m t p) x statuses.now table.now slot) word.old }
{
    omh::omh_word_for(n, m, t, x, statuses, table, p, slot, word)
}

#[unsafe(no_mangle)]
pub extern "C" fn omh_answer_for(
    n: usize,
    m: usize,
    t: usize,
    x: i32,
    statuses: &[u8],
    table: &[i32],
    p: usize,
    answer: &mut i32,
) -> u8
    ensures { outcome result answer.new ≡ placed (answer_for_asked (settings n m t p) x statuses.now table.now) answer.old }
{
    omh::omh_answer_for(n, m, t, x, statuses, table, p, answer)
}

#[unsafe(no_mangle)]
pub extern "C" fn omh_all_answers(
    n: usize,
    m: usize,
    t: usize,
    x: i32,
    statuses: &[u8],
    table: &[i32],
    answers: &mut [i32],
) -> u8
    ensures { outcome result answers.new ≡ numbered (answers_asked (turn_spec n m t) x statuses.now table.now answers.old) }
{
    omh::omh_all_answers(n, m, t, x, statuses, table, answers)
}

#[unsafe(no_mangle)]
pub extern "C" fn omh_fill(
    n: usize,
    m: usize,
    t: usize,
    x: i32,
    statuses: &[u8],
    table: &[i32],
    p: usize,
    words: &mut [i32],
    votes: &mut [i32],
) -> u8
    ensures { outcome result (book_of words.new votes.new) ≡ numbered (fill_asked (settings n m t p) x statuses.now table.now (book_of words.old votes.old)) }
{
    omh::omh_fill(n, m, t, x, statuses, table, p, words, votes)
}

// 1 in the place where the bound holds, else 0.
#[unsafe(no_mangle)]
pub extern "C" fn omh_bound(n: usize, m: usize, statuses: &[u8], held: &mut i32) -> u8
    ensures { outcome result held.new ≡ placed_as bit (bound_asked (rack_spec n m) statuses.now) held.old }
{
    omh::omh_bound(n, m, statuses, held)
}

// ---- the outcome of exchanges

#[unsafe(no_mangle)]
pub extern "C" fn omh_outcome_start(list: &mut [i32]) -> u8
    ensures { outcome result list.new ≡ numbered (start_asked list.old) }
{
    omh::omh_outcome_start(list)
}

#[unsafe(no_mangle)]
pub extern "C" fn omh_outcome_set(
    n: usize,
    m: usize,
    t: usize,
    x: i32,
    statuses: &[u8],
    table: &[i32],
    list: &mut [i32],
) -> u8
    ensures { outcome result list.new ≡ numbered (list_asked (turn_spec n m t) x statuses.now table.now list.old) }
{
    omh::omh_outcome_set(n, m, t, x, statuses, table, list)
}

// ---- listing

// Stores the text of a listing file, and answers its length.
#[unsafe(no_mangle)]
pub extern "C" fn omh_list(file: &[u8], text: &mut [u8; trials::TEXT]) -> usize
    ensures { (result ≡ length (text_of file.now)) × (text.new ≡ text_of file.now ++ drop (length (text_of file.now)) text.old) }
{
    omh::omh_list(file, text)
}
