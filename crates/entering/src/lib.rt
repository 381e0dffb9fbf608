// Document 01, 'The book': a word entered at a slot, and the votes made again from there up to slot 0; document 02, Q-2: what stands where two different words came.

#![tactic(auto)]

ghost use Rattle.std.specs.Prelude.{◌≡◌, ◌<◌, length};
ghost use Rattle.ground.specs.Answer.{outcome, of_result};
ghost use Rattle.words.specs.Rule.{omh};
ghost use Rattle.settings.specs.Settings.{slots};
ghost use Rattle.paths.specs.Slots.{way};
ghost use Rattle.vote.specs.Vote.{rule_of, decided};
ghost use Rattle.book.specs.Book.{book_of, halves};
ghost use Rattle.entering.specs.Entered.{holds, stored, remade_along};
ghost use Rattle.entering.specs.Asked.{enter_asked};
ghost use Rattle.entering.specs.Remaking.{held_votes, member_remade, Remakes, Enters};

use ground::refusal;
use ground::refusal::Refusal;
use settings::Settings;
use vote::reports::Reports;
use words::E;

// A word for a slot.
#[derive(Clone, Copy, Debug, PartialEq, Eq)]
pub struct Entry {
    pub slot: usize,
    pub word: i32,
}

// What stands where two different words came: a bad word, which reads as E.
pub const CONTRADICTED: i32 = 1_000_000_009;

// Decides the vote at slot k from its own reading and the held votes one relay longer, by each member and read at level d.
fn over_held(
    votes: &[i32],
    members: &[bool; Settings::MAX_CARDS],
    own: i32,
    d: usize,
    k: usize,
) -> i32
    requires { (length votes.now ≡ slots) × (length members.now ≡ 10) × (k < 111) }
    ensures { result ≡ decided omh own (held_votes omh votes.now members.now d k 10) }
{
    let mut reports = Reports::begin(own);
    for (q, &may) in members.iter().enumerate() {
        if may {
            let vote = words::read_at(d, votes[10 * k + 1 + q]);
            reports.add(vote);
        }
    }
    reports.decide()
}

// The vote at slot k of level d, made again from its own word and the other held votes; `members` are the cards that may lengthen its path, and with no rounds left it is the reading.
fn remake(
    word: i32,
    votes: &[i32],
    members: &[bool; Settings::MAX_CARDS],
    left: usize,
    d: usize,
    k: usize,
) -> i32
    requires { Remakes votes.now members.now left d k }
    ensures { result ≡ member_remade omh word votes.now members.now left d k }
{
    let own = words::read_at(d, word);
    if left == 0 {
        return own;
    }
    over_held(votes, members, own, d + 1, k)
}

// Re-makes the votes at a live slot and at each slot above it, slot 0 last; `members` are the cards that may lengthen its path. On each step up the last relay may relay again, and a round is left.
fn walk_up(
    s: Settings,
    words: &[i32],
    votes: &mut [i32],
    members: &mut [bool; Settings::MAX_CARDS],
    slot: usize,
)
    requires { Enters s (book_of words.now votes.old) members.old slot }
    ensures { votes.new ≡ remade_along (rule_of s.rack) s words.now (way slot) votes.old }
{
    let mut d = paths::level_of(slot);
    let left = paths::rounds_left(s, d);
    let held = words[slot];
    let first = remake(held, votes, members, left, d, slot);
    votes[slot] = first;
    let mut k = slot;
    // Stays: it goes up a path, slot by slot; there is no list to go over.
    while 0 < k {
        members[paths::last_relay(k)] = true;
        k = paths::above(k);
        d -= 1;
        let own = words::read_at(d, words[k]);
        let vote = over_held(votes, members, own, d + 1, k);
        votes[k] = vote;
    }
}

// What a slot holds after a word: holding E it takes any word, the same word leaves it, and a different one contradicts, though both may read as E.
fn held_after(old: i32, new: i32) -> i32
    ensures { result ≡ holds old new }
{
    if old == E {
        return new;
    }
    if old == new {
        return new;
    }
    CONTRADICTED
}

// Stores a word at a slot.
fn store(words: &mut [i32], slot: usize, word: i32)
    requires { slot < length words.old }
    ensures { words.new ≡ stored words.old slot word }
{
    words[slot] = held_after(words[slot], word);
}

// Enters a word at a slot.
pub fn enter(
    s: Settings,
    words: &mut [i32],
    votes: &mut [i32],
    slot: usize,
    word: i32,
) -> Result<(), Refusal>
    ensures { outcome (of_result result) (book_of words.new votes.new) ≡ enter_asked s (book_of words.old votes.old) slot word }
{
    book::book_refused(s, words, votes)?;
    let mut members = paths::may_relay(s);
    let live = paths::live_in(s, &mut members, slot);
    refusal::when(!live, Refusal::Path)?;
    store(words, slot, word);
    walk_up(s, words, votes, &mut members, slot);
    Ok(())
}

// The same in a book in one list.
pub fn enter_part(s: Settings, part: &mut [i32], slot: usize, word: i32) -> Result<(), Refusal>
    ensures { outcome (of_result result) (halves part.new) ≡ enter_asked s (halves part.old) slot word }
{
    let half = Settings::SLOTS.min(part.len());
    let (words, votes) = part.split_at_mut(half);
    enter(s, words, votes, slot, word)
}
