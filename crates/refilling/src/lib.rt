// Document 01, 'The book': every live vote made again from the words.

#![tactic(auto)]

ghost use Rattle.std.specs.Prelude.{◌≡◌, ◌<◌, length};
ghost use Rattle.ground.specs.Answer.{outcome, of_result};
ghost use Rattle.words.specs.Rule.{omh};
ghost use Rattle.vote.specs.Vote.{rule_of};
ghost use Rattle.book.specs.Book.{book_of, halves};
ghost use Rattle.refilling.specs.Refilled.{refilled, refill_asked};
ghost use Rattle.refilling.specs.RefillOrder.{Fills, Refills, Refilling, RefillingBelow};

use ground::refusal::Refusal;
use paths::Place;
use settings::Settings;
use vote::reports::Reports;

pub fn refill(s: Settings, words: &[i32], votes: &mut [i32]) -> Result<(), Refusal>
    ensures { outcome (of_result result) (book_of words.now votes.new) ≡ refill_asked s (book_of words.now votes.old) }
{
    book::book_refused(s, words, votes)?;
    refill_all(s, words, votes);
    Ok(())
}

// The same of a book in one list.
pub fn refill_part(s: Settings, part: &mut [i32]) -> Result<(), Refusal>
    ensures { outcome (of_result result) (halves part.new) ≡ refill_asked s (halves part.old) }
{
    let half = Settings::SLOTS.min(part.len());
    let (words, votes) = part.split_at_mut(half);
    refill(s, words, votes)
}

// Puts the vote of every live path from the words, whatever the votes were.
fn refill_all(s: Settings, words: &[i32], votes: &mut [i32])
    requires { Refills s (book_of words.now votes.old) }
    ensures { book_of words.now votes.new ≡ refilled (rule_of s.rack) s (book_of words.now votes.old) }
{
    let mut members = paths::may_relay(s);
    let at = Place {
        left: paths::rounds_left(s, 0),
        d: 0,
        k: 0,
    };
    refill_from(words, votes, &mut members, at);
}

// The vote at a place from the words; it is put in its place, after those of the longer paths. `members` are the cards that may still relay.
#[cycle(refill_from_refill_members)]
fn refill_from(
    words: &[i32],
    votes: &mut [i32],
    members: &mut [bool; Settings::MAX_CARDS],
    at: Place,
) -> i32
    requires { Fills (book_of words.now votes.old) at }
    ensures refilling { Refilling omh (book_of words.now votes.old) members.old at result (book_of words.now votes.new) }
    ensures members_unchanged { members.new ≡ members.old }
{
    let own = words::read_at(at.d, words[at.k]);
    let vote = if at.left == 0 {
        own
    } else if at.left == 1 {
        refill_last(words, votes, members, own, at)
    } else {
        refill_members(words, votes, members, own, at)
    };
    votes[at.k] = vote;
    vote
}

// Puts the votes of the longer paths, by each member in turn, in their places, and decides the vote from them and the own reading.
#[cycle(refill_from_refill_members)]
fn refill_members(
    words: &[i32],
    votes: &mut [i32],
    members: &mut [bool; Settings::MAX_CARDS],
    own: i32,
    at: Place,
) -> i32
    requires asked { Fills (book_of words.now votes.old) at }
    requires more { 0 < at.left }
    ensures refilling_below { RefillingBelow omh (book_of words.now votes.old) members.old at own result (book_of words.now votes.new) }
    ensures members_unchanged { members.new ≡ members.old }
{
    let mut reports = Reports::begin(own);
    // Stays a loop over numbers: the members change while a longer path is gone over.
    for q in 0..Settings::MAX_CARDS {
        if members[q] {
            members[q] = false;
            let next = Place {
                left: at.left - 1,
                d: at.d + 1,
                k: 10 * at.k + 1 + q,
            };
            let vote = refill_from(words, votes, members, next);
            members[q] = true;
            reports.add(vote);
        }
    }
    reports.decide()
}

// The same where no round is left for the longer paths: the vote of each is its reading.
// Stays: with a call for each of them refilling at (10, 3) takes a quarter more instructions and a quarter more time (docs/DESIGN-PASS.md).
fn refill_last(
    words: &[i32],
    votes: &mut [i32],
    members: &[bool; Settings::MAX_CARDS],
    own: i32,
    at: Place,
) -> i32
    requires asked { Fills (book_of words.now votes.old) at }
    requires last { at.left ≡ 1 }
    ensures { RefillingBelow omh (book_of words.now votes.old) members.now at own result (book_of words.now votes.new) }
{
    let mut reports = Reports::begin(own);
    for (q, &may) in members.iter().enumerate() {
        if may {
            let slot = 10 * at.k + 1 + q;
            let vote = words::read_at(at.d + 1, words[slot]);
            votes[slot] = vote;
            reports.add(vote);
        }
    }
    reports.decide()
}
