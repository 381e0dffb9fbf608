// Document 01, 'The vote': worked out afresh from the words.

#![tactic(auto)]

ghost use Rattle.std.specs.Prelude.{◌≡◌, ◌-◌, ◌<◌};
ghost use Rattle.ground.specs.Checks.{verdict};
ghost use Rattle.ground.specs.Answer.{refusal_of, of_result};
ghost use Rattle.words.specs.Rule.{omh};
ghost use Rattle.vote.specs.Vote.{rule_of, decided, vote};
ghost use Rattle.vote.specs.Members.{member_vote, members_votes, Asked, Whole};
ghost use Rattle.vote.specs.Asked.{words_checks, vote_asked, answer_asked};

use ground::refusal;
use ground::refusal::Refusal;
use paths::Place;
use reports::Reports;
use settings::Settings;

pub mod reports;

// An own report, and one from each of the ten cards.
pub const REPORTS: usize = Settings::MAX_CARDS + 1;

// The vote at a place; `members` are the cards that may still relay. Inline, so that a vote without longer paths costs the loop no call.
#[inline(always)]
#[cycle(instance_over_members)]
fn instance(words: &[i32], members: &mut [bool; Settings::MAX_CARDS], at: Place) -> i32
    requires { Asked words.now at }
    ensures voted { result ≡ member_vote omh words.now members.old at.left at.d at.k }
    ensures members_unchanged { members.new ≡ members.old }
{
    let own = words::read_at(at.d, words[at.k]);
    if at.left == 0 {
        return own;
    }
    over_members(words, members, own, at)
}

// Decides the vote from the own reading and the votes of the longer paths, by each member in turn.
#[cycle(instance_over_members)]
fn over_members(
    words: &[i32],
    members: &mut [bool; Settings::MAX_CARDS],
    own: i32,
    at: Place,
) -> i32
    requires asked { Asked words.now at }
    requires more { 0 < at.left }
    ensures voted { result ≡ decided omh own (members_votes omh words.now members.old (at.left - 1) at.d at.k 10) }
    ensures members_unchanged { members.new ≡ members.old }
{
    let mut reports = Reports::begin(own);
    // Stays a loop over numbers: the members change while a longer path is gone over.
    for q in 0..Settings::MAX_CARDS {
        if members[q] {
            members[q] = false;
            let next = Place {
                left: at.left - 1,
                d: at.d + 1,
                k: 10 * at.k + 1 + q,
            };
            let vote = instance(words, members, next);
            members[q] = true;
            reports.add(vote);
        }
    }
    reports.decide()
}

// The vote at a live slot, of settings that are not refused; `members` are the cards that may lengthen its path.
fn vote_of(
    s: Settings,
    words: &[i32],
    members: &mut [bool; Settings::MAX_CARDS],
    slot: usize,
) -> i32
    requires { Whole s words.now members.old slot }
    ensures { result ≡ vote (rule_of s.rack) s words.now slot }
{
    let d = paths::level_of(slot);
    let at = Place {
        left: paths::rounds_left(s, d),
        d,
        k: slot,
    };
    instance(words, members, at)
}

// Whether a call over words is refused.
fn words_refused(s: Settings, words: &[i32]) -> Result<(), Refusal>
    ensures { refusal_of result ≡ verdict (words_checks s words.now) }
{
    refusal::first(
        settings::settings_refused(s),
        refusal::when(words.len() != Settings::SLOTS, Refusal::Long),
    )
}

// The vote at a slot.
pub fn vote_at(s: Settings, words: &[i32], slot: usize) -> Result<i32, Refusal>
    ensures { of_result result ≡ vote_asked s words.now slot }
{
    let mut members = paths::may_relay(s);
    let live = paths::live_in(s, &mut members, slot);
    words_refused(s, words)?;
    refusal::when(!live, Refusal::Path)?;
    Ok(vote_of(s, words, &mut members, slot))
}

// The answer: the vote at slot 0.
pub fn answer(s: Settings, words: &[i32]) -> Result<i32, Refusal>
    ensures { of_result result ≡ answer_asked s words.now }
{
    words_refused(s, words)?;
    let mut members = paths::may_relay(s);
    Ok(vote_of(s, words, &mut members, 0))
}
