// Document 01, 'The exchange on the bench': one card's answer, and all answers.

#![tactic(auto)]

ghost use Rattle.std.specs.Prelude.{◌≡◌, ◌≤◌, ◌<◌, length};
ghost use Rattle.ground.specs.Answer.{outcome, of_result};
ghost use Rattle.words.specs.Rule.{omh};
ghost use Rattle.settings.specs.Settings.{slots, turn_of};
ghost use Rattle.vote.specs.Vote.{rule_of};
ghost use Rattle.exchange.specs.Exchange.{exchange, answer_of};
ghost use Rattle.exchange.specs.Asked.{table_words};
ghost use Rattle.exchange.specs.Sending.{sent_to, Deals, DealsFrom};
ghost use Rattle.bench.specs.Dealing.{VotedFrom};
ghost use Rattle.bench.specs.Asked.{answers_of, answer_for_asked, answers_asked};

use exchange::Sent;
use ground::refusal::Refusal;
use paths::Place;
use settings::{Settings, Turn};
use vote::reports::Reports;

// What card p receives at slot k of what is sent there.
// Stays in both `bench` and `dealing`: a public one may ask nothing and would test the places, and one card's answer took 6 % more instructions.
// Statuses and table stay two lists: C lends them so, and of one struct every clause would have to name the lists as they were handed (`.entry`). Nor have settings an invariant: every entry point takes any.
fn sent_to(sent: Sent, table: &[i32], k: usize, p: usize) -> i32
    requires { (length table.now ≡ table_words) × (k < slots) × (p < 10) }
    ensures { result ≡ sent_to sent.status sent.word table.now k p }
{
    sent.received(table[10 * k + p], table[10 * k])
}

// The vote of card p at a place over what is sent there; `members` are the cards that may still relay. Inline, so that a vote without longer paths costs the loop no call.
#[inline(always)]
#[cycle(over_dealt_vote_dealt)]
fn vote_dealt(
    statuses: &[u8],
    table: &[i32],
    p: usize,
    members: &mut [bool; Settings::MAX_CARDS],
    at: Place,
    sent: Sent,
) -> i32
    requires { DealsFrom statuses.now table.now p members.old at }
    ensures { VotedFrom omh statuses.now table.now p members.old at sent result members.new }
{
    let own = words::read_at(at.d, sent_to(sent, table, at.k, p));
    if at.left == 0 {
        return own;
    }
    // A copy made here: handed on as it came, a place would be stored for a vote without longer paths too.
    over_dealt(statuses, table, p, members, own, Place { ..at }, sent)
}

// Decides the vote from the own reading and the votes of the longer paths, by each member in turn.
#[cycle(over_dealt_vote_dealt)]
fn over_dealt(
    statuses: &[u8],
    table: &[i32],
    p: usize,
    members: &mut [bool; Settings::MAX_CARDS],
    own: i32,
    at: Place,
    sent: Sent,
) -> i32
    requires asked { DealsFrom statuses.now table.now p members.old at }
    requires more { 0 < at.left }
    requires own_value { own ≡ omh.read at.d (sent_to sent.status sent.word table.now at.k p) }
    ensures { VotedFrom omh statuses.now table.now p members.old at sent result members.new }
{
    let wrapped = words::wrap(own);
    let mut reports = Reports::begin(own);
    // Stays a loop over numbers: the members change while a longer path is gone over.
    for q in 0..Settings::MAX_CARDS {
        if members[q] {
            members[q] = false;
            let status = statuses[q];
            let received = sent_to(sent, table, at.k, q);
            // The own report is what a good relay sends on, unless the card that it heard is arbitrary.
            let word = exchange::sent_on(sent.status, status, at.d, received, wrapped);
            let longer = Place {
                left: at.left - 1,
                d: at.d + 1,
                k: 10 * at.k + 1 + q,
            };
            let vote = vote_dealt(statuses, table, p, members, longer, Sent { status, word });
            members[q] = true;
            reports.add(vote);
        }
    }
    reports.decide()
}

// The answer of the own card, of settings that are not refused.
fn dealt_answer(s: Settings, x: i32, statuses: &[u8], table: &[i32]) -> i32
    requires { Deals s.t statuses.now table.now × (s.rack.m ≤ 3) × (s.p < 10) }
    ensures { result ≡ answer_of (rule_of s.rack) (exchange (turn_of s) x statuses.now table.now) s.p }
{
    let mut members = paths::may_relay(s);
    let at = Place {
        left: paths::rounds_left(s, 0),
        d: 0,
        k: 0,
    };
    let sent = Sent {
        status: statuses[s.t],
        word: x,
    };
    vote_dealt(statuses, table, s.p, &mut members, at, sent)
}

// The answer of the own card.
pub fn answer_for(s: Settings, x: i32, statuses: &[u8], table: &[i32]) -> Result<i32, Refusal>
    ensures { of_result result ≡ answer_for_asked s x statuses.now table.now }
{
    exchange::card_refused(s, x, statuses, exchange::inputs_long(statuses, table))?;
    Ok(dealt_answer(s, x, statuses, table))
}

// Puts the answer of each card of the rack in its place.
fn answer_all(turn: Turn, x: i32, statuses: &[u8], table: &[i32], answers: &mut [i32])
    requires { Deals turn.t statuses.now table.now × (turn.rack.m ≤ 3) × (length answers.old ≡ 10) }
    ensures { answers.new ≡ answers_of (rule_of turn.rack) (exchange turn x statuses.now table.now) answers.old }
{
    let rack = turn.rack;
    for (p, answer) in answers.iter_mut().enumerate() {
        if settings::fits(rack, p) {
            *answer = dealt_answer(Settings { rack, t: turn.t, p }, x, statuses, table);
        }
    }
}

// The answers of all cards of the rack, each in its place of a list of ten.
pub fn all_answers(
    turn: Turn,
    x: i32,
    statuses: &[u8],
    table: &[i32],
    answers: &mut [i32],
) -> Result<(), Refusal>
    ensures { outcome (of_result result) answers.new ≡ answers_asked turn x statuses.now table.now answers.old }
{
    let long = exchange::inputs_long(statuses, table) & (answers.len() == Settings::MAX_CARDS);
    settings::turn_refused(turn)?;
    exchange::values_refused(turn.rack, x, statuses, long)?;
    answer_all(turn, x, statuses, table, answers);
    Ok(())
}
