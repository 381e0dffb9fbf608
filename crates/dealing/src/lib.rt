// Document 01, 'The exchange on the bench': one word, and a book filled.

#![tactic(auto)]

ghost use Rattle.std.specs.Prelude.{◌≡◌, ◌≤◌, ◌<◌, length};
ghost use Rattle.ground.specs.Answer.{outcome, of_result};
ghost use Rattle.words.specs.Rule.{omh};
ghost use Rattle.settings.specs.Settings.{slots, turn_of};
ghost use Rattle.settings.specs.declared.Rack.{Rack};
ghost use Rattle.vote.specs.Vote.{rule_of};
ghost use Rattle.book.specs.Book.{book_of};
ghost use Rattle.exchange.specs.Exchange.{exchange, dealt};
ghost use Rattle.exchange.specs.Asked.{table_words};
ghost use Rattle.exchange.specs.Sending.{sent_to, Deals, DealsFrom};
ghost use Rattle.dealing.specs.Dealt.{dealt_over};
ghost use Rattle.dealing.specs.DealOrder.{DealtFrom, DealtBelow};
ghost use Rattle.dealing.specs.Asked.{word_asked, fill_asked};

use exchange::Sent;
use ground::refusal;
use ground::refusal::Refusal;
use paths::Place;
use settings::Settings;

// What card p receives at slot k of what is sent there.
// Stays in both `bench` and `dealing`: a public one may ask nothing and would test the places, and one card's answer took 6 % more instructions.
// Statuses and table stay two lists: C lends them so, and of one struct every clause would have to name the lists as they were handed (`.entry`). Nor have settings an invariant: every entry point takes any.
fn sent_to(sent: Sent, table: &[i32], k: usize, p: usize) -> i32
    requires { (length table.now ≡ table_words) × (k < slots) × (p < 10) }
    ensures { result ≡ sent_to sent.status sent.word table.now k p }
{
    sent.received(table[10 * k + p], table[10 * k])
}

// The word that card p receives at slot k.
fn dealt_at(t: usize, x: i32, statuses: &[u8], table: &[i32], k: usize, p: usize) -> i32
    requires { Deals t statuses.now table.now × (k < slots) × (p < 10) }
    ensures { (rack : Rack) → result ≡ dealt omh (exchange (record { rack = rack; t = t }) x statuses.now table.now) k p }
{
    if k == 0 {
        let status = statuses[t];
        return sent_to(Sent { status, word: x }, table, k, p);
    }
    let q = paths::last_relay(k);
    let above = paths::above(k);
    let received = dealt_at(t, x, statuses, table, above, q);
    let word = exchange::relayed(paths::level_of(above), received);
    let status = statuses[q];
    sent_to(Sent { status, word }, table, k, p)
}

// The word that the own card receives on the path at a slot.
pub fn word_for(
    s: Settings,
    x: i32,
    statuses: &[u8],
    table: &[i32],
    slot: usize,
) -> Result<i32, Refusal>
    ensures { of_result result ≡ word_asked s x statuses.now table.now slot }
{
    let mut members = paths::may_relay(s);
    let live = paths::live_in(s, &mut members, slot);
    exchange::card_refused(s, x, statuses, exchange::inputs_long(statuses, table))?;
    refusal::when(!live, Refusal::Path)?;
    Ok(dealt_at(s.t, x, statuses, table, slot, s.p))
}

// Deals card p its word of what is sent at a place, after its words at the longer paths; `members` are the cards that may still relay.
#[inline(always)]
#[cycle(deal_from_deal_members)]
fn deal_from(
    statuses: &[u8],
    table: &[i32],
    p: usize,
    words: &mut [i32],
    members: &mut [bool; Settings::MAX_CARDS],
    at: Place,
    sent: Sent,
)
    requires asked { DealsFrom statuses.now table.now p members.old at }
    requires whole { length words.old ≡ slots }
    ensures { DealtFrom omh statuses.now table.now p members.old at sent words.old words.new members.new }
{
    if 0 < at.left {
        deal_members(statuses, table, p, words, members, at, sent);
    }
    words[at.k] = sent_to(sent, table, at.k, p);
}

// Deals card p its words at the longer paths, by each member in turn.
#[cycle(deal_from_deal_members)]
fn deal_members(
    statuses: &[u8],
    table: &[i32],
    p: usize,
    words: &mut [i32],
    members: &mut [bool; Settings::MAX_CARDS],
    at: Place,
    sent: Sent,
)
    requires asked { DealsFrom statuses.now table.now p members.old at }
    requires whole { length words.old ≡ slots }
    requires more { 0 < at.left }
    ensures { DealtBelow omh statuses.now table.now p members.old at sent words.old 10 words.new members.new }
{
    let told = exchange::relayed(at.d, sent_to(sent, table, at.k, 0));
    // Stays a loop over numbers: the members change while a longer path is gone over.
    for q in 0..Settings::MAX_CARDS {
        if members[q] {
            members[q] = false;
            let status = statuses[q];
            let received = sent_to(sent, table, at.k, q);
            let word = exchange::sent_on(sent.status, status, at.d, received, told);
            let longer = Place {
                left: at.left - 1,
                d: at.d + 1,
                k: 10 * at.k + 1 + q,
            };
            deal_from(
                statuses,
                table,
                p,
                words,
                members,
                longer,
                Sent { status, word },
            );
            members[q] = true;
        }
    }
}

// Deals the words of the own card at its live slots.
fn deal(s: Settings, x: i32, statuses: &[u8], table: &[i32], words: &mut [i32])
    requires { Deals s.t statuses.now table.now × (s.rack.m ≤ 3) × (s.p < 10) × (length words.old ≡ slots) }
    ensures { words.new ≡ dealt_over (rule_of s.rack) (exchange (turn_of s) x statuses.now table.now) s.p words.old }
{
    let mut members = paths::may_relay(s);
    let at = Place {
        left: paths::rounds_left(s, 0),
        d: 0,
        k: 0,
    };
    let sent = Sent {
        status: statuses[s.t],
        word: x,
    };
    deal_from(statuses, table, s.p, words, &mut members, at, sent);
}

// Fills a book for the own card.
pub fn fill(
    s: Settings,
    x: i32,
    statuses: &[u8],
    table: &[i32],
    words: &mut [i32],
    votes: &mut [i32],
) -> Result<(), Refusal>
    ensures { outcome (of_result result) (book_of words.new votes.new) ≡ fill_asked s x statuses.now table.now (book_of words.old votes.old) }
{
    let long = exchange::inputs_long(statuses, table) & book::is_whole(words, votes);
    exchange::card_refused(s, x, statuses, long)?;
    deal(s, x, statuses, table, words);
    refilling::refill(s, words, votes)
}
