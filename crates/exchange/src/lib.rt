// Document 01, 'The exchange on the bench': what it is given, when that is refused, and what a card of each status sends.

#![tactic(auto)]

ghost use Rattle.std.specs.Prelude.{◌≡◌, cond, ◌&&◌, eqb};
ghost use Rattle.ground.specs.Checks.{verdict};
ghost use Rattle.ground.specs.Answer.{refusal_of};
ghost use Rattle.words.specs.Word.{kind_of, read_at, wrapped};
ghost use Rattle.exchange.specs.Exchange.{status_of, sent};
ghost use Rattle.exchange.specs.Asked.{inputs_long, status_bad, statuses_bad, is_ordinary, status_checks, value_checks, card_checks};

use ground::refusal::Refusal;
use ground::{bytes, refusal};
use settings::{Rack, Settings};
use words::{E, Kind};

// The table has a word for each slot and receiver.
pub const TABLE: usize = Settings::SLOTS * Settings::MAX_CARDS;

// The greatest status byte. Stays a number: it bounds a byte of the list that C lends (`status_bad`).
const LAST_STATUS: u8 = 3;

// What a card is on the bench.
#[derive(Clone, Copy, Debug, PartialEq, Eq)]
pub enum Status {
    Good,
    Arbitrary,
    Symmetric,
    Manifest,
}

impl From<u8> for Status {
    ghost from_gives = { λ byte status. status ≡ status_of byte };

    #[tactic(auto, unfolding(crate::specs::Exchange::status_of))]
    fn from(byte: u8) -> Status {
        match byte {
            0 => Status::Good,
            1 => Status::Arbitrary,
            2 => Status::Symmetric,
            _ => Status::Manifest,
        }
    }
}

// Whether a status byte is over 3, or not 0 where no card fits.
#[tactic(auto, unfolding(crate::specs::Asked::status_bad))]
fn status_bad(rack: Rack, statuses: &[u8], q: usize) -> bool
    ensures { result ≡ status_bad rack statuses.now q }
{
    let status = bytes::byte_at(statuses, q);
    (LAST_STATUS < status) | (!settings::fits(rack, q) & (status != 0))
}

// Whether one of the ten status bytes is bad.
pub fn statuses_bad(rack: Rack, statuses: &[u8]) -> bool
    ensures { result ≡ statuses_bad rack statuses.now }
{
    (0..Settings::MAX_CARDS).any(|q| status_bad(rack, statuses, q))
}

fn is_ordinary(word: i32) -> bool
    ensures { result ≡ is_ordinary (kind_of word) }
{
    matches!(words::kind_of(word), Kind::Ordinary)
}

// Whether the statuses and the sender's value are refused.
pub fn statuses_refused(rack: Rack, x: i32, statuses: &[u8]) -> Result<(), Refusal>
    ensures { refusal_of result ≡ verdict (status_checks rack x statuses.now) }
{
    refusal::first(
        refusal::when(statuses_bad(rack, statuses), Refusal::Status),
        refusal::when(!is_ordinary(x), Refusal::Value),
    )
}

// The same after the lengths of what is lent.
pub fn values_refused(rack: Rack, x: i32, statuses: &[u8], long: bool) -> Result<(), Refusal>
    ensures { refusal_of result ≡ verdict (value_checks rack x statuses.now long) }
{
    refusal::first(
        refusal::when(!long, Refusal::Long),
        statuses_refused(rack, x, statuses),
    )
}

// Whether the status bytes and the table have their right length.
pub fn inputs_long(statuses: &[u8], table: &[i32]) -> bool
    ensures { result ≡ inputs_long statuses.now table.now }
{
    (statuses.len() == Settings::MAX_CARDS) & (table.len() == TABLE)
}

// Whether settings and what an exchange is given are refused.
pub fn card_refused(s: Settings, x: i32, statuses: &[u8], long: bool) -> Result<(), Refusal>
    ensures { refusal_of result ≡ verdict (card_checks s x statuses.now long) }
{
    refusal::first(
        settings::settings_refused(s),
        values_refused(s.rack, x, statuses, long),
    )
}

// What a card receives from one of this status, which sends `word` if it is good; the table has two words for it, the receiver's own and receiver 0's.
// The status stays a byte here and below: any byte has an answer (clause `sent (status_of status)`).
#[tactic(auto, unfolding(crate::specs::Exchange::sent))]
pub fn sent_by(status: u8, word: i32, own: i32, first: i32) -> i32
    ensures { result ≡ sent (status_of status) word own first }
{
    match Status::from(status) {
        Status::Good => word,
        Status::Arbitrary => own,
        Status::Symmetric => first,
        Status::Manifest => E,
    }
}

// What a card of this status sends, `word` if it is good.
#[derive(Clone, Copy, Debug, PartialEq, Eq)]
pub struct Sent {
    pub status: u8,
    pub word: i32,
}

impl Sent {
    // What a card receives of it, given the table's two words for it.
    pub fn received(self, own: i32, first: i32) -> i32
        ensures { result ≡ sent (status_of self.status) self.word own first }
    {
        sent_by(self.status, self.word, own, first)
    }
}

// What a good card sends on of a word that it received at this level.
pub fn relayed(level: usize, word: i32) -> i32
    ensures { result ≡ wrapped (read_at level word) }
{
    words::wrap(words::read_at(level, word))
}

// What a relay of status `by` sends on, if it is good, of what it received at this level from a card of this status. All but an arbitrary card send one word to all: of that one `told` is sent on.
#[tactic(auto, using(crate::proofs::Statuses::arbitrary_is, crate::proofs::Statuses::good_is))]
pub fn sent_on(status: u8, by: u8, level: usize, received: i32, told: i32) -> i32
    ensures { result ≡ cond (eqb status 1 && eqb by 0) (wrapped (read_at level received)) told }
{
    if (Status::from(status) == Status::Arbitrary) & (Status::from(by) == Status::Good) {
        relayed(level, received)
    } else {
        told
    }
}
