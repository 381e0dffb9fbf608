// Document 01, 'Settings and paths': settings, and when they are refused.

#![tactic(auto)]

ghost use Rattle.std.specs.Prelude.{◌≡◌};
ghost use Rattle.ground.specs.Checks.{verdict};
ghost use Rattle.ground.specs.Answer.{refusal_of, of_result};
ghost use Rattle.ground.specs.Lists.{table};
ghost use Rattle.settings.specs.Settings.{most_cards, fits, cards, rack_checks, turn_checks, settings_checks};
ghost use Rattle.settings.specs.Asked.{settings_asked};

use ground::refusal;
use ground::refusal::Refusal;

// n cards, numbered from 0, and m rounds of relay.
#[derive(Clone, Copy, Debug, PartialEq, Eq)]
pub struct Rack {
    pub n: usize,
    pub m: usize,
}

// A rack, and the sender t.
#[derive(Clone, Copy, Debug, PartialEq, Eq)]
pub struct Turn {
    pub rack: Rack,
    pub t: usize,
}

// A rack, the sender t and the own card p.
#[derive(Clone, Copy, Debug, PartialEq, Eq)]
pub struct Settings {
    pub rack: Rack,
    pub t: usize,
    pub p: usize,
}

// Ten cards that fit, then ten that do not.
const TEN: [bool; 20] = [
    true, true, true, true, true, true, true, true, true, true, false, false, false, false, false,
    false, false, false, false, false,
];

impl Settings {
    pub const MAX_CARDS: usize = 10;

    pub const MAX_ROUNDS: usize = 3;

    pub const SLOTS: usize = 1111;

    pub fn new(n: usize, m: usize, t: usize, p: usize) -> Result<Settings, Refusal>
        ensures { of_result result ≡ settings_asked n m t p }
    {
        let rack = Rack { n, m };
        let s = Settings { rack, t, p };
        settings_refused(s)?;
        Ok(s)
    }
}

// How many cards a rack has.
pub fn cards(rack: Rack) -> usize
    ensures { result ≡ cards rack }
{
    rack.n
}

// Whether a card is one of the rack's.
pub fn fits(rack: Rack, q: usize) -> bool
    ensures { result ≡ fits rack q }
{
    q < rack.n
}

// Which of the ten cards fit: the ten places from 10 - n on of ten that fit and ten that do not.
pub fn fitted(rack: Rack) -> [bool; Settings::MAX_CARDS]
    ensures { result ≡ table most_cards 0 (fits rack) }
{
    let from = Settings::MAX_CARDS - cards(rack).min(Settings::MAX_CARDS);
    std::array::from_fn(move |q| TEN[from + q])
}

// Whether a rack is refused: `Err` where it is.
pub fn rack_refused(rack: Rack) -> Result<(), Refusal>
    ensures { refusal_of result ≡ verdict (rack_checks rack) }
{
    let n = cards(rack);
    if (n == 0) | (Settings::MAX_CARDS < n) {
        return Err(Refusal::Cards);
    }
    if (Settings::MAX_ROUNDS < rack.m) | (n <= rack.m) {
        return Err(Refusal::Rounds);
    }
    Ok(())
}

// The same with the sender.
pub fn turn_refused(turn: Turn) -> Result<(), Refusal>
    ensures { refusal_of result ≡ verdict (turn_checks turn) }
{
    rack_refused(turn.rack)?;
    refusal::when(!fits(turn.rack, turn.t), Refusal::Sender)
}

// The same with the own card: whether settings are refused.
pub fn settings_refused(s: Settings) -> Result<(), Refusal>
    ensures { refusal_of result ≡ verdict (settings_checks s) }
{
    let rack = s.rack;
    turn_refused(Turn { rack, t: s.t })?;
    refusal::when(!fits(rack, s.p), Refusal::Own)
}
