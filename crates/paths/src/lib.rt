// Document 01, 'Settings and paths': the slots of paths, and which are live.

#![tactic(auto)]

ghost use Rattle.std.specs.Prelude.{◌≡◌, false, ◌<◌, length, set};
ghost use Rattle.ground.specs.Answer.{outcome, of_result};
ghost use Rattle.ground.specs.Lists.{table};
ghost use Rattle.settings.specs.Settings.{most_cards, slots};
ghost use Rattle.paths.specs.Slots.{above as above_spec, last_relay, level, relays, may_relay, rounds_left};
ghost use Rattle.paths.specs.Asked.{slot_asked, above_asked, live_asked, live_in};
ghost use Rattle.paths.specs.Walk.{take_out};

use ground::refusal::Refusal;
use settings::Settings;

// The path that has been come to: its slot k, its level d, and the rounds left.
#[derive(Clone, Copy, Debug, PartialEq, Eq)]
pub struct Place {
    pub left: usize,
    pub d: usize,
    pub k: usize,
}

// The slot of a path by its level and relays; the relays that the level does not use are not looked at.
pub fn slot_of(level: usize, q1: usize, q2: usize, q3: usize) -> Result<usize, Refusal>
    ensures { of_result result ≡ slot_asked level q1 q2 q3 }
{
    if Settings::MAX_ROUNDS < level {
        return Err(Refusal::Path);
    }
    if level == 0 {
        return Ok(0);
    }
    if Settings::MAX_CARDS <= q1 {
        return Err(Refusal::Path);
    }
    if level == 1 {
        return Ok(1 + q1);
    }
    if Settings::MAX_CARDS <= q2 {
        return Err(Refusal::Path);
    }
    if level == 2 {
        return Ok(11 + 10 * q1 + q2);
    }
    if Settings::MAX_CARDS <= q3 {
        return Err(Refusal::Path);
    }
    Ok(111 + 100 * q1 + 10 * q2 + q3)
}

pub fn slot_above(slot: usize) -> Result<usize, Refusal>
    ensures { of_result result ≡ above_asked slot }
{
    if (slot == 0) | (Settings::SLOTS <= slot) {
        return Err(Refusal::Path);
    }
    Ok(above(slot))
}

// The slot above a slot over 0; 0 for 0.
pub fn above(slot: usize) -> usize
    ensures { result ≡ above_spec slot }
{
    if slot == 0 { 0 } else { (slot - 1) / 10 }
}

// The last relay of the path at a slot over 0; 0 for 0.
pub fn last_relay(slot: usize) -> usize
    ensures { result ≡ last_relay slot }
{
    if slot == 0 { 0 } else { (slot - 1) % 10 }
}

// The level of the path at a slot; 4 for a number that is no slot.
pub fn level_of(slot: usize) -> usize
    ensures { result ≡ level slot }
{
    match slot {
        0 => 0,
        1..=10 => 1,
        11..=110 => 2,
        111..=1110 => 3,
        _ => 4,
    }
}

// The rounds left at level d; none where p is t, or past the last round.
pub fn rounds_left(s: Settings, d: usize) -> usize
    ensures { result ≡ rounds_left s d }
{
    if s.p == s.t {
        return 0;
    }
    if s.rack.m < d { 0 } else { s.rack.m - d }
}

// Takes card q out of the ten; a number over 9 is none of them.
fn bar(found: &mut [bool; Settings::MAX_CARDS], q: usize)
    requires { length found.old ≡ 10 }
    ensures { found.new ≡ set found.old q false }
{
    if q < Settings::MAX_CARDS {
        found[q] = false;
    }
}

// Which of the ten cards may relay.
pub fn may_relay(s: Settings) -> [bool; Settings::MAX_CARDS]
    ensures { result ≡ table most_cards 0 (may_relay s) }
{
    let mut found = settings::fitted(s.rack);
    bar(&mut found, s.t);
    bar(&mut found, s.p);
    found
}

// Takes the relays of the path at a slot out of the members, the last relay first, up to one that is not there; answers whether they all were.
fn take_out(members: &mut [bool; Settings::MAX_CARDS], slot: usize) -> bool
    requires { slot < slots }
    ensures { outcome result members.new ≡ take_out members.old (relays slot) }
{
    let mut k = slot;
    // Stays: it goes up a path, slot by slot; there is no list to go over.
    while 0 < k {
        let q = last_relay(k);
        if members.len() <= q {
            return false;
        }
        if !members[q] {
            return false;
        }
        members[q] = false;
        k = above(k);
    }
    true
}

// Whether the path at a slot is live for the own card, given the cards that may relay; where it is, those that may lengthen it are left.
pub fn live_in(s: Settings, members: &mut [bool; Settings::MAX_CARDS], slot: usize) -> bool
    ensures { outcome result members.new ≡ live_in s members.old slot }
{
    if slot == 0 {
        return true;
    }
    if s.p == s.t {
        return false;
    }
    if Settings::SLOTS <= slot {
        return false;
    }
    if s.rack.m < level_of(slot) {
        return false;
    }
    take_out(members, slot)
}

pub fn is_live(s: Settings, slot: usize) -> Result<bool, Refusal>
    ensures { of_result result ≡ live_asked s slot }
{
    settings::settings_refused(s)?;
    let mut members = may_relay(s);
    Ok(live_in(s, &mut members, slot))
}
