// Document 01, 'The exchange on the bench': whether the bound holds.

#![tactic(auto)]

ghost use Rattle.std.specs.Prelude.{◌≡◌, ◌≤◌};
ghost use Rattle.ground.specs.Checks.{verdict};
ghost use Rattle.ground.specs.Answer.{refusal_of, of_result};
ghost use Rattle.settings.specs.Settings.{most_cards};
ghost use Rattle.exchange.specs.Exchange.{statuses_of};
ghost use Rattle.bound.specs.Bound.{is, those, bound_checks, bound_asked};

use exchange::Status;
use ground::refusal::Refusal;
use ground::{bytes, refusal};
use settings::{Rack, Settings};

// Whether a call for the bound is refused.
fn bound_refused(rack: Rack, statuses: &[u8]) -> Result<(), Refusal>
    ensures { refusal_of result ≡ verdict (bound_checks rack statuses.now) }
{
    settings::rack_refused(rack)?;
    refusal::when(statuses.len() != Settings::MAX_CARDS, Refusal::Long)?;
    refusal::when(exchange::statuses_bad(rack, statuses), Refusal::Status)
}

// How many cards of the rack have this status.
fn count_of(rack: Rack, statuses: &[u8], status: Status) -> usize
    ensures value { result ≡ those rack (statuses_of statuses.now) (is status) }
    ensures few { result ≤ most_cards }
{
    (0..Settings::MAX_CARDS)
        .filter(|q| settings::fits(rack, *q)
            & (Status::from(bytes::byte_at(statuses, *q)) == status))
        .count()
}

// Whether the bound holds: n > 2a + 2s + c + m, and a is at most m.
pub fn bound(rack: Rack, statuses: &[u8]) -> Result<bool, Refusal>
    ensures { of_result result ≡ bound_asked rack statuses.now }
{
    bound_refused(rack, statuses)?;
    let a = count_of(rack, statuses, Status::Arbitrary);
    let s = count_of(rack, statuses, Status::Symmetric);
    let c = count_of(rack, statuses, Status::Manifest);
    let m = rack.m;
    Ok((2 * a + 2 * s + c + m < settings::cards(rack)) & (a <= m))
}
