// Document 02, Q-1: the outcome, a table of ten rows of ten words, row by sender and column by card.

#![tactic(auto)]

ghost use Rattle.std.specs.Prelude.{◌≡◌, ◌<◌, OnOk};
ghost use Rattle.ground.specs.Answer.{outcome as outcome_spec, refusal_of, of_result};
ghost use Rattle.settings.specs.Settings.{most_cards};
ghost use Rattle.outcomes.specs.Rows.{start};
ghost use Rattle.outcomes.specs.Asked.{row_made, row_asked, start_asked, list_asked};

use ground::refusal::Refusal;
use settings::{Settings, Turn};
use words::E;

// The words of an outcome that is lent as a list, row after row.
const LIST: usize = Settings::MAX_CARDS * Settings::MAX_CARDS;

// All E.
pub fn start() -> [[i32; Settings::MAX_CARDS]; Settings::MAX_CARDS]
    ensures { result ≡ start }
{
    [[E; Settings::MAX_CARDS]; Settings::MAX_CARDS]
}

// The row of an exchange: each card's answer, E from n up.
fn row_for(
    turn: Turn,
    x: i32,
    statuses: &[u8],
    table: &[i32],
) -> Result<[i32; Settings::MAX_CARDS], Refusal>
    ensures row { of_result result ≡ row_made turn x statuses.now table.now }
    ensures sender { OnOk result (turn.t < most_cards) }
{
    let mut row = [E; Settings::MAX_CARDS];
    bench::all_answers(turn, x, statuses, table, &mut row)?;
    Ok(row)
}

// Sets the sender's row. A refusal gives the outcome back as it was.
pub fn set_row(
    turn: Turn,
    x: i32,
    statuses: &[u8],
    table: &[i32],
    mut outcome: [[i32; Settings::MAX_CARDS]; Settings::MAX_CARDS],
) -> (
    [[i32; Settings::MAX_CARDS]; Settings::MAX_CARDS],
    Result<(), Refusal>,
)
    ensures { outcome_spec (refusal_of result.1) result.0 ≡ row_asked turn x statuses.now table.now outcome }
{
    match row_for(turn, x, statuses, table) {
        Ok(row) => {
            outcome[turn.t] = row;
            (outcome, Ok(()))
        }
        Err(refusal) => (outcome, Err(refusal)),
    }
}

// All E, in a list.
pub fn start_list(list: &mut [i32]) -> Result<(), Refusal>
    ensures { outcome_spec (of_result result) list.new ≡ start_asked list.old }
{
    if list.len() != LIST {
        return Err(Refusal::Long);
    }
    list.fill(E);
    Ok(())
}

// Sets the sender's row in a list.
pub fn set_in_list(
    turn: Turn,
    x: i32,
    statuses: &[u8],
    table: &[i32],
    list: &mut [i32],
) -> Result<(), Refusal>
    ensures { outcome_spec (of_result result) list.new ≡ list_asked turn x statuses.now table.now list.old }
{
    settings::turn_refused(turn)?;
    // The list's length is judged with the inputs', before statuses and value.
    if list.len() != LIST {
        return Err(Refusal::Long);
    }
    let row = row_for(turn, x, statuses, table)?;
    let first = Settings::MAX_CARDS * turn.t;
    list[first..first + Settings::MAX_CARDS].copy_from_slice(&row);
    Ok(())
}
