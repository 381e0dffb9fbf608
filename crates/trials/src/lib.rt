// Document 01, 'Listing program': the text that a listing file gives.

#![tactic(auto)]

ghost use Rattle.std.specs.Prelude.{◌≡◌, ◌++◌, ◌≤◌, length, drop};
ghost use Rattle.settings.specs.Settings.{most_cards, fits};
ghost use Rattle.files.specs.File.{turn_in};
ghost use Rattle.trials.specs.Listing.{lines, card_line, listed, text_of};
ghost use Rattle.trials.specs.Accepting.{Accepted};

mod page;

use files::Head;
use page::Page;
use settings::Settings;
use words::E;

// Room for the longest text: ten lines of 16 bytes, one of 15, and a place to spare.
pub const TEXT: usize = 176;

const HELD: [u8; 11] = *b"bound held\n";

const NOT_HELD: [u8; 15] = *b"bound not held\n";

// The lines of the cards of a file with this head, and then the last line.
fn cards(file: &[u8], h: Head, last: &[u8]) -> Page
    requires { Accepted file.now h × (length last.now ≤ 16) }
    ensures { result ≡ lines (fits (turn_in file.now).rack) (card_line file.now) most_cards ++ last.now }
{
    let turn = h.turn;
    let mut table = [E; exchange::TABLE];
    files::tell(file, &mut table);
    let mut answers = [E; Settings::MAX_CARDS];
    // The exchange of a file that is not refused is not refused either.
    let _ = bench::all_answers(turn, h.x, &file[8..18], &table, &mut answers);
    let mut page = Page::lines(turn.rack, &file[8..18], &answers);
    page.put(last);
    page
}

// The text of a file with this head. Two calls of `cards` keep it a function of its own in the archive, so that a refused file does not take the table's stack.
fn listed(file: &[u8], h: Head) -> Page
    requires { Accepted file.now h }
    ensures { result ≡ listed file.now }
{
    let turn = h.turn;
    match bound::bound(turn.rack, &file[8..18]) {
        Ok(true) => cards(file, h, &HELD),
        Ok(false) => cards(file, h, &NOT_HELD),
        Err(refusal) => Page::refused(refusal),
    }
}

fn text_of(file: &[u8]) -> Page
    ensures { result ≡ text_of file.now }
{
    match files::read(file) {
        Ok(h) => listed(file, h),
        Err(refusal) => Page::refused(refusal),
    }
}

// Stores the text of a file, and answers its length; the places after it are untouched.
pub fn list(file: &[u8], text: &mut [u8; TEXT]) -> usize
    ensures { (result ≡ length (text_of file.now)) × (text.new ≡ text_of file.now ++ drop (length (text_of file.now)) text.old) }
{
    text_of(file).lay(text)
}
