// The text of a listing file as it grows, piece after piece.

#![tactic(auto, using(crate::proofs::Lines::steps), unfolding(crate::specs::Listing::line_of, crate::specs::Listing::lines, crate::specs::Listing::refused_line))]

ghost use Rattle.std.specs.Prelude.{◌≡◌, [], ◌++◌, ℕ, ◌+◌, ◌≤◌, ◌<◌, List, take, drop, length, get_or};
ghost use Rattle.ground.specs.Refusal.{number};
ghost use Rattle.text.specs.Decimal.{decimal_of};
ghost use Rattle.settings.specs.Settings.{most_cards, fits};
ghost use Rattle.trials.specs.Listing.{answer_text, line_of, line_at, lines, refused_line};
ghost use Rattle.trials.specs.declared.TheConstants.{TEXT};

use crate::TEXT;
use ground::refusal::Refusal;
use settings::{Rack, Settings};
use std::marker::Model;
use words::E;

const REFUSED: [u8; 8] = *b"refused ";

const ENDING: [u8; 1] = *b"\n";

const MISSING: [u8; 1] = *b"-";

// The text so far: the first `len` bytes.
#[derive(Drop)]
pub(crate) struct Page {
    bytes: [u8; TEXT],
    len: usize,
}

impl Model for Page {
    ghost Value = { List ℕ };

    ghost view = { λ p. take p.len p.bytes };

    ghost invariant = { λ p. p.len ≤ TEXT };
}

impl Page {
    pub(crate) fn new() -> Page
        ensures { result ≡ [] }
    {
        Page {
            bytes: [0; TEXT],
            len: 0,
        }
    }

    pub(crate) fn put(&mut self, piece: &[u8])
        requires { length self.old + length piece.now ≤ TEXT }
        ensures { self.new ≡ self.old ++ piece.now }
    {
        let end = self.len + piece.len();
        self.bytes[self.len..end].copy_from_slice(piece);
        self.len = end;
    }

    // The decimal text of a word.
    fn put_word(&mut self, word: i32)
        requires { length self.old + 11 ≤ TEXT }
        ensures { self.new ≡ self.old ++ decimal_of word }
    {
        let mut digits = [0; 12];
        let many = text::decimal(word, &mut digits);
        self.put(&digits[..many]);
    }

    fn put_answer(&mut self, word: i32)
        requires { length self.old + 11 ≤ TEXT }
        ensures { self.new ≡ self.old ++ answer_text word }
    {
        if word == E {
            self.put(&MISSING);
        } else {
            self.put_word(word);
        }
    }

    // The status stays a byte: it is printed.
    fn put_line(&mut self, p: u8, status: u8, word: i32)
        requires { (p < 10) × (status < 10) × (length self.old + 16 ≤ TEXT) }
        ensures { self.new ≡ self.old ++ line_of p status word }
    {
        self.put(&[b'0' + p, b' ', b'0' + status, b' ']);
        self.put_answer(word);
        self.put(&ENDING);
    }

    // A line for each card of the rack.
    pub(crate) fn lines(rack: Rack, statuses: &[u8], answers: &[i32]) -> Page
        requires { (length statuses.now ≡ 10) × ((q : ℕ) → q < 10 → get_or statuses.now q 0 ≤ 3) × (length answers.now ≡ 10) }
        ensures { result ≡ lines (fits rack) (line_at statuses.now answers.now) most_cards }
    {
        let mut page = Page::new();
        // Stays: over the two lists zipped the proof did not close; what is left of the iterator says nothing of the lines put.
        for p in 0..Settings::MAX_CARDS {
            if settings::fits(rack, p) {
                page.put_line(p as u8, statuses[p], answers[p]);
            }
        }
        page
    }

    pub(crate) fn refused(refusal: Refusal) -> Page
        ensures { result ≡ refused_line (number refusal) }
    {
        let mut page = Page::new();
        page.put(&REFUSED);
        page.put_word(refusal.number() as i32);
        page.put(&ENDING);
        page
    }

    // Lays the text over the front of a list, and answers its length.
    pub(crate) fn lay(&self, list: &mut [u8; TEXT]) -> usize
        ensures { (result ≡ length self.now) × (list.new ≡ self.now ++ drop (length self.now) list.old) }
    {
        let len = self.len;
        list[..len].copy_from_slice(&self.bytes[..len]);
        len
    }
}
