// Document 01, 'Words': the kinds of a word, reading, wrapping, unwrapping, and the hybrid majority.

#![tactic(auto)]

ghost use Rattle.std.specs.Prelude.{◌≡◌, cond, length};
ghost use Rattle.words.specs.Word.{kind_of, read_at, wrapped, unwrapped};
ghost use Rattle.words.specs.Majority.{kept};
ghost use Rattle.words.specs.Rule.{omh, majority_by};
ghost use Rattle.words.specs.Counted.{majority_of};

// Missing, unwrapped.
pub const E: i32 = 1_000_000_000;

// A missing word has its wraps.
#[derive(Clone, Copy, Debug, PartialEq, Eq)]
pub enum Kind {
    Ordinary,
    Missing(usize),
    Bad,
}

#[tactic(auto, unfolding(crate::specs::Word::kind_of))]
pub fn kind_of(word: i32) -> Kind
    ensures { result ≡ kind_of word }
{
    match word {
        -999_999_999..=999_999_999 => Kind::Ordinary,
        1_000_000_000..=1_000_000_003 => Kind::Missing((word - 1_000_000_000) as usize),
        _ => Kind::Bad,
    }
}

// The word as it reads at a level: ordinary, or missing with no more wraps than the level; one range for each level, so that no branch is taken for a word's kind.
#[tactic(auto, unfolding(crate::specs::Word::kind_of, crate::specs::Word::read_at))]
pub fn read_at(level: usize, word: i32) -> i32
    ensures { result ≡ read_at level word }
{
    match level {
        0 => match word {
            -999_999_999..=1_000_000_000 => word,
            _ => E,
        },
        1 => match word {
            -999_999_999..=1_000_000_001 => word,
            _ => E,
        },
        2 => match word {
            -999_999_999..=1_000_000_002 => word,
            _ => E,
        },
        _ => match word {
            -999_999_999..=1_000_000_003 => word,
            _ => E,
        },
    }
}

#[tactic(auto, unfolding(crate::specs::Word::kind_of, crate::specs::Word::wrapped))]
pub fn wrap(word: i32) -> i32
    ensures { result ≡ wrapped word }
{
    match kind_of(word) {
        Kind::Ordinary => word,
        Kind::Missing(wraps) => { if wraps < 3 { word + 1 } else { E } }
        Kind::Bad => E,
    }
}

#[tactic(auto, unfolding(crate::specs::Word::kind_of, crate::specs::Word::unwrapped))]
pub fn unwrap(word: i32) -> i32
    ensures { result ≡ unwrapped word }
{
    match kind_of(word) {
        Kind::Ordinary => word,
        Kind::Missing(wraps) => { if wraps == 0 { E } else { word - 1 } }
        Kind::Bad => E,
    }
}

// Whether the word is struck from a vote.
#[tactic(auto, unfolding(crate::specs::Majority::same))]
fn is_struck(word: i32) -> bool
    ensures { result ≡ omh.struck word }
{
    word == E
}

// How many a word adds to those that are not struck.
pub fn weight(word: i32) -> usize
    ensures { result ≡ cond (omh.struck word) 0 1 }
{
    if is_struck(word) { 0 } else { 1 }
}

// How many words of the list are not struck.
#[tactic(auto, using(crate::proofs::Search::counting))]
fn kept_len(list: &[i32]) -> usize
    ensures { result ≡ length (kept omh.struck list.now) }
{
    // Stays: counted by a filter, without vectors, the majority of 6 takes 30 instructions more and that of 9 takes 60; both miss bars that they meet.
    let mut left = list.len();
    for &word in list {
        if is_struck(word) {
            left -= 1;
        }
    }
    left
}

// The word that more than half of the words other than E are, else E.
#[tactic(auto, using(crate::proofs::Search::told_rightly))]
pub fn majority(list: &[i32]) -> i32
    ensures { result ≡ majority_by omh list.now }
{
    majority_of(list, kept_len(list))
}

// The same, told how many words are not struck. A word is counted from its place on; where no more than half of that number are left to search, none of them is found.
#[tactic(auto, using(crate::proofs::Search::searching))]
fn majority_of(list: &[i32], n: usize) -> i32
    ensures { result ≡ majority_of omh.struck omh.none n list.now }
{
    let half = n / 2;
    let mut rest = list;
    // Stays: two loops, the outer left by its label with the word (document 01, 'Forms to follow in each place').
    'outer: loop {
        if rest.len() <= half {
            break 'outer E;
        }
        let word = rest[0];
        rest = &rest[1..];
        if !is_struck(word) {
            let mut seen = 1;
            let mut others = rest;
            // The count is tested for every word: a branch on whether the next one is the same cannot be foretold.
            loop {
                if half < seen {
                    break 'outer word;
                }
                if others.is_empty() {
                    break;
                }
                seen += usize::from(others[0] == word);
                others = &others[1..];
            }
        }
    }
}

// The vote that reports decide, from which those that are struck are left out: their majority, unwrapped.
pub fn decide(reports: &[i32]) -> i32
    ensures { result ≡ omh.unwrap (majority_of omh.struck omh.none (length reports.now) reports.now) }
{
    unwrap(majority_of(reports, reports.len()))
}
