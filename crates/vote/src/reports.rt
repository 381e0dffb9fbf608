// The reports from which a vote is decided: the own one, and one from each card that lengthens the path.

ghost use Rattle.std.specs.Prelude.{◌≡◌, ◌≤◌, List, [], ◌∷◌, ◌++◌, ℤ, length, take};
ghost use Rattle.words.specs.Word.{wrapped};
ghost use Rattle.words.specs.Majority.{kept};
ghost use Rattle.words.specs.Rule.{omh};
ghost use Rattle.words.specs.Counted.{majority_of};
ghost use Rattle.vote.specs.Reports.{most_reports};

use crate::REPORTS;
use std::marker::Model;

// The number comes first: so the compiler sees that a report which is written leaves it.
#[derive(Drop)]
pub struct Reports {
    count: usize,
    list: [i32; REPORTS],
}

impl Model for Reports {
    ghost Value = { List ℤ };

    ghost view = { λ r. take r.count r.list };

    ghost invariant = { λ r. r.count ≤ most_reports };
}

impl Reports {
    // Begins with the own report: the own reading, wrapped.
    #[inline]
    pub fn begin(own: i32) -> Self
        ensures { result ≡ kept omh.struck (wrapped own ∷ []) }
    {
        let wrapped = words::wrap(own);
        Reports {
            count: words::weight(wrapped),
            list: [wrapped; REPORTS],
        }
    }

    // Adds a report, where there is room. A struck one is left out: the next takes its place.
    #[inline]
    pub fn add(&mut self, vote: i32)
        ensures { self.new ≡ take most_reports (self.old ++ kept omh.struck (vote ∷ [])) }
    {
        if self.count < REPORTS {
            self.list[self.count] = vote;
            self.count += words::weight(vote);
        }
    }

    // The vote that they decide: their majority, unwrapped.
    #[inline]
    pub fn decide(&self) -> i32
        ensures { result ≡ omh.unwrap (majority_of omh.struck omh.none (length self.now) self.now) }
    {
        words::decide(&self.list[..self.count])
    }
}
