// Document 01's refusals, and the first of several checks that applies.
ghost use Rattle.std.specs.Prelude.{◌≡◌, ℕ, cond, [], ◌∷◌};
ghost use Rattle.ground.specs.Refusal.{number as number_spec};
ghost use Rattle.ground.specs.Checks.{check, verdict, next};
ghost use Rattle.ground.specs.Answer.{refusal_by, earlier};

// In the order of document 01's table.
#[derive(Clone, Copy, Debug, PartialEq, Eq)]
pub enum Refusal {
    Cards = 1,
    Rounds,
    Sender,
    Own,
    Long,
    Value,
    Status,
    Path,
    Size,
    Mark,
    Version,
    Old,
    Ahead,
    Form,
    Foreign,
    Exception,
}

impl Refusal {
    // The table's number.
    pub fn number(self) -> u8
        ensures { result ≡ number_spec self }
    {
        self as u8
    }
}

// What a call is refused with: a refusal of the table, or any number.
pub trait Numbered: Copy {
    ghost numbered: { Self → ℕ };

    fn number(self) -> u8
        ensures { result ≡ numbered self };

    // The first refusal, or the second where that is none; number 0 is none.
    fn first(one: Result<(), Self>, other: Result<(), Self>) -> Result<(), Self>
        ensures { result ≡ earlier numbered one other };
}

impl Numbered for Refusal {
    ghost numbered = { number_spec };

    fn number(self) -> u8 {
        Refusal::number(self)
    }

    // No refusal's number is 0: both are worked out, without a branch.
    fn first(one: Result<(), Refusal>, other: Result<(), Refusal>) -> Result<(), Refusal>
        ensures { result ≡ earlier number_spec one other }
    {
        one.and(other)
    }
}

impl Numbered for u8 {
    ghost numbered = { λ n. n };

    fn number(self) -> u8 {
        self
    }

    fn first(one: Result<(), u8>, other: Result<(), u8>) -> Result<(), u8>
        ensures { result ≡ earlier (λ n. n) one other }
    {
        match one {
            Err(0) | Ok(()) => other,
            Err(number) => Err(number),
        }
    }
}

// Refused so where the check applies.
#[tactic(auto, unfolding(crate::specs::Checks::verdict))]
pub fn when<R: Numbered>(applies: bool, refusal: R) -> Result<(), R>
    ensures asked { refusal_by R.numbered result ≡ verdict (check (R.numbered refusal) applies ∷ []) }
    ensures given { result ≡ cond applies (Err refusal) (Ok tt) }
{
    if applies { Err(refusal) } else { Ok(()) }
}

// The first refusal, or the second where that is none.
#[tactic(auto, using(crate::proofs::Answers::earlier_number))]
pub fn first<R: Numbered>(one: Result<(), R>, other: Result<(), R>) -> Result<(), R>
    ensures asked { refusal_by R.numbered result ≡ next (refusal_by R.numbered one) (refusal_by R.numbered other) }
    ensures given { result ≡ earlier R.numbered one other }
{
    R::first(one, other)
}
