// Document 01, 'Frames': exchange numbers, and a frame's age.

#![tactic(auto)]

ghost use Rattle.std.specs.Prelude.{◌≡◌};
ghost use Rattle.ages.specs.Ages.{next_number, age_of, class_of};

#[derive(Debug, Clone, Copy, PartialEq, Eq)]
pub enum Age {
    Current,
    Old,
    Ahead,
}

#[tactic(auto, unfolding(crate::specs::Ages::next_number))]
pub fn next_exchange(x: u16) -> u16
    ensures { result ≡ next_number x }
{
    x.wrapping_add(1)
}

#[tactic(auto, unfolding(crate::specs::Ages::age_of))]
pub fn age_of(current: u16, frame: u16) -> u16
    ensures { result ≡ age_of current frame }
{
    current.wrapping_sub(frame)
}

#[tactic(auto, unfolding(crate::specs::Ages::class_of))]
pub fn age_class(current: u16, frame: u16) -> Age
    ensures { result ≡ class_of (age_of current frame) }
{
    match age_of(current, frame) {
        0 => Age::Current,
        1..=32_767 => Age::Old,
        _ => Age::Ahead,
    }
}
