// SPECIFICATION 2.7: the refusals of all operations, and their numbers.
#![tactic(auto)]

ghost use Rattle.std.specs.Prelude.{◌≡◌, ◌<◌};
ghost use Rattle.refusal.specs.Refusal.{number_of, number};

// Why an operation has no answer. Which of them an operation gives, and which goes before which, its contract says.
#[derive(Clone, Copy, Debug, PartialEq, Eq)]
pub enum Refusal {
    OutOfRange,
    WrongLength,
    NoModule,
    FarInformation,
    NoBlock,
    OutOfReach,
    Broken,
    Empty,
    PayloadFull,
    ScriptFull,
    NoScript,
    Lacking,
    TooManyBits,
    NoVersionHolds,
    TooManyErased,
    NoHead,
    HeadWaits,
}

impl Refusal {
    pub fn number(self) -> usize
        ensures { (result ≡ number_of self) × (0 < result) × (result < 256) }
    {
        match self {
            Refusal::OutOfRange => 1,
            Refusal::WrongLength => 2,
            Refusal::NoModule => 3,
            Refusal::FarInformation => 4,
            Refusal::NoBlock => 5,
            Refusal::OutOfReach => 6,
            Refusal::Broken => 7,
            Refusal::Empty => 8,
            Refusal::PayloadFull => 9,
            Refusal::ScriptFull => 10,
            Refusal::NoScript => 11,
            Refusal::Lacking => 12,
            Refusal::TooManyBits => 13,
            Refusal::NoVersionHolds => 14,
            Refusal::TooManyErased => 15,
            Refusal::NoHead => 16,
            Refusal::HeadWaits => 17,
        }
    }
}

// The number of a refusal, or 0 where there is an answer.
pub fn number<T: Drop>(answer: Result<T, Refusal>) -> usize
    ensures { result ≡ number answer }
{
    match answer {
        Ok(_) => 0,
        Err(e) => e.number(),
    }
}
