// The numbers by which a refusal is told.
ghost use Rattle.std.specs.Prelude.{◌≡◌};
ghost use Rattle.entry.specs.Refusals.{number_of, second_of};

use super::{Refusal, RunRefusal};

pub fn number_of(refusal: Refusal) -> u32
    ensures { result ≡ number_of refusal }
{
    match refusal {
        Refusal::Parameters(_) => 1,
        Refusal::DeckSize | Refusal::TooManyCards => 2,
        Refusal::LearnSpan => 3,
        Refusal::Config => 4,
        Refusal::Lists => 6,
        Refusal::ExistingCard(_) => 5,
        Refusal::Run(RunRefusal::ChanceOutOfRange(_)) => 7,
        Refusal::Run(RunRefusal::TableFull(_)) => 8,
        Refusal::Run(RunRefusal::DueCount(_)) => 9,
        Refusal::NotFound(_) => 10,
    }
}

pub fn second_of(refusal: Refusal) -> u32
    ensures { result ≡ second_of refusal }
{
    match refusal {
        Refusal::Parameters(n)
        | Refusal::ExistingCard(n)
        | Refusal::Run(
            RunRefusal::ChanceOutOfRange(n) | RunRefusal::TableFull(n) | RunRefusal::DueCount(n),
        )
        | Refusal::NotFound(n) => n,
        Refusal::TooManyCards => 1,
        Refusal::DeckSize | Refusal::LearnSpan | Refusal::Config | Refusal::Lists => 0,
    }
}
