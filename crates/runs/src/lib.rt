// What a run is made of, as types: how far it came, where it stands between two turns, and the card that has the turn.
// Its definitions (specs/) and the laws of these (proofs/) are here too; crates `turn` and `simulation` have its code.
#![tactic(auto)]

ghost use Rattle.std.specs.Prelude.{◌≡◌, Err};
ghost use Rattle.runs.specs.Simulate.{progress, refused};

use cards::Card;
use entry::Refusal;

// How far a run came: the turns taken, refused ones left out, the run's cards, how many of them are still queued, and
// the state of the draws.
#[derive(Clone, Copy)]
pub struct Progress {
    pub turns: u32,
    pub cards: u32,
    pub queued: u32,
    pub draws: u64,
}

// Why a run was refused, and how far it had come.
#[derive(Clone, Copy)]
pub struct Refused {
    pub refusal: Refusal,
    pub progress: Progress,
}

impl Refused {
    // A call that an entry test turns away has come no further than its seed.
    pub fn at_entry(refusal: Refusal, seed: u64) -> Refused
        ensures { Err result ≡ refused refusal (progress 0 0 0 seed) }
    {
        let progress = Progress {
            turns: 0,
            cards: 0,
            queued: 0,
            draws: seed,
        };
        Refused { refusal, progress }
    }
}

// Where a run stands between two turns: the queue's length and the state of the draws.
#[derive(Clone, Copy)]
pub struct Place {
    pub queued: u32,
    pub draws: u64,
}

// The queue's first card, which has the turn: its place in the lists, its row, and its day.
#[derive(Clone, Copy)]
pub struct First {
    pub place: u32,
    pub card: Card,
    pub day: u32,
}
