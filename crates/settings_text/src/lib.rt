// The bracket lines: a text read as settings.
#![tactic(auto)]

ghost use Rattle.std.specs.Prelude.{◌≡◌};
ghost use Rattle.settings_text.specs.Forms.{number_of, second_of};

mod forms;
mod numbers;
mod parts;
pub mod reader;
mod values;

// A part of a line and the place behind it.
#[derive(Clone, Copy, PartialEq, Eq)]
pub enum Token {
    Opened(usize),
    Closed(usize),
    Word { from: usize, to: usize },
    End,
}

// The names of forms, in the order of their places in `Settings::seen`.
#[derive(Clone, Copy, PartialEq, Eq)]
pub enum Name {
    Parameters,
    Deck,
    Span,
    Seed,
    Learn,
    Review,
    Retention,
    Maxcost,
    First,
    Cost,
}

// What the forms set, W as the f32's bits, and which forms stood there: parameters, deck, span, seed, learn, review,
// retention, maxcost, first, cost.
// Parameters are no Option: `seen` says of each form whether it stood there, and an Option would say it a second time.
#[derive(Clone, Copy)]
pub struct Settings {
    pub deck: u32,
    pub span: u32,
    pub seed: u64,
    pub learn: u32,
    pub review: u32,
    pub retention: u32,
    pub maxcost: u32,
    pub first: [u32; 4],
    pub cost: [u32; 12],
    pub parameters: [u32; 34],
    pub seen: [bool; 10],
}

// Refusal 11: a text that is too long, or its first wrong line.
#[derive(Clone, Copy, PartialEq, Eq)]
pub enum ReadError {
    TooLong,
    Line(u32),
}

impl ReadError {
    // The table's number of such a refusal.
    pub fn number(self) -> u32
        ensures { result ≡ number_of self }
    {
        11
    }

    // Its second number: the line, 0 for a text that is too long.
    #[tactic(auto, unfolding(crate::specs::Forms::second_of))]
    pub fn second(self) -> u32
        ensures { result ≡ second_of self }
    {
        match self {
            ReadError::TooLong => 0,
            ReadError::Line(n) => n,
        }
    }
}

// The settings that were read, at a refusal those of the lines before it.
#[derive(Clone, Copy)]
pub struct Reading {
    pub settings: Settings,
    pub verdict: Result<(), ReadError>,
}
