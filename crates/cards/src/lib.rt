// The configuration of a run (configuration.rt), its cards by value and as rows of lent lists (card.rt), their days
// (day.rt), and what a turn does with a card (choice.rt).
#![tactic(auto)]

mod card;
mod choice;
mod configuration;
mod day;

pub use card::{Card, CardRow, CountRow, card_at, card_ok, is_kept, write_counts, write_floats};
pub use choice::{Choice, decide, is_blocked, is_retired};
pub use configuration::{SimulatorConfig, config_ok, row_of};
pub use day::{day_after, day_of, is_new};
