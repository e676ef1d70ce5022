// The day of a card, and whether it is new.
ghost use Rattle.std.specs.Prelude.{◌≡◌};
ghost use Rattle.cards.specs.Day.{day_of, next_due, is_new};

// The maximum with 0 that the rule has plays no part: the cast takes what is below 0 to 0.
pub fn day_of(due: f32) -> u32
    ensures { result ≡ day_of due }
{
    float32::to_u32(due)
}

// The day that a card put off on day d falls due: d + 1 as long as f32 tells the days apart.
pub fn day_after(d: u32) -> u32
    ensures { result ≡ day_of (next_due d) }
{
    if d < 16777216 {
        d + 1
    } else {
        day_of(float32::from_u32(d) + 1.0)
    }
}

pub fn is_new(last_date: f32) -> bool
    ensures { result ≡ is_new last_date }
{
    last_date == f32::NEG_INFINITY
}
