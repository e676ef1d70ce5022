// Difficulty and stability, at first and after a rating.
ghost use Rattle.std.specs.Prelude.{◌≡◌};
ghost use Rattle.model.specs.Model as Model;
ghost use Rattle.model.specs.Runtime as Runtime;

use crate::parameters::{Fsrs7Runtime, StabilityParameters};
use elementary::{exp_f32, powf_f32};
use float32::{clamp, max, min};
use std::num::nearest_u32_to_f32;

// A rating is a u32, not an enum of four: C and the Rust's callers hand over any u32.
#[tactic(auto, unfolding(crate::specs::Model::to_rating))]
fn to_rating(rating: u32) -> u32
    ensures { result ≡ Model.to_rating rating }
{
    rating.clamp(1, 4)
}

// ---- difficulty

#[tactic(auto, using(crate::proofs::Numbers::literals), unfolding(crate::specs::Model::init_difficulty_by))]
pub(crate) fn init_difficulty_by(w4: f32, w5: f32, rating: u32) -> f32
    ensures { result ≡ Model.init_difficulty_by w4 w5 rating }
{
    w4 - exp_f32(w5 * nearest_u32_to_f32(rating.saturating_sub(1))) + 1.0
}

// The change before damping.
#[tactic(auto, using(crate::proofs::Numbers::literals), unfolding(crate::specs::Model::delta_d))]
fn delta_d(w6: f32, rating: u32, retention: f32) -> f32
    ensures { result ≡ Model.delta_d w6 rating retention }
{
    let delta = -w6 * (nearest_u32_to_f32(rating) - 3.0);
    if rating == 1 {
        delta * (retention + 0.1)
    } else {
        delta
    }
}

// ---- stability

// The post-lapse stability.
#[tactic(auto, using(crate::proofs::Numbers::literals), unfolding(crate::specs::Model::pls))]
fn pls(p: StabilityParameters, s: f32, r: f32) -> f32
    ensures { result ≡ Model.pls p s r }
{
    min(
        s,
        p.w10 * (powf_f32(s + 1.0, p.w11) - 1.0) * exp_f32((1.0 - r) * p.w12),
    )
}

// The factor by which a success raises the stability.
#[tactic(auto, using(crate::proofs::Numbers::literals), unfolding(crate::specs::Model::sinc))]
fn sinc(p: StabilityParameters, s: f32, d: f32, r: f32, rating: u32) -> f32
    ensures { result ≡ Model.sinc p s d r rating }
{
    let hard_penalty = if rating == 2 { p.w13 } else { 1.0 };
    let easy_bonus = if rating == 4 { p.w14 } else { 1.0 };
    p.growth
        * (11.0 - d)
        * powf_f32(s, p.decline)
        * (exp_f32((1.0 - r) * p.w9) - 1.0)
        * hard_penalty
        * easy_bonus
        + 1.0
}

impl Fsrs7Runtime {
    #[tactic(auto, unfolding(crate::specs::Runtime::init_stability))]
    pub fn init_stability(self, rating: u32) -> f32
        ensures { result ≡ Runtime.init_stability self rating }
    {
        match to_rating(rating) {
            1 => self.first.again,
            2 => self.first.hard,
            3 => self.first.good,
            _ => self.first.easy,
        }
    }

    // The rating is taken as it is: only 0 counts as 1.
    pub fn init_difficulty(self, rating: u32) -> f32
        ensures { result ≡ Model.init_difficulty_by self.difficulty.w4 self.difficulty.w5 rating }
    {
        init_difficulty_by(self.difficulty.w4, self.difficulty.w5, rating)
    }

    #[tactic(auto, using(crate::proofs::Numbers::literals), unfolding(crate::specs::Model::linear_damping))]
    pub fn linear_damping(delta: f32, d: f32) -> f32
        ensures { result ≡ Model.linear_damping delta d }
    {
        (10.0 - d) * delta / 9.0
    }

    #[tactic(auto, using(crate::proofs::Numbers::literals), unfolding(crate::specs::Model::mean_reversion))]
    pub fn mean_reversion(init: f32, current: f32) -> f32
        ensures { result ≡ Model.mean_reversion init current }
    {
        init * 0.01 + current * 0.99
    }

    #[tactic(auto, using(crate::proofs::Numbers::literals), unfolding(crate::specs::Model::next_difficulty_by))]
    pub fn next_difficulty(self, d: f32, rating: u32, retention: f32) -> f32
        ensures { result ≡ Model.next_difficulty_by self.difficulty.easy self.difficulty.w6 d rating
            retention }
    {
        let delta = delta_d(self.difficulty.w6, to_rating(rating), retention);
        let damped = d + Self::linear_damping(delta, d);
        clamp(
            Self::mean_reversion(self.difficulty.easy, damped),
            Self::D_MIN,
            Self::D_MAX,
        )
    }

    #[tactic(auto, using(crate::proofs::Numbers::literals), unfolding(crate::specs::Model::stability_by))]
    fn stability_for_set(self, s: f32, d: f32, r: f32, rating: u32) -> f32
        ensures { result ≡ Model.stability_by self.stability s d r rating }
    {
        let p = self.stability;
        let rating = to_rating(rating);
        let failed = pls(p, s, r);
        let stability = if rating > 1 {
            max(failed, s * sinc(p, s, d, r, rating))
        } else {
            failed
        };
        clamp(stability, Self::S_MIN, Self::S_MAX)
    }

    // Also `stability_short_term`, by the same formula: the Rust has the two names, and its callers use both.
    pub fn stability_after_success(self, s: f32, r: f32, d: f32, rating: u32) -> f32
        ensures { result ≡ Model.stability_by self.stability s d r rating }
    {
        self.stability_for_set(s, d, r, rating)
    }

    pub fn stability_after_failure(self, s: f32, r: f32, d: f32) -> f32
        ensures { result ≡ Model.stability_by self.stability s d r 1 }
    {
        self.stability_for_set(s, d, r, 1)
    }

    pub fn stability_short_term(self, s: f32, r: f32, d: f32, rating: u32) -> f32
        ensures { result ≡ Model.stability_by self.stability s d r rating }
    {
        self.stability_for_set(s, d, r, rating)
    }
}
