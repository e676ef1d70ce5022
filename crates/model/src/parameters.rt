// What the parameters alone decide.
ghost use Rattle.std.specs.Prelude.{◌≡◌};
ghost use Rattle.model.specs.Model as Model;
ghost use Rattle.model.specs.Runtime as Runtime;

use crate::forgetting_curve::decay_of;
use crate::memory::init_difficulty_by;
use elementary::{exp_f32, ln_f32, powf_f32};

// The first stabilities, by rating.
#[derive(Clone, Copy)]
pub struct FirstStability {
    pub again: f32,
    pub hard: f32,
    pub good: f32,
    pub easy: f32,
}

// w4 to w6, and the first difficulty at rating 4.
#[derive(Clone, Copy)]
pub struct DifficultyParameters {
    pub w4: f32,
    pub w5: f32,
    pub w6: f32,
    pub easy: f32,
}

// exp(w7 - 1.5), -w8, and w9 to w14.
#[derive(Clone, Copy)]
pub struct StabilityParameters {
    pub growth: f32,
    pub decline: f32,
    pub w9: f32,
    pub w10: f32,
    pub w11: f32,
    pub w12: f32,
    pub w13: f32,
    pub w14: f32,
}

// Of the curve: w23, w33 - 0.3 and ln w25; the second decay and factor, w32 - 0.3; w27 and -w29; w28, w30 and w31 -
// 0.5.
#[derive(Clone, Copy)]
pub struct CurveParameters {
    pub w23: f32,
    pub power: f32,
    pub log: f32,
    pub decay: f32,
    pub factor: f32,
    pub pace: f32,
    pub w27: f32,
    pub decline: f32,
    pub w28: f32,
    pub w30: f32,
    pub weight: f32,
}

#[derive(Clone, Copy)]
pub struct Fsrs7Runtime {
    pub first: FirstStability,
    pub difficulty: DifficultyParameters,
    pub stability: StabilityParameters,
    pub curve: CurveParameters,
}

// The parameter at an index, NaN past the end.
#[tactic(auto, using(crate::proofs::Numbers::literals))]
fn at(w: &[f32], i: usize) -> f32
    ensures { result ≡ Model.at w.now i }
{
    w.get(i).copied().unwrap_or(f32::NAN)
}

#[tactic(auto, unfolding(crate::specs::Runtime::first_of))]
fn first_stability(w: &[f32]) -> FirstStability
    ensures { result ≡ Runtime.first_of w.now }
{
    FirstStability {
        again: at(w, 0),
        hard: at(w, 1),
        good: at(w, 2),
        easy: at(w, 3),
    }
}

#[tactic(auto, unfolding(crate::specs::Runtime::difficulty_of, crate::specs::Model::init_difficulty))]
fn difficulty_parameters(w: &[f32]) -> DifficultyParameters
    ensures { result ≡ Runtime.difficulty_of w.now }
{
    let w4 = at(w, 4);
    let w5 = at(w, 5);
    DifficultyParameters {
        w4,
        w5,
        w6: at(w, 6),
        easy: init_difficulty_by(w4, w5, 4),
    }
}

#[tactic(auto, using(crate::proofs::Numbers::literals), unfolding(crate::specs::Model::set_of))]
fn stability_parameters(w: &[f32]) -> StabilityParameters
    ensures { result ≡ Model.set_of w.now 7 }
{
    StabilityParameters {
        growth: exp_f32(at(w, 7) - 1.5),
        decline: -at(w, 8),
        w9: at(w, 9),
        w10: at(w, 10),
        w11: at(w, 11),
        w12: at(w, 12),
        w13: at(w, 13),
        w14: at(w, 14),
    }
}

#[tactic(auto, using(crate::proofs::Numbers::literals), unfolding(crate::specs::Runtime::curve_parameters_of, crate::specs::Model::decay2, crate::specs::Model::factor2))]
fn curve_parameters(w: &[f32]) -> CurveParameters
    ensures { result ≡ Runtime.curve_parameters_of w.now }
{
    let decay = decay_of(at(w, 24));
    CurveParameters {
        w23: at(w, 23),
        power: at(w, 33) - 0.3,
        log: ln_f32(at(w, 25)),
        decay,
        factor: powf_f32(at(w, 26), 1.0 / decay) - 1.0,
        pace: at(w, 32) - 0.3,
        w27: at(w, 27),
        decline: -at(w, 29),
        w28: at(w, 28),
        w30: at(w, 30),
        weight: at(w, 31) - 0.5,
    }
}

impl Fsrs7Runtime {
    pub const S_MIN: f32 = 0.0001;

    pub const S_MAX: f32 = 36500.0;

    pub const D_MIN: f32 = 1.0;

    pub const D_MAX: f32 = 10.0;

    #[tactic(auto, unfolding(crate::specs::Runtime::runtime_of))]
    pub fn new(w: &[f32]) -> Self
        ensures { result ≡ Runtime.runtime_of w.now }
    {
        Self {
            first: first_stability(w),
            difficulty: difficulty_parameters(w),
            stability: stability_parameters(w),
            curve: curve_parameters(w),
        }
    }
}
