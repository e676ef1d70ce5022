// The search for the cheapest retention by Brent's method, one trial at a time.
#![tactic(auto)]

ghost use Rattle.std.specs.Prelude.{◌≡◌, cond, ◌<◌};
ghost use Rattle.brent.specs.Step as Step;
ghost use Rattle.brent.specs.Stepping as Stepping;

use float32::{abs, mul_add};

// The range of the retentions that are tried.
const R_MIN: f32 = 0.70;

const R_MAX: f32 = 0.95;

// A step is at least TOL times the retention, and MIN_TOL more.
const TOL: f32 = 0.01;

const MIN_TOL: f32 = 1e-10;

// The golden section's share, the Rust's `cg`.
const CG: f32 = 0.381966;

// The ends a and b, the best retention x, the two before it, w and v, their means, the last two moves, and the rounds
// done. The moves stand as two fields, not as a `Move`: C holds this struct.
#[repr(C)]
#[derive(Clone, Copy)]
pub struct Brent {
    pub a: f32,
    pub b: f32,
    pub x: f32,
    pub v: f32,
    pub w: f32,
    pub fx: f32,
    pub fv: f32,
    pub fw: f32,
    pub deltax: f32,
    pub rat: f32,
    pub done: u32,
}

// The lowest point of a parabola is p / q away from x.
#[derive(Clone, Copy)]
pub struct Parabola {
    pub p: f32,
    pub q: f32,
}

// The move from x, and the one that the next round compares with.
#[derive(Clone, Copy)]
pub struct Move {
    pub deltax: f32,
    pub rat: f32,
}

// The retention to try, and the moves that go into the state.
#[derive(Clone, Copy)]
pub struct Trial {
    pub u: f32,
    pub step: Move,
}

// A search that is under way: whether the first mean, that at 0.70, is in; the most rounds; the state. A flag beside
// the state, not an Option: C holds this struct.
#[repr(C)]
#[derive(Clone, Copy)]
pub struct Stepper {
    pub begun: bool,
    pub rounds: u32,
    pub state: Brent,
}

// Not ended; the retention found; or refusal 10, with the rounds done in the state. Three cases, so no Option, and no
// Result: an open search has neither come to a value nor failed.
#[derive(Clone, Copy)]
pub enum Verdict {
    Open,
    Found(f32),
    NotFound,
}

// ---- a state's measures

#[tactic(auto, using(crate::proofs::Numbers::literals), unfolding(crate::specs::Step::tol1))]
fn tol1(x: f32) -> f32
    ensures { result ≡ Step.tol1 x }
{
    mul_add(TOL, abs(x), MIN_TOL)
}

#[tactic(auto, using(crate::proofs::Numbers::literals), unfolding(crate::specs::Step::tol2))]
fn tol2(x: f32) -> f32
    ensures { result ≡ Step.tol2 x }
{
    2.0 * tol1(x)
}

#[tactic(auto, using(crate::proofs::Numbers::literals), unfolding(crate::specs::Step::middle))]
fn middle(a: f32, b: f32) -> f32
    ensures { result ≡ Step.middle a b }
{
    0.5 * (a + b)
}

#[tactic(auto, using(crate::proofs::Numbers::literals), unfolding(crate::specs::Step::converged))]
pub fn converged(s: Brent) -> bool
    ensures { result ≡ Step.converged s }
{
    abs(s.x - middle(s.a, s.b)) < mul_add(0.5, -(s.b - s.a), tol2(s.x))
}

// ---- the next trial

#[tactic(auto, unfolding(crate::specs::Step::to_end))]
fn to_end(s: Brent) -> f32
    ensures { result ≡ Step.to_end s }
{
    let end = if s.x >= middle(s.a, s.b) { s.a } else { s.b };
    end - s.x
}

#[tactic(auto, using(crate::proofs::Numbers::literals), unfolding(crate::specs::Step::golden))]
fn golden(s: Brent) -> Move
    ensures { result ≡ Step.golden s }
{
    let deltax = to_end(s);
    Move {
        deltax,
        rat: CG * deltax,
    }
}

#[tactic(auto, using(crate::proofs::Numbers::literals), unfolding(crate::specs::Step::parabola))]
fn fit(s: Brent) -> Parabola
    ensures { result ≡ Step.parabola s }
{
    let t1 = (s.x - s.w) * (s.fx - s.fv);
    let t2 = (s.x - s.v) * (s.fx - s.fw);
    let p = mul_add(s.x - s.v, t2, -(s.x - s.w) * t1);
    let q = 2.0 * (t2 - t1);
    Parabola {
        p: if q > 0.0 { -p } else { p },
        q: abs(q),
    }
}

#[tactic(auto, using(crate::proofs::Numbers::literals), unfolding(crate::specs::Step::useful))]
fn useful(s: Brent, f: Parabola) -> bool
    ensures { result ≡ Step.useful s f }
{
    f.p > f.q * (s.a - s.x) && f.p < f.q * (s.b - s.x) && abs(f.p) < abs(0.5 * f.q * s.deltax)
}

#[tactic(auto, unfolding(crate::specs::Step::near_end))]
fn near_end(s: Brent, u: f32) -> bool
    ensures { result ≡ Step.near_end s u }
{
    let tol2 = tol2(s.x);
    u - s.a < tol2 || s.b - u < tol2
}

#[tactic(auto, unfolding(crate::specs::Step::inward))]
fn inward(s: Brent) -> f32
    ensures { result ≡ Step.inward s }
{
    let tol1 = tol1(s.x);
    if middle(s.a, s.b) - s.x >= 0.0 {
        tol1
    } else {
        -tol1
    }
}

#[tactic(auto, unfolding(crate::specs::Step::fitted))]
fn fitted(s: Brent, f: Parabola) -> f32
    ensures { result ≡ Step.fitted s f }
{
    let rat = f.p / f.q;
    if near_end(s, s.x + rat) {
        inward(s)
    } else {
        rat
    }
}

#[tactic(auto, unfolding(crate::specs::Step::parabolic))]
fn parabolic(s: Brent, f: Parabola) -> Move
    ensures { result ≡ Step.parabolic s f }
{
    if useful(s, f) {
        Move {
            deltax: s.rat,
            rat: fitted(s, f),
        }
    } else {
        golden(s)
    }
}

#[tactic(auto, unfolding(crate::specs::Step::moved))]
fn moved(s: Brent) -> Move
    ensures { result ≡ Step.moved s }
{
    if abs(s.deltax) <= tol1(s.x) {
        golden(s)
    } else {
        parabolic(s, fit(s))
    }
}

#[tactic(auto, unfolding(crate::specs::Step::stepped))]
fn stepped(x: f32, rat: f32) -> f32
    ensures { result ≡ Step.stepped x rat }
{
    let tol1 = tol1(x);
    let sign = if rat >= 0.0 { 1.0 } else { -1.0 };
    x + if abs(rat) < tol1 { tol1 * sign } else { rat }
}

#[tactic(auto, unfolding(crate::specs::Step::trial, crate::specs::Step::trial_of))]
pub fn next_trial(s: Brent) -> Trial
    ensures { result ≡ Step.trial s }
{
    let step = moved(s);
    Trial {
        u: stepped(s.x, step.rat),
        step,
    }
}

// ---- what a trial's mean teaches

#[tactic(auto, using(crate::proofs::Numbers::literals), unfolding(crate::specs::Step::begun))]
pub fn begun(mean: f32) -> Brent
    ensures { result ≡ Step.begun mean }
{
    Brent {
        a: R_MIN,
        b: R_MAX,
        x: R_MIN,
        v: R_MIN,
        w: R_MIN,
        fx: mean,
        fv: mean,
        fw: mean,
        deltax: 0.0,
        rat: 0.0,
        done: 0,
    }
}

// This and the next two ask that one round more fits into `done`, since any state may come from C.
#[tactic(auto, unfolding(crate::specs::Step::after_worse))]
fn after_worse(s: Brent, t: Trial, fu: f32) -> Brent
    requires { s.done < 4294967295 }
    ensures { result ≡ Step.after_worse s t fu }
{
    let second = fu <= s.fw || s.w == s.x;
    let third = fu <= s.fv || s.v == s.x || s.v == s.w;
    let left = t.u < s.x;
    let (v, fv) = if second {
        (s.w, s.fw)
    } else if third {
        (t.u, fu)
    } else {
        (s.v, s.fv)
    };
    let (w, fw) = if second { (t.u, fu) } else { (s.w, s.fw) };
    Brent {
        a: if left { t.u } else { s.a },
        b: if left { s.b } else { t.u },
        v,
        w,
        fv,
        fw,
        deltax: t.step.deltax,
        rat: t.step.rat,
        done: s.done + 1,
        ..s
    }
}

#[tactic(auto, unfolding(crate::specs::Step::after_better))]
fn after_better(s: Brent, t: Trial, fu: f32) -> Brent
    requires { s.done < 4294967295 }
    ensures { result ≡ Step.after_better s t fu }
{
    let right = t.u >= s.x;
    Brent {
        a: if right { s.x } else { s.a },
        b: if right { s.b } else { s.x },
        x: t.u,
        v: s.w,
        w: s.x,
        fx: fu,
        fv: s.fw,
        fw: s.fx,
        deltax: t.step.deltax,
        rat: t.step.rat,
        done: s.done + 1,
    }
}

#[tactic(auto, unfolding(crate::specs::Step::after_trial))]
fn after_trial(s: Brent, t: Trial, fu: f32) -> Brent
    requires { s.done < 4294967295 }
    ensures { result ≡ Step.after_trial s t fu }
{
    if fu > s.fx {
        after_worse(s, t, fu)
    } else {
        after_better(s, t, fu)
    }
}

#[tactic(auto, using(crate::proofs::Numbers::literals), unfolding(crate::specs::Step::within))]
fn within(x: f32) -> bool
    ensures { result ≡ Step.within x }
{
    x >= R_MIN && x <= R_MAX
}

// ---- the stepper

// A search of so many rounds at the most.
#[tactic(auto, using(crate::proofs::Numbers::literals), unfolding(crate::specs::Stepping::started))]
pub fn start(rounds: u32) -> Stepper
    ensures { result ≡ Stepping.started rounds }
{
    Stepper {
        begun: false,
        rounds,
        state: begun(R_MIN),
    }
}

#[tactic(auto, unfolding(crate::specs::Stepping::goes_on))]
fn goes_on(t: Stepper) -> bool
    ensures { result ≡ Stepping.goes_on t.rounds t.state }
{
    t.state.done < t.rounds && !converged(t.state)
}

// The retention to try next, or None: the search has ended.
#[tactic(auto, using(crate::proofs::Numbers::literals), unfolding(crate::specs::Stepping::next_retention))]
pub fn next_retention(t: Stepper) -> Option<f32>
    ensures { result ≡ Stepping.next_retention t }
{
    if !t.begun {
        Some(R_MIN)
    } else if goes_on(t) {
        Some(next_trial(t.state).u)
    } else {
        None
    }
}

#[tactic(auto, unfolding(crate::specs::Stepping::take_mean, crate::specs::Stepping::taken_in, crate::specs::Step::step_of))]
pub fn take_mean(t: Stepper, mean: f32) -> Stepper
    ensures { result ≡ Stepping.take_mean t mean }
{
    let state = if !t.begun {
        begun(mean)
    } else if goes_on(t) {
        after_trial(t.state, next_trial(t.state), mean)
    } else {
        t.state
    };
    Stepper {
        begun: true,
        state,
        ..t
    }
}

#[tactic(auto, unfolding(crate::specs::Stepping::answer, crate::specs::Stepping::judged))]
pub fn answer(t: Stepper) -> Verdict
    ensures { result ≡ Stepping.answer t }
{
    let s = t.state;
    if !t.begun {
        Verdict::Open
    } else if s.done >= t.rounds {
        Verdict::NotFound
    } else if !converged(s) {
        Verdict::Open
    } else if within(s.x) {
        Verdict::Found(s.x)
    } else {
        Verdict::NotFound
    }
}
