// A sample of the model's functions: the bits that the Rust gives over the same exp, ln and powf.
use crate::report::floats;
use model::{Fsrs7Runtime, MemoryState};
use std::io;

const W: [f32; 34] = [
    0.1104, 2.2395, 3.9221, 11.7841, 6.1686, 0.6457, 3.0194, 3.3722, 0.1666, 0.796, 1.4, 0.2629,
    1.6483, 0.6014, 1.8729, 3.3722, 0.1666, 0.796, 1.4, 0.2629, 1.6483, 0.6014, 1.8729, 0.0392,
    0.242, 0.6675, 0.9137, 0.4717, 0.4885, 0.8136, 0.698, 0.4621, 0.6547, 0.308,
];

const STABILITIES: [f32; 10] = [
    0.0001,
    0.01,
    0.5,
    1.0,
    3.2,
    27.5,
    400.0,
    36500.0,
    f32::NAN,
    -1.0,
];

const DIFFICULTIES: [f32; 5] = [1.0, 3.3, 5.0, 9.9, 10.0];

const RETENTIONS: [f32; 5] = [0.9, 0.9999, 0.7, 0.0001, 0.99];

fn difficulties(rt: &impl Print, m: Fsrs7Runtime) -> io::Result<()> {
    for rating in 1..=4 {
        floats(rt, "init_difficulty", &[m.init_difficulty(rating)])?;
    }
    for d in DIFFICULTIES {
        let next = [
            m.next_difficulty(d, 1, 1.0),
            m.next_difficulty(d, 2, 1.0),
            m.next_difficulty(d, 1, 0.7),
            m.next_difficulty(d, 4, 1.0),
        ];
        floats(rt, "next_difficulty", &next)?;
    }
    Ok(())
}

fn stabilities(rt: &impl Print, m: Fsrs7Runtime, s: f32) -> io::Result<()> {
    for d in DIFFICULTIES {
        let next = [
            m.stability_after_success(s, 0.9, d, 2),
            m.stability_after_success(s, 0.5, d, 3),
            m.stability_after_success(s, 0.9, d, 4),
            m.stability_after_failure(s, 0.3, d),
            m.stability_short_term(s, 1.0, d, 3),
        ];
        floats(rt, "stability", &next)?;
    }
    Ok(())
}

fn curve(rt: &impl Print, m: Fsrs7Runtime, s: f32) -> io::Result<()> {
    let c = m.curve(s);
    let chances = [
        c.retention(-1.0),
        c.retention(0.0),
        m.forgetting_curve(1.0, s),
        m.forgetting_curve(365.0, s),
    ];
    floats(rt, "curve", &chances)?;
    let state = MemoryState {
        stability: s,
        difficulty: 7.5,
        stability_fast: s * 0.8,
    };
    let chances = [
        m.forgetting_curve_for_state(1.0, state),
        m.forgetting_curve_for_state(36500.0, state),
    ];
    floats(rt, "curve_for_state", &chances)?;
    let slope = m.curve_for_state(state).retention_and_derivative(3.0);
    floats(rt, "derivative", &[slope.retention, slope.derivative])
}

fn intervals(rt: &impl Print, m: Fsrs7Runtime, s: f32) -> io::Result<()> {
    let state = MemoryState {
        stability: s,
        difficulty: 5.0,
        stability_fast: s,
    };
    for r in RETENTIONS {
        let days = [
            m.next_interval(s, r),
            m.next_interval_bisection(state, r),
            m.scheduled(s, r, 36500.0),
        ];
        floats(rt, "interval", &days)?;
    }
    Ok(())
}

pub fn run(rt: &impl Print) -> io::Result<()> {
    let m = Fsrs7Runtime::new(&W);
    difficulties(rt, m)?;
    for s in STABILITIES {
        stabilities(rt, m, s)?;
    }
    for s in STABILITIES {
        curve(rt, m, s)?;
    }
    for s in STABILITIES {
        intervals(rt, m, s)?;
    }
    Ok(())
}
