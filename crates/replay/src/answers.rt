// The port's answer to a call, as a word: a float's bits, a whole number, 1 for yes.
use crate::record::Record;
use draws::SplitMix64;
use float32::{from_bits, to_bits};
use model::{Fsrs7Runtime, MemoryState};

pub fn join(a: u32, b: u32) -> u64 {
    (u64::from(a) << 32) | u64::from(b)
}

// The word that is drawn from a state.
pub fn drawn(state: u64) -> u32 {
    draws::word(SplitMix64::new(state).next().output)
}

// The functions on numbers; the stored lines know each function by its number alone, so numbers they stay.
pub fn of_numbers(r: Record) -> u32 {
    let x = from_bits(r.a);
    let y = from_bits(r.b);
    let z = from_bits(r.c);
    match r.function {
        1 => to_bits(elementary::exp_f32(x)),
        2 => to_bits(elementary::ln_f32(x)),
        3 => to_bits(elementary::powf_f32(x, y)),
        4 => to_bits(float32::abs(x)),
        5 => to_bits(float32::max(x, y)),
        6 => to_bits(float32::min(x, y)),
        7 => to_bits(float32::clamp(x, y, z)),
        8 => to_bits(float32::round(x)),
        9 => to_bits(float32::mul_add(x, y, z)),
        10 => float32::to_u32(x),
        11 => drawn(join(r.a, r.b)),
        12 => draws::weighted_index(&[x, y, z], r.d).min(3) as u32,
        13 => u32::from(draws::recalled(x, r.b)),
        14 => intervals::stability_bucket(x),
        15 => intervals::retention_bucket(x),
        16 => (queue::card_priority(r.b, r.c == 1, x) % 4294967296) as u32,
        17 => (queue::card_priority(r.b, r.c == 1, x) / 4294967296) as u32,
        _ => 0,
    }
}

// The functions of the memory model, by their numbers as above.
pub fn of_memory(w: &[f32], r: Record) -> u32 {
    let m = Fsrs7Runtime::new(w);
    let x = from_bits(r.a);
    let y = from_bits(r.b);
    let z = from_bits(r.c);
    let state = MemoryState {
        stability: y,
        difficulty: z,
        stability_fast: from_bits(r.d),
    };
    match r.function {
        20 => to_bits(m.init_stability(r.a)),
        21 => to_bits(m.init_difficulty(r.a)),
        22 => to_bits(m.next_difficulty(x, r.d, y)),
        23 => to_bits(m.stability_after_success(x, y, z, r.d)),
        24 => to_bits(m.stability_after_failure(x, y, z)),
        25 => to_bits(m.stability_short_term(x, y, z, r.d)),
        26 => to_bits(m.forgetting_curve(x, y)),
        27 => to_bits(m.forgetting_curve_for_state(x, state)),
        28 => to_bits(
            m.curve_for_state(state)
                .retention_and_derivative(x)
                .retention,
        ),
        29 => to_bits(
            m.curve_for_state(state)
                .retention_and_derivative(x)
                .derivative,
        ),
        30 => to_bits(m.next_interval_bisection(state, x)),
        31 => to_bits(m.next_interval_for_state(state, x)),
        32 => to_bits(m.next_interval(x, y)),
        33 => to_bits(m.scheduled(x, y, z)),
        34 => u32::from(intervals::certifies_rounded_interval(m.curve(x), x, y, z, from_bits(r.d))),
        _ => 0,
    }
}
