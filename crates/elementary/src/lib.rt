// exp, ln and powf of f32 by whole numbers, so that they give the same bits on every machine. Each promises that it is
// its definition (specs/Exp, Ln, Pow) and how near that is to the exact value (specs/Accuracy).
#![tactic(auto)]

mod blocks;
mod exp;
mod exp2;
mod exp_tables;
mod large;
mod ln;
mod ln_tables;
mod log2;
mod power;
mod powf;

pub use blocks::{powers_of, up_to_64};
pub use exp::exp_f32;
pub use ln::ln_f32;
pub use powf::powf_f32;
