// Tries exp_f32, ln_f32 and powf_f32 on the arguments of the standard input and prints how many lines were read and how
// many results lie outside what their line accepts. tools/elementary/points.py made the lines, each `k x y low high` of
// 38 bytes: k is e, l or p, the others are bit patterns in hex.
#![tactic(auto)]

ghost use Rattle.std.specs.Prelude.{◌<◌};

use float32::{from_bits, to_bits};
use std::io;
use std::io::Read;

// Lines read, and lines outside.
#[derive(Clone, Copy)]
pub struct Tally {
    pub rows: u64,
    pub outside: u64,
}

// A hex digit; of a byte that is none, some number below 16, where the library's own reading refuses the whole line.
fn digit(byte: u8) -> u32
    ensures { result < 16 }
{
    u32::from(if byte < 58 { byte } else { byte % 16 + 9 }) % 16
}

fn word(hex: &[u8]) -> u32 {
    hex.iter()
        .fold(0, |word: u32, byte| word % 268435456 * 16 + digit(*byte))
}

fn result(k: u8, x: f32, y: f32) -> f32 {
    match k {
        b'e' => elementary::exp_f32(x),
        b'l' => elementary::ln_f32(x),
        _ => elementary::powf_f32(x, y),
    }
}

// Whether the result lies within what the line accepts.
fn is_within(line: &[u8; 38]) -> bool {
    let x = from_bits(word(&line[2..10]));
    let y = from_bits(word(&line[11..19]));
    let bits = to_bits(result(line[0], x, y));
    word(&line[20..28]) <= bits && bits <= word(&line[29..37])
}

// Ten thousand readings at most; one that gives less than a line counts nothing, and the next goes on from there. Lines
// that lie outside are printed.
fn all(rt: &impl Print, input: &mut impl Read) -> io::Result<Tally> {
    let mut rows = 0;
    let mut outside = 0;
    for _ in 0..10000u64 {
        let mut line = [0; 38];
        if reading::read_full(input, &mut line) < 38 {
            continue;
        }
        rows += 1;
        if !is_within(&line) {
            rt.write_all(&line)?;
            outside += 1;
        }
    }
    Ok(Tally { rows, outside })
}

fn main(rt: HostRuntime) -> io::Result<()> {
    let t = all(&rt, &mut rt.stdin())?;
    println!(rt; "{} lines, {} outside", t.rows, t.outside)
}
