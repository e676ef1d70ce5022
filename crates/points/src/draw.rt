// The outputs of SplitMix64 that its authors' code publishes for the seed 1234567, and draws at the ends.
use crate::report::{compare, equal};
use draws::SplitMix64;
use std::io;

const PUBLISHED: [u64; 5] = [
    6457827717110365317,
    3203168211198807973,
    9817491932198370423,
    4593380528125082431,
    16408922859458223821,
];

// A chance, a word, and whether the card is recalled.
const RECALLED: [(f32, u32, bool); 5] = [
    (0.0, 0, false),
    (1.0, 4294967295, true),
    (0.5, 2147483647, true),
    (0.5, 2147483648, false),
    (f32::NAN, 0, false),
];

fn published(rt: &impl Print) -> io::Result<()> {
    let mut generator = SplitMix64::new(1234567);
    for want in PUBLISHED {
        let draw = generator.next();
        generator = draw.generator;
        compare(rt, "SplitMix64", draw.output, want)?;
    }
    Ok(())
}

// Words with the indexes that they draw by the weights.
fn indexes(rt: &impl Print, weights: &[f32], cases: &[(u32, usize)]) -> io::Result<()> {
    for (word, want) in cases {
        equal(rt, "rating", draws::weighted_index(weights, *word) == *want)?;
    }
    Ok(())
}

pub fn run(rt: &impl Print) -> io::Result<()> {
    published(rt)?;
    let even = [(0, 0), (1073741823, 0), (1073741824, 1), (4294967295, 3)];
    indexes(rt, &[1.0, 1.0, 1.0, 1.0], &even)?;
    let three = [(2147483647, 0), (2147483648, 1), (4294967295, 2)];
    indexes(rt, &[0.5, 0.25, 0.25], &three)?;
    // v * total is total: no running sum is greater
    indexes(
        rt,
        &[0.0, float32::from_bits(1), 0.0, 0.0],
        &[(4294967295, 1)],
    )?;
    for (chance, word, want) in RECALLED {
        equal(rt, "recalled", draws::recalled(chance, word) == want)?;
    }
    Ok(())
}
