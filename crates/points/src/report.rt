// What the points print: whether a value is what it must be, or the values themselves.
use std::io;

pub fn compare(rt: &impl Print, name: &str, got: u64, want: u64) -> io::Result<()> {
    if got == want {
        println!(rt; "{name} ok")
    } else {
        println!(rt; "{name} got {got:08x} want {want:08x}")
    }
}

// The same of a float and the bits that it must have.
pub fn compare_bits(rt: &impl Print, name: &str, got: f32, want: u32) -> io::Result<()> {
    compare(rt, name, u64::from(float32::to_bits(got)), u64::from(want))
}

pub fn equal(rt: &impl Print, name: &str, same: bool) -> io::Result<()> {
    if same {
        println!(rt; "{name} ok")
    } else {
        println!(rt; "{name} differs")
    }
}

// A line of floats: their bits, each after a blank.
pub fn floats(rt: &impl Print, name: &str, values: &[f32]) -> io::Result<()> {
    print!(rt; "{name}")?;
    for value in values {
        print!(rt; " {:08x}", float32::to_bits(*value))?;
    }
    println!(rt; "")
}
