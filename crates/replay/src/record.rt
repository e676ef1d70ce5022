// A line of the sample.
ghost use Rattle.std.specs.Prelude.{◌<◌};

use std::io::Read;

// A function's number and its four words.
#[derive(Clone, Copy)]
pub struct Record {
    pub function: u32,
    pub a: u32,
    pub b: u32,
    pub c: u32,
    pub d: u32,
}

// A hex digit's value; 0 of another byte, where the library's own reading refuses the whole number.
fn digit(b: u8) -> u32
    ensures { result < 16 }
{
    match b {
        b'0'..=b'9' => u32::from(b - b'0'),
        b'A'..=b'F' => u32::from(b - b'A') + 10,
        _ => 0,
    }
}

fn word(digits: &[u8]) -> u32 {
    let mut x = 0u32;
    for b in digits {
        x = (x << 4) | digit(*b);
    }
    x
}

// The next line, or nothing at the sample's end.
pub fn next(input: &mut impl Read) -> Option<Record> {
    let mut line = [0u8; 39];
    if reading::read_full(input, &mut line) < 39 {
        return None;
    }
    Some(Record {
        function: word(&line[0..2]),
        a: word(&line[3..11]),
        b: word(&line[12..20]),
        c: word(&line[21..29]),
        d: word(&line[30..38]),
    })
}
