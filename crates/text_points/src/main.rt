// Prints what each text of its input forecasts. A text ends at a byte 1E; the texts and what they print are those of
// the Rust (`harness/run store`).
#![tactic(auto)]

use std::io;

fn forecast(rt: &impl Print, text: &[u8]) -> io::Result<()> {
    println!(rt; "text")?;
    let mut out = [0; 133680];
    let end = forecast_text::forecast(&mut out, text).unwrap_or(0);
    rt.write_all(out.get(..end).unwrap_or(&[]))
}

fn main(rt: HostRuntime) -> io::Result<()> {
    let mut input = [0; 262144];
    let n = reading::read_full(&mut rt.stdin(), &mut input);
    // What stands behind the last 1E is a text only if it is not empty.
    for text in input[..n].split_inclusive(|b| *b == 0x1e) {
        forecast(&rt, text.strip_suffix(&[0x1e]).unwrap_or(text))?;
    }
    Ok(())
}
