// Reads a text from standard input and prints what it forecasts. An input that fails counts as ended, and an output
// that fails ends the program with its error.
#![tactic(auto)]

use std::io;

// Not one helper with `cheapest`: of these five lines the list's size and the call differ, and a helper would be longer.
fn main(rt: HostRuntime) -> io::Result<()> {
    let mut text = [0; 32769];
    let n = reading::read_full(&mut rt.stdin(), &mut text);
    let mut out = [0; 133680];
    let end = forecast_text::forecast(&mut out, &text[..n]).unwrap_or(0);
    rt.write_all(out.get(..end).unwrap_or(&[]))
}
