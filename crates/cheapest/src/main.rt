// Reads a text from standard input and prints the cheapest retention for it. An input that fails counts as ended, and
// an output that fails ends the program with its error.
#![tactic(auto)]

use std::io;

// Not one helper with `forecast`: of these five lines the list's size and the call differ, and a helper would be longer.
fn main(rt: HostRuntime) -> io::Result<()> {
    let mut text = [0; 32769];
    let n = reading::read_full(&mut rt.stdin(), &mut text);
    let mut out = [0; 90];
    let end = cheapest_text::cheapest(&mut out, &text[..n]).unwrap_or(0);
    rt.write_all(out.get(..end).unwrap_or(&[]))
}
