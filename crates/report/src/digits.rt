// W as bytes.
ghost use Rattle.std.specs.Prelude.{◌≡◌, ◌<◌};
ghost use Rattle.report.specs.Digits.{hex_byte, hex};

#[tactic(auto, unfolding(crate::specs::Digits::hex_byte))]
fn hex_byte(d: u8) -> u8
    requires { d < 16 }
    ensures { result ≡ hex_byte d }
{
    if d < 10 { b'0' + d } else { b'A' + (d - 10) }
}

// W. Not `write!` with {:08X}: std does not say when it succeeds, and a line cannot fail.
pub(crate) fn hex_of(n: u32) -> [u8; 8]
    ensures { result ≡ hex n }
{
    let mut bytes = [0; 8];
    let mut m = n;
    for i in (0..8).rev() {
        bytes[i] = hex_byte((m % 16) as u8);
        m /= 16;
    }
    bytes
}
