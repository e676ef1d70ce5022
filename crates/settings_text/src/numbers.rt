// N and W.
ghost use Rattle.std.specs.Prelude.{◌≡◌, ◌<◌, ◌≤◌, IfSome, MatchOption};
ghost use Rattle.settings_text.specs.Numbers.{digit, number, number64, number32, bits};

// What a digit says.
#[tactic(auto, unfolding(crate::specs::Numbers::digit))]
fn digit_of(b: u8) -> Option<u64>
    ensures { MatchOption result (digit b ≡ 16) (λ d. digit b ≡ d) }
{
    match b {
        b'0'..=b'9' => Some(u64::from(b - b'0')),
        b'A'..=b'F' => Some(u64::from(b - b'A') + 10),
        _ => None,
    }
}

// One or more digits to the base that say a number of at most `most`.
// By hand: the library's own reading of a number takes a sign and small letters too.
#[tactic(auto, unfolding(crate::specs::Numbers::number, crate::specs::Numbers::empty, crate::specs::Numbers::digits, crate::specs::Numbers::value))]
fn number_of(w: &[u8], base: u64, most: u64) -> Option<u64>
    requires { (0 < base) × ((base ≤ 16) × (base ≤ most)) }
    ensures is { result ≡ number base most w.now }
    ensures bounded { IfSome result (λ n. n ≤ most) }
{
    if w.is_empty() {
        return None;
    }
    let mut v = 0;
    for b in w {
        let d = digit_of(*b)?;
        if base <= d || (most - d) / base < v {
            return None;
        }
        v = v * base + d;
    }
    Some(v)
}

#[tactic(auto, unfolding(crate::specs::Numbers::number64))]
pub(crate) fn decimal64(w: &[u8]) -> Option<u64>
    ensures { result ≡ number64 w.now }
{
    number_of(w, 10, u64::MAX)
}

// The number as 32 bits, which are enough for all that is read with such a bound.
#[tactic(auto, unfolding(crate::specs::Numbers::number32))]
pub(crate) fn decimal32(w: &[u8]) -> Option<u32>
    ensures { result ≡ number32 w.now }
{
    let n = number_of(w, 10, u64::from(u32::MAX))?;
    Some(n as u32)
}

// W, as bits.
#[tactic(auto, unfolding(crate::specs::Numbers::bits))]
pub(crate) fn bits_of(w: &[u8]) -> Option<u32>
    ensures { result ≡ bits w.now }
{
    if w.len() != 8 {
        return None;
    }
    let n = number_of(w, 16, u64::from(u32::MAX))?;
    Some(n as u32)
}
