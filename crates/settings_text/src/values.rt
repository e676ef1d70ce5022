// What stands behind a form's name, up to the closing bracket: one N or W, the word all and one W, or several Ws.
#![tactic(auto, using(crate::proofs::PartLaws::parts_at), unfolding(crate::specs::Places::parts_from, crate::specs::Places::next_bits, crate::specs::Places::bits_in, crate::specs::Forms::ends, crate::specs::Forms::closes, crate::specs::Forms::alone, crate::specs::Forms::one, crate::specs::Forms::all))]

ghost use Rattle.std.specs.Prelude.{◌≡◌, drop, MatchOption, Some, None};
ghost use Rattle.settings_text.specs.Text.{parts};
ghost use Rattle.settings_text.specs.Forms.{ends, closes, alone, all, several};
ghost use Rattle.settings_text.specs.Places.{next_bits};

use crate::Token;
use crate::numbers::bits_of;
use crate::parts::{part_at, part_of};

// Whether nothing but blanks stands from i on.
fn ended(s: &[u8], i: usize) -> bool
    ensures { result ≡ ends (parts (drop i s.now)) }
{
    part_at(s, i) == Token::End
}

// Whether the closing bracket stands from i on, and nothing behind it.
fn closes_at(s: &[u8], i: usize) -> bool
    ensures { result ≡ closes (parts (drop i s.now)) }
{
    match part_at(s, i) {
        Token::Closed(k) => ended(s, k),
        _ => false,
    }
}

// The word that stands alone up to the closing bracket.
pub(crate) fn one_word(s: &[u8], i: usize) -> Option<&[u8]>
    ensures { MatchOption result (alone (parts (drop i s.now)) ≡ None) (λ w. alone (parts (drop i s.now)) ≡ Some w.now) }
{
    match part_at(s, i) {
        Token::Word { from, to } if closes_at(s, to) => Some(part_of(s, from, to)),
        _ => None,
    }
}

// The word all and one W.
pub(crate) fn all_bits(s: &[u8], i: usize) -> Option<u32>
    ensures { result ≡ all (parts (drop i s.now)) }
{
    let Token::Word { from, to } = part_at(s, i) else {
        return None;
    };
    if part_of(s, from, to) != b"all".as_slice() {
        return None;
    }
    bits_of(one_word(s, to)?)
}

// The W that stands first from i on, and the place behind it.
fn next_bits(s: &[u8], i: usize) -> Option<(u32, usize)>
    ensures { result ≡ next_bits s.now i }
{
    let Token::Word { from, to } = part_at(s, i) else {
        return None;
    };
    let w = bits_of(part_of(s, from, to))?;
    Some((w, to))
}

// K Ws from i on, and the closing bracket.
pub(crate) fn words<const K: usize>(s: &[u8], i: usize) -> Option<[u32; K]>
    ensures { result ≡ several K (parts (drop i s.now)) }
{
    let mut values = [0; K];
    let mut at = i;
    for value in &mut values {
        let (w, to) = next_bits(s, at)?;
        *value = w;
        at = to;
    }
    if closes_at(s, at) { Some(values) } else { None }
}
