// The parts of a line: blanks, brackets, words.
ghost use Rattle.std.specs.Prelude.{◌≡◌, ℕ, Bool};
ghost use Rattle.settings_text.specs.Text.{blank, letter, first_not};
ghost use Rattle.settings_text.specs.Places.{part_at, part_of};

use crate::Token;

#[tactic(auto, unfolding(crate::specs::Text::blank))]
fn is_blank(b: u8) -> bool
    ensures { result ≡ blank b }
{
    b == b' ' || b == b'\t' || b == b'\r'
}

#[tactic(auto, unfolding(crate::specs::Text::letter))]
fn is_letter(b: u8) -> bool
    ensures { result ≡ letter b }
{
    !is_blank(b) && b != b'(' && b != b')'
}

// The first place from i on whose byte does not pass the test, or the end.
fn first_not<F: Fn(u8) -> bool>(s: &[u8], i: usize, passes: F) -> usize
    requires { F.IsAlwaysCallable passes }
    ensures { (p : ℕ → Bool) → ((b : ℕ) (t : Bool) → F.post passes b t → t ≡ p b) → result ≡ first_not p s.now i }
{
    let rest = s.get(i..).unwrap_or(&[]);
    i + rest.iter().position(|b| !passes(*b)).unwrap_or(rest.len())
}

// The part of a line that stands first from i on.
#[tactic(auto, unfolding(crate::specs::Places::part_at, crate::specs::Places::token_at))]
pub(crate) fn part_at(s: &[u8], i: usize) -> Token
    ensures { result ≡ part_at s.now i }
{
    let j = first_not(s, i, is_blank);
    match s.get(j) {
        None => Token::End,
        Some(b'(') => Token::Opened(j + 1),
        Some(b')') => Token::Closed(j + 1),
        Some(_) => Token::Word {
            from: j,
            to: first_not(s, j, is_letter),
        },
    }
}

// The bytes from a up to e, or none where that is no part of s.
#[tactic(auto, unfolding(crate::specs::Places::part_of))]
pub(crate) fn part_of(s: &[u8], a: usize, e: usize) -> &[u8]
    ensures { result.now ≡ part_of s.now a e }
{
    s.get(a..e).unwrap_or(&[])
}
