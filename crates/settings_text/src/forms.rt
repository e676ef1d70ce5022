// A line's form: its name, and what it takes (values.rt) and sets.
#![tactic(auto, using(crate::proofs::PartLaws::parts_at), unfolding(crate::specs::Places::parts_from, crate::specs::Forms::one, crate::specs::Forms::all_or, crate::specs::Forms::takes, crate::specs::Forms::form, crate::specs::Forms::named))]

ghost use Rattle.std.specs.Prelude.{◌≡◌, ◌<◌, drop};
ghost use Rattle.settings_text.specs.Text.{parts};
ghost use Rattle.settings_text.specs.Forms.{name_of, place_of, takes, form, named, line};

use crate::numbers::{bits_of, decimal32, decimal64};
use crate::parts::{part_at, part_of};
use crate::values::{all_bits, one_word, words};
use crate::{Name, Settings, Token};

// Not a match on the texts: it asks a proof for each byte at which a word may differ.
#[tactic(auto, unfolding(crate::specs::Forms::name_of))]
fn name_of(w: &[u8]) -> Option<Name>
    ensures { result ≡ name_of w.now }
{
    let is = |name: &[u8]| w == name;
    if is(b"parameters") {
        Some(Name::Parameters)
    } else if is(b"deck") {
        Some(Name::Deck)
    } else if is(b"span") {
        Some(Name::Span)
    } else if is(b"seed") {
        Some(Name::Seed)
    } else if is(b"learn") {
        Some(Name::Learn)
    } else if is(b"review") {
        Some(Name::Review)
    } else if is(b"retention") {
        Some(Name::Retention)
    } else if is(b"maxcost") {
        Some(Name::Maxcost)
    } else if is(b"first") {
        Some(Name::First)
    } else if is(b"cost") {
        Some(Name::Cost)
    } else {
        None
    }
}

// A name's place among the names seen.
#[tactic(auto, unfolding(crate::specs::Forms::place_of))]
fn place_of(name: Name) -> usize
    ensures place { result ≡ place_of name }
    ensures within { result < 10 }
{
    name as usize
}

// What stands behind a name that was not seen before.
fn take_form(s: &[u8], i: usize, name: Name, mut set: Settings) -> Option<Settings>
    ensures { result ≡ takes name (parts (drop i s.now)) set }
{
    match name {
        Name::Parameters => {
            set.parameters = match all_bits(s, i) {
                Some(w) => [w; 34],
                None => words(s, i)?,
            };
        }
        Name::Deck => set.deck = decimal32(one_word(s, i)?)?,
        Name::Span => set.span = decimal32(one_word(s, i)?)?,
        Name::Seed => set.seed = decimal64(one_word(s, i)?)?,
        Name::Learn => set.learn = decimal32(one_word(s, i)?)?,
        Name::Review => set.review = decimal32(one_word(s, i)?)?,
        Name::Retention => set.retention = bits_of(one_word(s, i)?)?,
        Name::Maxcost => set.maxcost = bits_of(one_word(s, i)?)?,
        Name::First => set.first = words(s, i)?,
        Name::Cost => set.cost = [all_bits(s, i)?; 12],
    }
    Some(set)
}

// A form whose name was read, by its place among the names.
fn named_form(s: &[u8], i: usize, name: Name, mut set: Settings) -> Option<Settings>
    ensures { result ≡ form name (parts (drop i s.now)) set }
{
    let k = place_of(name);
    if set.seen[k] {
        return None;
    }
    set.seen[k] = true;
    take_form(s, i, name, set)
}

// What stands behind an opening bracket.
fn named_at(s: &[u8], i: usize, set: Settings) -> Option<Settings>
    ensures { result ≡ named (parts (drop i s.now)) set }
{
    let Token::Word { from, to } = part_at(s, i) else {
        return None;
    };
    let name = name_of(part_of(s, from, to))?;
    named_form(s, to, name, set)
}

// A line: blanks, or one form.
#[tactic(auto, using(crate::proofs::PartLaws::all_parts), unfolding(crate::specs::Places::parts_from, crate::specs::Forms::line))]
pub(crate) fn read_line(s: &[u8], set: Settings) -> Option<Settings>
    ensures { result ≡ line (parts s.now) set }
{
    match part_at(s, 0) {
        Token::Opened(k) => named_at(s, k, set),
        Token::End => Some(set),
        _ => None,
    }
}
