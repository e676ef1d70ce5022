// The reading of a text.
ghost use Rattle.std.specs.Prelude.{◌≡◌, ◌≤◌, length};
ghost use Rattle.settings_text.specs.Text.{lines};
ghost use Rattle.settings_text.specs.Forms.{read_lines, reading};

use crate::forms::read_line;
use crate::{ReadError, Reading, Settings};

// Line after line, from line 1 on.
fn read_lines(text: &[u8], base: Settings) -> Reading
    requires { length text.now ≤ 32768 }
    ensures { result ≡ read_lines 1 (lines text.now) base }
{
    let mut settings = base;
    for (i, line) in text.split(|b| *b == b'\n').enumerate() {
        let Some(next) = read_line(line, settings) else {
            return Reading {
                settings,
                verdict: Err(ReadError::Line(i as u32 + 1)),
            };
        };
        settings = next;
    }
    Reading {
        settings,
        verdict: Ok(()),
    }
}

// What a text says: settings, or refusal 11 with its line. `base` has the values that missing forms take.
#[tactic(auto, unfolding(crate::specs::Forms::reading, crate::specs::Forms::refused_as))]
pub fn read(text: &[u8], base: Settings) -> Reading
    ensures { result ≡ reading text.now base }
{
    if 32768 < text.len() {
        return Reading {
            settings: base,
            verdict: Err(ReadError::TooLong),
        };
    }
    read_lines(
        text,
        Settings {
            seen: [false; 10],
            ..base
        },
    )
}
