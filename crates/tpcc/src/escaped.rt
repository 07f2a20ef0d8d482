ghost use Rattle.std.specs.Fmt.{WritesOnOk};
ghost use Rattle.tpcc.specs.Escaped.{shown_char};

use std::fmt;
use std::fmt::Write;

/// A text as it is shown on a terminal. A control character, such as a line feed or an escape, is shown by its number,
/// as `\x1b`, so it has no effect.
#[derive(Clone, Copy, Debug)]
pub struct Escaped<'a>(pub &'a str);

impl fmt::Display for Escaped<'_> {
    ghost use Rattle.std.specs.Prelude.{Some};
    ghost use Rattle.tpcc.specs.Escaped.{shown};

    ghost output = { λ escaped. Some (shown escaped.0.now) };

    fn fmt<W: fmt::Write>(&self, f: &mut fmt::Formatter<W>) -> fmt::Result {
        for character in self.0.chars() {
            put(f, character)?;
        }
        Ok(())
    }
}

// Shows a character.
fn put<W: fmt::Write>(f: &mut fmt::Formatter<W>, character: char) -> fmt::Result
    ensures { WritesOnOk W.write_str_gives f.old result (shown_char character) f.new }
{
    if character.is_control() {
        let number = u32::from(character);
        let (high, low) = (number / 16, number % 16);
        write!(f, "\\x{high:x}{low:x}")
    } else {
        f.write_char(character)
    }
}
