ghost use Rattle.std.specs.Prelude.{◌≡◌, ◌<◌, ◌≤◌, length, IsTrue};
ghost use Rattle.std.specs.List.{list_all};
ghost use Rattle.rows.specs.Text.{is_printable_byte};
ghost use Rattle.rows.specs.LastName.{syllable_of, last_name_of};

use crate::Text;

/// The last name of a number from 0 to 999: the syllables of its three digits (clause 4.3.2.3).
pub fn last_name(number: u32) -> Text<16>
    requires { number < 1000 }
    ensures { result ≡ last_name_of number }
{
    let mut name = Text::new();
    name.push_fitting(syllable(number / 100));
    name.push_fitting(syllable(number / 10 % 10));
    name.push_fitting(syllable(number % 10));
    name
}

fn syllable(digit: u32) -> &'static str
    ensures value { result.now ≡ syllable_of digit }
    ensures short { length result.now ≤ 5 }
    ensures printable { IsTrue (list_all is_printable_byte result.now) }
{
    match digit {
        0 => "BAR",
        1 => "OUGHT",
        2 => "ABLE",
        3 => "PRI",
        4 => "PRES",
        5 => "ESE",
        6 => "ANTI",
        7 => "CALLY",
        8 => "ATION",
        _ => "EING",
    }
}
