ghost use Rattle.std.specs.Prelude.{◌≡◌};
ghost use Rattle.dataset.specs.FirstFault.{format_of};
ghost use Rattle.dataset.specs.Formats.{line_count, most_lines, most_warehouses};

use rows::{LAST_LINE, MOST_LINES, MOST_WAREHOUSES};

/// A format of datasets. The number in the header tells it.
#[derive(Clone, Copy, Debug, PartialEq, Eq)]
pub enum Format {
    /// A line of an order has a record of its own.
    One,
    /// The record of an order contains its lines.
    Two,
}

impl Format {
    /// The format with that number in its header.
    pub fn named(number: &str) -> Option<Format>
        ensures { result ≡ format_of number.now }
    {
        match number {
            "1" => Some(Format::One),
            "2" => Some(Format::Two),
            _ => None,
        }
    }

    /// The most warehouses of a dataset.
    pub fn most_warehouses(self) -> u32
        ensures { result ≡ most_warehouses self }
    {
        match self {
            Format::One => 64,
            Format::Two => MOST_WAREHOUSES,
        }
    }

    /// The greatest O_OL_CNT and OL_NUMBER.
    pub fn most_lines(self) -> u32
        ensures { result ≡ most_lines self }
    {
        match self {
            Format::One => 15,
            Format::Two => LAST_LINE,
        }
    }

    /// The number of lines that `left` fields behind the columns of an order make. Fields that make no
    /// whole line, or come after [`MOST_LINES`] lines, are too many.
    pub fn line_count(self, left: usize) -> usize
        ensures { result ≡ line_count self left }
    {
        match self {
            Format::One => 0,
            Format::Two => (left / 7).min(MOST_LINES),
        }
    }
}
