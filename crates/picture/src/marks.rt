//! The output, as marks. Only marks are green or red.
use crate::lanes::{row_bottom, row_middle, row_top, row_words};
use crate::phrase::Phrase;
use std::fmt;

/// The look of a mark: the name of its class in the picture's style.
#[derive(Clone, Copy)]
pub enum Style {
    /// A number, aligned to its end.
    Number,
    /// Text.
    Plain,
    Dim,
    /// Centered text.
    Middle,
    /// A message is taken; an item is sent; the event can't happen.
    Take,
    Send,
    Nothing,
    /// The transaction is logged or done; the transaction is refused.
    Done,
    Refused,
}

/// A mark in the row at this index. Other positions are in pixels from the left.
#[derive(Clone, Copy)]
pub enum Mark {
    /// Text.
    Words {
        style: Style,
        x: u128,
        at: usize,
        phrase: Phrase,
    },
    /// A spot on the line of a lane.
    Spot {
        style: Style,
        x: u128,
        at: usize,
    },
    /// A square over the line of a lane.
    Square {
        style: Style,
        left: u128,
        right: u128,
        at: usize,
    },
    /// An arrow from line to line.
    Across {
        style: Style,
        from: u128,
        to: u128,
        at: usize,
    },
}

impl fmt::Display for Style {
    ghost use Rattle.std.specs.Prelude.{Some};
    ghost use Rattle.picture.specs.Marks.{style_text};

    ghost output = { λ style. Some (style_text style) };

    fn fmt<W: fmt::Write>(&self, f: &mut fmt::Formatter<W>) -> fmt::Result {
        match self {
            Style::Number => write!(f, "number"),
            Style::Plain => write!(f, "plain"),
            Style::Dim => write!(f, "dim"),
            Style::Middle => write!(f, "middle"),
            Style::Take => write!(f, "take"),
            Style::Send => write!(f, "send"),
            Style::Nothing => write!(f, "nothing"),
            Style::Done => write!(f, "done"),
            Style::Refused => write!(f, "refused"),
        }
    }
}

impl fmt::Display for Mark {
    ghost use Rattle.std.specs.Prelude.{Some};
    ghost use Rattle.picture.specs.Marks.{mark_text};

    ghost output = { λ mark. Some (mark_text mark) };

    fn fmt<W: fmt::Write>(&self, f: &mut fmt::Formatter<W>) -> fmt::Result {
        match *self {
            Mark::Words {
                style,
                x,
                at,
                phrase,
            } => {
                let y = row_words(at);
                write!(
                    f,
                    "<text class=\"{style}\" x=\"{x}\" y=\"{y}\">{phrase}</text>\n"
                )
            }
            Mark::Spot { style, x, at } => {
                let y = row_middle(at);
                write!(
                    f,
                    "<circle class=\"{style}\" cx=\"{x}\" cy=\"{y}\" r=\"5\"/>\n"
                )
            }
            Mark::Square {
                style,
                left,
                right,
                at,
            } => {
                let top = row_top(at);
                let bottom = row_bottom(at);
                write!(
                    f,
                    "<path class=\"{style}\" d=\"M{left} {top}H{right}V{bottom}H{left}z\"/>\n"
                )
            }
            Mark::Across {
                style,
                from,
                to,
                at,
            } => {
                let y = row_middle(at);
                write!(
                    f,
                    "<path class=\"{style} across\" d=\"M{from} {y}H{to}\"/>\n"
                )
            }
        }
    }
}
