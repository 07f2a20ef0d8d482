//! The signs that are not part of the proved output (asides): the heads and lines of the lanes, and what follows by the rules
//! of messages: which event put what another took or sent, and the claims held meanwhile. An arrow goes down, and no aside is
//! green or red.
use crate::lanes::{row_bottom, row_middle, row_top};
use crate::phrase::Phrase;
use std::fmt;

// The beginning of a text that is read downwards, up to its position.
const DOWN: &str = "<text transform=\"translate(";

/// A sign that is not a mark. `from` is the index of a row, and `more` the number of rows between it and the row where the sign
/// ends. Other positions are in pixels.
#[derive(Clone, Copy)]
pub enum Aside {
    /// The head of a lane or of a column.
    Head {
        x: u128,
        y: u128,
        phrase: Phrase,
    },
    /// The line of a lane, from its head through this many rows.
    Lane {
        sends: bool,
        x: u128,
        rows: usize,
    },
    /// The name of what was taken or sent in the row at this index, or that it is parked.
    Named {
        x: u128,
        at: usize,
        phrase: Phrase,
    },
    /// An arrow from line to line: of an item put into an outbox, or of a message to be taken.
    Hop {
        sent: bool,
        from_x: u128,
        to_x: u128,
        from: usize,
        more: usize,
    },
    /// An arrow down one line, to what was sent.
    Bend {
        x: u128,
        side: u128,
        from: usize,
        more: usize,
    },
    /// A bar for the time that claims are held.
    Claim {
        shared: bool,
        left: u128,
        right: u128,
        from: usize,
        more: usize,
    },
    /// The groups of the claims, read downwards.
    Groups {
        x: u128,
        at: usize,
        groups: Phrase,
    },
}

impl fmt::Display for Aside {
    ghost use Rattle.std.specs.Prelude.{Some};
    ghost use Rattle.picture.specs.Asides.{aside_text};

    ghost output = { λ aside. Some (aside_text aside) };

    fn fmt<W: fmt::Write>(&self, f: &mut fmt::Formatter<W>) -> fmt::Result {
        match *self {
            Aside::Head { x, y, phrase } => {
                write!(
                    f,
                    "<text class=\"head\" x=\"{x}\" y=\"{y}\">{phrase}</text>\n"
                )
            }
            Aside::Lane { sends, x, rows } => {
                let style = if sends { "sends" } else { "lane" };
                let bottom = 74 + 20 * rows as u128;
                write!(f, "<path class=\"{style}\" d=\"M{x} 70V{bottom}\"/>\n")
            }
            Aside::Named { x, at, phrase } => {
                let y = row_middle(at) + 4;
                write!(
                    f,
                    "<text class=\"dim\" x=\"{x}\" y=\"{y}\">{phrase}</text>\n"
                )
            }
            Aside::Hop {
                sent,
                from_x,
                to_x,
                from,
                more,
            } => {
                let style = if sent { "item" } else { "message" };
                let from_y = row_middle(from);
                let to_y = from_y + 20 * (more as u128 + 1);
                write!(
                    f,
                    "<path class=\"{style}\" d=\"M{from_x} {from_y}L{to_x} {to_y}\"/>\n"
                )
            }
            Aside::Bend {
                x,
                side,
                from,
                more,
            } => {
                let from_y = row_middle(from);
                let to_y = from_y + 20 * (more as u128 + 1);
                write!(
                    f,
                    "<path class=\"item\" d=\"M{x} {from_y}C{side} {from_y} {side} {to_y} {x} {to_y}\"/>\n"
                )
            }
            Aside::Claim {
                shared,
                left,
                right,
                from,
                more,
            } => {
                let style = if shared { "shared" } else { "claim" };
                let top = row_top(from);
                let bottom = row_bottom(from) + 20 * (more as u128 + 1);
                write!(
                    f,
                    "<path class=\"{style}\" d=\"M{left} {top}H{right}V{bottom}H{left}z\"/>\n"
                )
            }
            Aside::Groups { x, at, groups } => {
                let y = row_top(at) + 3;
                write!(f, "{}{x} {y}) rotate(90)\">{groups}</text>\n", DOWN)
            }
        }
    }
}
