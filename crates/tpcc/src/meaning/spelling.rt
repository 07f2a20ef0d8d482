//! The spelling of the fields of records, for the explanation of a fault.

use files::{FaultKind, Fields, parse_text, parse_whole};
use std::fmt;

/// How a field is spelt, after docs/FORMATS.md. Its `Display` is what would be right.
#[derive(Clone, Copy, Debug)]
pub enum Spelling {
    /// This word of a header.
    Header(&'static str),
    /// A word that depends on the record; this text describes it.
    Said(&'static str),
    /// A number from the first to the second.
    Whole(u32, u32),
    /// A number from the first to the second, or nothing.
    MaybeWhole(u32, u32),
    /// This number, which is the place of the record.
    Place(u64),
    /// This number, which is how many records there are.
    Count(u64),
    /// A text of at most this many bytes.
    Text(usize),
    /// Whole cents.
    Money,
    Moment,
    /// A moment, or nothing.
    MaybeMoment,
    Credit,
    Brand,
    /// The choice of a customer, by C_ID or by C_LAST.
    Choice,
    Nothing,
}

impl Spelling {
    /// Any number of 32 bits.
    pub const NUMBER: Spelling = Spelling::Whole(0, u32::MAX);

    /// A number of ten-thousandths.
    pub const RATE: Spelling = Spelling::Whole(0, 9_999);

    /// A count that only grows.
    pub const COUNTER: Spelling = Spelling::Whole(0, 999_999_999);

    /// Takes the next field, which should be spelt so, and notes its fault if it has one.
    pub fn take(self, fields: &mut Fields<'_>) {
        match self {
            Spelling::Header(word) => {
                let is_there = fields.word() == word;
                note(fields, unless(is_there, FaultKind::NoHeader));
            }
            Spelling::Said(_) => {
                fields.word();
            }
            Spelling::Whole(low, high) => {
                fields.whole(low, high);
            }
            Spelling::MaybeWhole(low, high) => {
                if fields.next_is_empty() {
                    fields.bytes();
                } else {
                    fields.whole(low, high);
                }
            }
            Spelling::Place(place) => {
                let is_there = u64::from(fields.whole(0, u32::MAX)) == place;
                note(fields, unless(is_there, FaultKind::OutOfOrder));
            }
            Spelling::Count(count) => fields.expect_count(count),
            Spelling::Text(width) => {
                let word = fields.word();
                note(fields, text_fault(word, width));
            }
            Spelling::Money => {
                fields.cents();
            }
            Spelling::Moment => {
                fields.moment();
            }
            Spelling::MaybeMoment => {
                fields.optional_moment();
            }
            Spelling::Credit => {
                fields.credit();
            }
            Spelling::Brand => {
                let word = fields.word();
                note(
                    fields,
                    unless(word == "B" || word == "G", FaultKind::OutOfRange),
                );
            }
            Spelling::Choice => {
                let word = fields.word();
                note(fields, choice_fault(word));
            }
            Spelling::Nothing => {
                let is_empty = fields.word().is_empty();
                note(fields, unless(is_empty, FaultKind::NotOfKind));
            }
        }
    }
}

// Notes the fault, if there is one.
fn note(fields: &mut Fields<'_>, fault: Option<FaultKind>) {
    if let Some(kind) = fault {
        fields.note(kind);
    }
}

fn unless(is_right: bool, kind: FaultKind) -> Option<FaultKind> {
    if is_right { None } else { Some(kind) }
}

// The fault of a text that should have `width` bytes at most, if it has one.
fn text_fault(word: &str, width: usize) -> Option<FaultKind> {
    match parse_text::<500>(word) {
        Ok(_) => unless(word.len() <= width, FaultKind::OutOfRange),
        Err(kind) => Some(kind),
    }
}

// The fault of a word that chooses a customer, if it has one.
fn choice_fault(word: &str) -> Option<FaultKind> {
    match word.strip_prefix("#") {
        Some(digits) => match parse_whole(digits, 0, u64::from(u32::MAX)) {
            Ok(_) => None,
            Err(kind) => Some(kind),
        },
        None => text_fault(word, 16),
    }
}

impl fmt::Display for Spelling {
    fn fmt<W: fmt::Write>(&self, f: &mut fmt::Formatter<W>) -> fmt::Result {
        match self {
            Spelling::Header(words) | Spelling::Said(words) => f.write_str(words),
            Spelling::Whole(low, high) => write!(f, "a number from {low} to {high}"),
            Spelling::MaybeWhole(low, high) => {
                write!(f, "a number from {low} to {high}, or nothing")
            }
            Spelling::Place(number) | Spelling::Count(number) => write!(f, "{number}"),
            Spelling::Text(width) => {
                write!(f, "a text of at most {width} printable ASCII characters")
            }
            Spelling::Money => f.write_str("whole cents, from -10^15 to 10^15"),
            Spelling::Moment => f.write_str("a moment, as 2024-05-01T12:00:00, from 1970 to 9999"),
            Spelling::MaybeMoment => {
                f.write_str("a moment, as 2024-05-01T12:00:00, from 1970 to 9999, or nothing")
            }
            Spelling::Credit => f.write_str("GC or BC"),
            Spelling::Brand => f.write_str("B or G"),
            Spelling::Choice => f.write_str(
                "# and a number from 0 to 4294967295, or a last name of at most 16 printable ASCII characters",
            ),
            Spelling::Nothing => f.write_str("nothing, as O_ID is nothing"),
        }
    }
}
