//! Counts the lines and records of a text, byte by byte.

/// The lines and records of a text up to a byte. Blank lines, and a byte order mark at the front, are not
/// records. A line end between quotation marks doesn't end a record.
#[derive(Clone, Copy, Debug)]
pub struct Lines {
    /// The line of the next byte, from 1, as an editor counts.
    pub line: u64,
    /// How many records have begun.
    pub records: u64,
    within: Within,
    // How many bytes of a byte order mark came so far, if no other byte did.
    mark: usize,
}

// The bytes of a byte order mark.
const MARK: [u8; 3] = [0xef, 0xbb, 0xbf];

// Where in a record the next byte is.
#[derive(Clone, Copy, Debug, PartialEq, Eq)]
enum Within {
    Nothing,
    FieldStart,
    Field,
    Quotes,
    // Behind a quotation mark in quotes, which ends them unless another one follows.
    QuoteInQuotes,
}

impl Lines {
    /// The state before the first byte.
    pub fn new() -> Lines {
        Lines {
            line: 1,
            records: 0,
            within: Within::Nothing,
            mark: 0,
        }
    }

    /// Takes the next byte.
    pub fn pass(&mut self, byte: u8) {
        if self.is_of_mark(byte) {
            return;
        }
        let is_line_end = byte == b'\n' || byte == b'\r';
        if self.within == Within::Nothing && !is_line_end {
            self.records = self.records.saturating_add(1);
            self.within = Within::FieldStart;
        }
        self.within = after(self.within, byte);
        if byte == b'\n' {
            self.line = self.line.saturating_add(1);
        }
    }

    // Whether the byte is one of a byte order mark at the front.
    fn is_of_mark(&mut self, byte: u8) -> bool {
        if self.mark < MARK.len() && MARK[self.mark] == byte {
            self.mark += 1;
            return true;
        }
        self.mark = MARK.len();
        false
    }
}

// Where the byte after this one is.
fn after(within: Within, byte: u8) -> Within {
    match (within, byte) {
        (Within::Quotes, b'"') => Within::QuoteInQuotes,
        (Within::Quotes, _) => Within::Quotes,
        (Within::QuoteInQuotes | Within::FieldStart, b'"') => Within::Quotes,
        (_, b'\n' | b'\r') => Within::Nothing,
        (_, b',') => Within::FieldStart,
        _ => Within::Field,
    }
}
