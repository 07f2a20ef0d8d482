ghost use Rattle.std.specs.Prelude.{◌≡◌, ◌≢◌, ◌↔◌, IsTrue, ℕ, ◌<◌, ◌≤◌, List, [], ◌∷◌, ◌++◌, drop, length, true, false, IfOk, IfSome, IfNone, IfErr, OnOk, option_map, IsOk};
ghost use Rattle.std.specs.Io.KnownBytes.{Keeps, IsAtEnd};
ghost use Rattle.csv.specs.Reading.{strip_bom};
ghost use Rattle.files.specs.ByteOrder.{is_marked};
ghost use Rattle.files.specs.Line.{BeginsRecord, IsFirst};
ghost use Rattle.files.specs.Failure.{IsNoFailure, LastsThrough};

use crate::input::Input;
use crate::stop::{Stop, Unreadable};
use crate::window::{MOST_BYTES, Window};

/// The text of a file, from left to right. A byte order mark at the front is not part of it.
#[derive(Drop)]
pub struct Source<R> {
    reader: R,
    window: Window,
    // Whether a byte order mark has been looked for.
    is_begun: bool,
}

impl<R: Input> Source<R> {
    ghost use Rattle.files.specs.Source.{at_hand, ahead, unread, is_begun, EndsUnlessFull, KeepsAhead, KeepsNextRecord};

    /// All text that `reader` returns.
    pub fn new(reader: R) -> Self
        ensures unread { unread R.remaining result ≡ option_map strip_bom (R.remaining reader) }
        ensures reader { result.reader ≡ reader }
    {
        Source {
            reader,
            window: Window::new(),
            is_begun: false,
        }
    }

    /// The bytes of the text that are in memory.
    pub fn at_hand(&self) -> &[u8]
        ensures value { result.now ≡ at_hand self.now }
        ensures fits { length result.now ≤ 65536 }
    {
        self.window.as_slice()
    }

    /// Whether there is no room for more bytes in memory.
    pub fn is_full(&self) -> bool
        ensures { IsTrue result ↔ (length (at_hand self.now) ≡ 65536) }
    {
        self.window.as_slice().len() == MOST_BYTES
    }

    /// Takes the first `count` bytes.
    pub fn consume(&mut self, count: usize)
        requires { count ≤ length (at_hand self.old) }
        ensures left { at_hand self.new ≡ drop count (at_hand self.old) }
        ensures behind { self.new.reader ≡ self.old.reader }
        ensures begun { is_begun self.new ≡ is_begun self.old }
    {
        self.window.consume(count);
    }

    /// Takes the next byte, if one is in memory.
    pub fn next_byte(&mut self) -> Option<u8>
        ensures some { IfSome result (λ byte. at_hand self.old ≡ byte ∷ at_hand self.new) }
        ensures none { IfNone result ((at_hand self.old ≡ []) × (at_hand self.new ≡ [])) }
        ensures behind { self.new.reader ≡ self.old.reader }
        ensures begun { is_begun self.new ≡ is_begun self.old }
    {
        let byte = self.at_hand().first().copied();
        if byte.is_some() {
            self.consume(1);
        }
        byte
    }

    /// Reads more bytes into memory and returns whether there were any. There are none at the end of
    /// the file, or if there is no room.
    pub fn more(&mut self) -> Result<bool, Unreadable>
        ensures keeps { OnOk result (KeepsAhead R.remaining self.old self.new) }
        ensures grows { IfOk result (λ came. (bytes : List ℕ)
            × (at_hand self.new ≡ at_hand self.old ++ bytes) × (came ≡ true → 0 < length bytes)) }
        ensures none { IfOk result (λ came. came ≡ false
            → (at_hand self.new ≡ at_hand self.old) × EndsUnlessFull R.remaining self.new) }
        ensures begun { is_begun self.new ≡ is_begun self.old }
        ensures lasts { R.lasts self.old.reader → IsOk result × R.lasts self.new.reader }
    {
        self.window.move_to_front();
        match self.window.read_from(&mut self.reader) {
            Ok(count) => Ok(count > 0),
            Err(_) => Err(Unreadable),
        }
    }

    /// Skips a byte order mark. This happens once, before anything is taken.
    pub fn begin(&mut self) -> Result<(), Unreadable>
        ensures unread { OnOk result
            (Keeps (unread R.remaining self.old) (ahead R.remaining self.new)) }
        ensures begun { OnOk result (is_begun self.new ≡ true) }
        ensures lasts { R.lasts self.old.reader → IsOk result × R.lasts self.new.reader }
    {
        if self.is_begun {
            return Ok(());
        }
        self.three_bytes()?;
        if is_marked(self.at_hand()) {
            self.consume(3);
        }
        self.is_begun = true;
        Ok(())
    }

    /// Takes line ends up to the next record. Returns whether there is a record; its first byte is in
    /// memory then. Returns `NoMemory` if there are more line ends than can be counted.
    pub fn skip_line_ends(&mut self) -> Result<bool, Stop>
        ensures tracks { OnOk result (KeepsNextRecord R.remaining self.old self.new) }
        ensures first { IfOk result (λ found. found ≡ true → BeginsRecord (at_hand self.new)) }
        ensures none { IfOk result (λ found. found ≡ false
            → (at_hand self.new ≡ []) × IsAtEnd (R.remaining self.new.reader)) }
        ensures begun { is_begun self.new ≡ is_begun self.old }
        ensures short { IfErr result (λ stop. stop ≢ Stop.TooLong) }
        ensures lasts { LastsThrough R.lasts self.old.reader self.new.reader result IsNoFailure }
    {
        for _ in 0..u64::MAX {
            match first_of(self.at_hand()) {
                First::LineEnd => self.consume(1),
                First::OfRecord => return Ok(true),
                First::None => {
                    if !self.more()? {
                        return Ok(false);
                    }
                }
            }
        }
        Err(Stop::NoMemory)
    }

    // Reads until three bytes are in memory or the file ends.
    fn three_bytes(&mut self) -> Result<(), Unreadable>
        ensures keeps { OnOk result (KeepsAhead R.remaining self.old self.new) }
        ensures three { OnOk result
            (length (at_hand self.new) < 3 → IsAtEnd (R.remaining self.new.reader)) }
        ensures lasts { R.lasts self.old.reader → IsOk result × R.lasts self.new.reader }
    {
        while self.at_hand().len() < 3 {
            if !self.more()? {
                break;
            }
        }
        Ok(())
    }
}

// Whether the bytes begin with a byte order mark.
fn is_marked(bytes: &[u8]) -> bool
    ensures { result ≡ is_marked bytes.now }
{
    match bytes {
        [first, second, third, ..] => *first == 0xEF && *second == 0xBB && *third == 0xBF,
        _ => false,
    }
}

// The kind of the first byte.
enum First {
    LineEnd,
    OfRecord,
    None,
}

fn first_of(bytes: &[u8]) -> First
    ensures { IsFirst bytes.now result }
{
    match bytes {
        [] => First::None,
        [b'\n' | b'\r', ..] => First::LineEnd,
        _ => First::OfRecord,
    }
}
