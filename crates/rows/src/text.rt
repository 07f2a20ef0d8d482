ghost use Rattle.std.specs.Prelude.{◌≡◌, ◌+◌, ◌≤◌, [], ◌++◌, length, nat_eq, take, IsTrue};
ghost use Rattle.std.specs.Cmp.{partial_equiv_from_equiv};
ghost use Rattle.std.specs.Cmp.Lexicographic.{pointwise, nat_list_eq_equiv};
ghost use Rattle.std.specs.List.{list_all};
ghost use Rattle.rows.specs.Text.{IsText, is_printable_byte, text_of};

use memchr::memchr;
use std::fmt;
use std::marker::Model;
use std::str::from_utf8_unchecked;
use thiserror::Error;

/// Why a string is not a text of a column.
#[derive(Clone, Copy, Debug, Drop, Error, PartialEq, Eq)]
pub enum TextFault {
    #[error("the text contains a byte outside 32 to 126")]
    Byte,
    #[error("the text is longer than the column is wide")]
    Width,
}

/// A text of printable ASCII (bytes 32 to 126), at most `WIDTH` bytes long. It occupies `WIDTH` bytes
/// and allocates nothing.
#[derive(Clone, Drop)]
pub struct Text<const WIDTH: usize> {
    // The text, padded with zeros. A text contains no zero.
    bytes: [u8; WIDTH],
}

impl<const WIDTH: usize> Model for Text<WIDTH> {
    ghost use Rattle.std.specs.Prelude.{ℕ, List};
    ghost use Rattle.rows.specs.Text.{IsPadded, before_zero};

    ghost Value = { List ℕ };

    ghost view = { λ t. before_zero t.bytes };

    ghost invariant = { λ t. IsPadded WIDTH t.bytes };
}

impl<const WIDTH: usize> Text<WIDTH> {
    /// The empty text.
    pub fn new() -> Self
        ensures { result ≡ [] }
    {
        Text { bytes: [0; WIDTH] }
    }

    /// A copy of `words`. Returns `Byte` if a byte is not printable ASCII; otherwise `Width` if there
    /// are more than `WIDTH` bytes.
    pub fn parse(words: &str) -> Result<Self, TextFault>
        ensures { result ≡ text_of WIDTH words.now }
    {
        Text::from_bytes(words.as_bytes())
    }

    /// As `parse`, from bytes.
    pub fn from_bytes(bytes: &[u8]) -> Result<Self, TextFault>
        ensures { result ≡ text_of WIDTH bytes.now }
    {
        if !is_printable(bytes) {
            return Err(TextFault::Byte);
        }
        if bytes.len() > WIDTH {
            return Err(TextFault::Width);
        }
        let mut text = Text::new();
        text.write(0, bytes);
        Ok(text)
    }

    /// The bytes of the text as a string; they are ASCII.
    pub fn as_str(&self) -> &str
        ensures bytes { result.now ≡ self.now }
        ensures is_text { IsText WIDTH self.now }
    {
        ascii(&self.bytes[..self.len()])
    }

    // The length of the text in bytes.
    fn len(&self) -> usize
        ensures value { result ≡ length self.now }
        ensures fits { result ≤ WIDTH }
    {
        memchr(0, &self.bytes).unwrap_or(WIDTH)
    }

    // Appends printable bytes to the text, which is `end` bytes long. The caller ensures that they fit.
    fn write(&mut self, end: usize, more: &[u8])
        requires end { end ≡ length self.old }
        requires room { end + length more.now ≤ WIDTH }
        requires printable { IsTrue (list_all is_printable_byte more.now) }
        ensures { self.new ≡ self.old ++ more.now }
    {
        let bytes = &mut self.bytes[..];
        bytes[end..end + more.len()].copy_from_slice(more);
    }
}

impl<const WIDTH: usize> Text<WIDTH> {
    /// Appends `words`, which must be printable ASCII, and cuts the result to `WIDTH` bytes at the
    /// right.
    pub fn push_fitting(&mut self, words: &str)
        requires { IsTrue (list_all is_printable_byte words.now) }
        ensures { self.new ≡ take WIDTH (self.old ++ words.now) }
    {
        let len = self.len();
        let room = (WIDTH - len).min(words.len());
        self.write(len, &words.as_bytes()[..room]);
    }

    /// Returns an equal text. Does not allocate.
    pub fn copy(&self) -> Text<WIDTH>
        ensures { result ≡ self.now }
    {
        Text { bytes: self.bytes }
    }

    /// The first `LENGTH` bytes, or all bytes if there are fewer.
    pub fn prefix<const LENGTH: usize>(&self) -> Text<LENGTH>
        ensures { result ≡ take LENGTH self.now }
    {
        let mut prefix = Text::new();
        prefix.push_fitting(self.as_str());
        prefix
    }
}

impl<const WIDTH: usize> PartialEq for Text<WIDTH> {
    ghost eq = { λ s t. pointwise nat_eq s t };

    ghost laws = { partial_equiv_from_equiv nat_list_eq_equiv };

    fn eq(&self, other: &Self) -> bool {
        self.as_str() == other.as_str()
    }
}

impl<const WIDTH: usize> Eq for Text<WIDTH> {
    ghost laws = { nat_list_eq_equiv };
}

impl<const WIDTH: usize> fmt::Debug for Text<WIDTH> {
    fn fmt<W: fmt::Write>(&self, f: &mut fmt::Formatter<W>) -> fmt::Result {
        fmt::Debug::fmt(&self.as_str(), f)
    }
}

/// Whether every byte is printable ASCII. The loop has no early exit, so that several bytes can be
/// tested at once.
pub fn is_printable(bytes: &[u8]) -> bool
    ensures { result ≡ list_all is_printable_byte bytes.now }
{
    let mut printable = true;
    for byte in bytes {
        printable = printable & (*byte >= 32) & (*byte <= 126);
    }
    printable
}

// Printable ASCII as a string.
fn ascii(bytes: &[u8]) -> &str
    requires { IsTrue (list_all is_printable_byte bytes.now) }
    ensures { result.now ≡ bytes.now }
{
    // SAFETY: ASCII is UTF-8.
    unsafe { from_utf8_unchecked(bytes) }
}
