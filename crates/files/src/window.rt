ghost use Rattle.std.specs.Prelude.{◌≡◌, ℕ, ◌+◌, ◌≤◌, ◌<◌, List, [], ◌++◌, length, drop, IfOk, OnErr, IsOk};
ghost use Rattle.std.specs.Io.KnownBytes.{Keeps, Consumes, IsAtEnd};

use crate::input::Input;
use std::io;

/// The number of bytes of a file that are in memory at a time, and the greatest size of a record.
pub const MOST_BYTES: usize = 65_536;

/// Bytes of a file. Those from `start` to `end` have been read and not yet taken.
#[derive(Drop)]
pub struct Window {
    bytes: [u8; MOST_BYTES],
    start: usize,
    end: usize,
    ghost ordered: { start ≤ end },
    ghost within: { end ≤ 65536 },
}

impl Window {
    ghost use Rattle.files.specs.Window.{items, room};

    /// No bytes.
    pub fn new() -> Window
        ensures { items result ≡ [] }
    {
        Window {
            bytes: [0; MOST_BYTES],
            start: 0,
            end: 0,
        }
    }

    /// The bytes that have been read and not yet taken.
    pub fn as_slice(&self) -> &[u8]
        ensures value { result.now ≡ items self.now }
        ensures fits { length result.now ≤ 65536 }
    {
        &self.bytes[self.start..self.end]
    }

    /// Takes the first `count` bytes.
    pub fn consume(&mut self, count: usize)
        requires { count ≤ length (items self.old) }
        ensures { items self.new ≡ drop count (items self.old) }
    {
        self.start += count;
    }

    /// Moves the bytes to the front, so that all free room is after them.
    pub fn move_to_front(&mut self)
        ensures items { items self.new ≡ items self.old }
        ensures room { room self.new + length (items self.new) ≡ 65536 }
    {
        let (start, end) = (self.start, self.end);
        self.bytes.copy_within(start..end, 0);
        self.start = 0;
        self.end = end - start;
    }

    /// Reads once, into the free room after the bytes. Returns the number of bytes read.
    pub fn read_from<R: Input>(&mut self, reader: &mut R) -> io::Result<usize>
        ensures ok { IfOk result (λ n. (more : List ℕ) × (length more ≡ n)
            × (items self.new ≡ items self.old ++ more)
            × Consumes (R.remaining reader.old) (R.remaining reader.new) more) }
        ensures end { IfOk result (λ n. n ≡ 0 → 0 < room self.old
            → IsAtEnd (R.remaining reader.new)) }
        ensures err { OnErr result ((items self.new ≡ items self.old)
            × Keeps (R.remaining reader.old) (R.remaining reader.new)) }
        ensures lasts { R.lasts reader.old → IsOk result × R.lasts reader.new }
    {
        let end = self.end;
        let count = reader.read(&mut self.bytes[end..])?;
        self.end = end + count;
        Ok(count)
    }
}
