ghost use Rattle.std.specs.Prelude.{ℕ, List, Option, Some, ⊤, IsOk};
ghost use Rattle.std.specs.Io.{ReadsAtMost};
ghost use Rattle.std.specs.Io.KnownBytes.{ReadConsumes};

use std::io;
use std::io::Read;

/// A source of a file's text. It reads like `Read`, and contracts can state that no read of it fails.
pub trait Input {
    // The bytes that the reads from here on return, if they are known.
    ghost remaining: { Self → Option (List ℕ) };

    // No read fails from here on.
    ghost lasts: { Self → Type 0 };

    /// Reads the next bytes, as many as are available and fit into `buf`. Returns their number, 0 at
    /// the end.
    fn read(&mut self, buf: &mut [u8]) -> io::Result<usize>
        ensures bound { ReadsAtMost result buf.new }
        ensures bytes { ReadConsumes (remaining self.old) (remaining self.new) result buf.new }
        ensures lasts { lasts self.old → IsOk result × lasts self.new };
}

impl<R: Input> Input for &mut R {
    ghost remaining = { λ r. R.remaining r.now };

    ghost lasts = { λ r. R.lasts r.now };

    fn read(&mut self, buf: &mut [u8]) -> io::Result<usize> {
        Input::read(&mut **self, buf)
    }
}

/// A text in memory. No read of it fails.
impl Input for &[u8] {
    ghost remaining = { λ text. Some text.now };

    ghost lasts = { λ _. ⊤ };

    fn read(&mut self, buf: &mut [u8]) -> io::Result<usize> {
        Read::read(self, buf)
    }
}

/// Any reader. A read of it may fail.
#[derive(Drop)]
pub struct Reader<R> {
    pub source: R,
}

impl<R: Read> Input for Reader<R> {
    ghost remaining = { λ reader. R.remaining reader.source };

    ghost lasts = { λ _. ⊥ };

    fn read(&mut self, buf: &mut [u8]) -> io::Result<usize> {
        self.source.read(buf)
    }
}
