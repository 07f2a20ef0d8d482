use crate::escaped::Escaped;
use crate::trouble::Trouble;
use files::Input;
use std::io;
use std::io::Write;

// The bytes between two reports.
const STRIDE: u64 = 16_000_000;

/// Shows on a terminal how much of a large file was read or written.
#[derive(Drop)]
pub struct Meter<'a, W> {
    path: &'a str,
    // What is done with the file: `read` or `written`.
    done: &'static str,
    // Where it is shown, if anywhere.
    terminal: Option<W>,
    bytes: u64,
    // How many bytes there were at the last report.
    reported: u64,
}

impl<'a, W: Write + Drop> Meter<'a, W> {
    /// A meter of the file of that path. It shows on `terminal` how much was `done`, which is `read` or `written`.
    pub fn new(path: &'a str, done: &'static str, terminal: Option<W>) -> Self {
        Meter {
            path,
            done,
            terminal,
            bytes: 0,
            reported: 0,
        }
    }

    /// Counts bytes, and reports after each 16,000,000 or more. An error in printing is ignored.
    pub fn count(&mut self, bytes: u64) {
        self.bytes = self.bytes.saturating_add(bytes);
        if self.bytes.saturating_sub(self.reported) >= STRIDE {
            self.print("");
            self.reported = self.bytes;
        }
    }

    /// Ends the line of the reports, if one was printed.
    pub fn end(&mut self) {
        if self.reported > 0 {
            self.print("\n");
            self.reported = 0;
            self.bytes = 0;
        }
    }

    fn print(&mut self, end: &str) {
        let Some(terminal) = &mut self.terminal else {
            return;
        };
        let path = Escaped(self.path);
        let megabytes = self.bytes / 1_000_000;
        let done = self.done;
        let _ = write!(terminal, "\rtpcc: {path}: {megabytes} MB {done}{end}");
    }
}

/// A reader that shows its progress on a terminal and notes the system's errors.
#[derive(Drop)]
pub struct ProgressReader<'a, R, W> {
    source: R,
    meter: Meter<'a, W>,
    trouble: &'a Trouble,
}

impl<'a, R: Input + Drop, W: Write + Drop> ProgressReader<'a, R, W> {
    pub fn new(source: R, meter: Meter<'a, W>, trouble: &'a Trouble) -> Self {
        ProgressReader {
            source,
            meter,
            trouble,
        }
    }
}

impl<R: Input + Drop, W: Write + Drop> Input for ProgressReader<'_, R, W> {
    ghost remaining = { λ reader. R.remaining reader.source };

    ghost lasts = { λ reader. R.lasts reader.source };

    fn read(&mut self, buf: &mut [u8]) -> io::Result<usize> {
        match self.source.read(buf) {
            Ok(0) => {
                self.meter.end();
                Ok(0)
            }
            Ok(count) => {
                self.meter.count(count as u64);
                Ok(count)
            }
            Err(error) => {
                self.trouble.note(&error);
                Err(error)
            }
        }
    }
}

/// A writer that notes the system's errors.
#[derive(Drop)]
pub struct NotingWriter<'a, W> {
    sink: W,
    trouble: &'a Trouble,
}

impl<'a, W: Write + Drop> NotingWriter<'a, W> {
    pub fn new(sink: W, trouble: &'a Trouble) -> Self {
        NotingWriter { sink, trouble }
    }
}

impl<W: Write + Drop> Write for NotingWriter<'_, W> {
    fn write(&mut self, buf: &[u8]) -> io::Result<usize> {
        match self.sink.write(buf) {
            Ok(count) => Ok(count),
            Err(error) => {
                self.trouble.note(&error);
                Err(error)
            }
        }
    }

    fn flush(&mut self) -> io::Result<()> {
        self.sink.flush()
    }
}
