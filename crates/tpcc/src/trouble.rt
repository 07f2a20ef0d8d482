use crate::command_fault::CommandFault;
use std::cell::Cell;
use std::io;
use std::io::ErrorKind;

/// The system's last error in opening, making, reading or writing a file, for the report of the fault.
#[derive(Drop)]
pub struct Trouble {
    // The system's number of the error.
    code: Cell<Option<i32>>,
    // The number of the other name under which a complete file was left.
    left: Cell<Option<u32>>,
}

impl Trouble {
    pub fn new() -> Trouble {
        Trouble {
            code: Cell::new(None),
            left: Cell::new(None),
        }
    }

    /// Notes the system's error.
    pub fn note(&self, error: &io::Error) {
        self.code.set(error.raw_os_error());
    }

    /// The number of the system's last error, if one was noted.
    pub fn code(&self) -> Option<i32> {
        self.code.get()
    }

    /// Notes that a complete file was left under its other name of that number.
    pub fn note_left(&self, number: u32) {
        self.left.set(Some(number));
    }

    /// The number of the other name under which a complete file was left, if one was.
    pub fn left(&self) -> Option<u32> {
        self.left.get()
    }

    /// The file, or the fault of a file that can't be opened or made.
    pub fn opened<'a, F>(&self, path: &'a str, file: io::Result<F>) -> Result<F, CommandFault<'a>> {
        match file {
            Ok(file) => Ok(file),
            Err(error) => Err(self.not_opened(path, &error)),
        }
    }

    /// Notes the error and returns the fault of a file that can't be opened or made, or of the standard output if help
    /// or the version can't be printed: `NoMemory` if the error is out of memory, otherwise `Failed` at record 0.
    pub fn not_opened<'a>(&self, path: &'a str, error: &io::Error) -> CommandFault<'a> {
        self.note(error);
        match error.kind() {
            ErrorKind::OutOfMemory => CommandFault::NoMemory,
            _ => CommandFault::not_opened(path),
        }
    }
}
