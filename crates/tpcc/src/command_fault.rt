ghost use Rattle.tpcc.specs.declared.command_fault.CommandFault.TheVariants.{NoMemory};
ghost use Rattle.std.specs.Prelude.{◌≡◌};

use crate::escaped::Escaped;
use command_line::Status;
use engine::ServeFault;
use files::{FileError, FileFault};
use std::alloc::{AllocError, AllocFailed};
use std::fmt;
use thiserror::Error;

/// The fault number of a failure to read or write. The faults of texts are 1 to 9.
const FAILED: u8 = 10;

/// Why a command ended early.
#[derive(Clone, Copy, Debug, Drop, Error, PartialEq, Eq)]
pub enum CommandFault<'a> {
    NoMemory,
    /// The text of the file of that path has a fault.
    File { path: &'a str, fault: FileFault },
    /// Reading or writing the file of that path failed at this record, counted from 1. Record 0: the file can't be
    /// opened, made, brought to the disk or given its name, or help or the version can't be printed.
    Failed { path: &'a str, record: u64 },
    /// The tables of the dataset break this condition of consistency; it is the least that they break.
    NotConsistent(u8),
    /// The move at this place, from 0, is impossible, and it is the first: its range ends before it begins, or one of
    /// its numbers is out of range.
    BadMove(usize),
    /// The dataset has no warehouse of this number.
    NoWarehouse(u32),
    /// A thread could not be started.
    NoThread,
    /// A session, a slice or a claim had not come back when all executors had ended.
    Unsettled,
    /// The tables were asked for while a transaction was active, or a move outstanding.
    NotIdle,
}

impl<'a> CommandFault<'a> {
    ghost use Rattle.std.specs.Prelude.{◌≡◌};
    ghost use Rattle.tpcc.specs.Faults.{status_of, fault_of_file, fault_of_serving};

    /// The fault of a file that can't be opened, made, brought to the disk or given its name, or of the standard output
    /// if help or the version can't be printed.
    pub fn not_opened(path: &'a str) -> CommandFault<'a>
        ensures { result ≡ CommandFault.Failed path.entry 0 }
    {
        CommandFault::Failed { path, record: 0 }
    }

    /// The fault of this error in the file of that path.
    pub fn of_file(path: &'a str, error: FileError) -> CommandFault<'a>
        ensures { result ≡ fault_of_file path.entry error }
    {
        match error {
            FileError::NoMemory => CommandFault::NoMemory,
            FileError::Failed(record) => CommandFault::Failed { path, record },
            FileError::File(fault) => CommandFault::File { path, fault },
        }
    }

    /// The fault of a run whose scripts were not served.
    pub fn of_serving(fault: ServeFault) -> CommandFault<'a>
        ensures { result ≡ fault_of_serving fault }
    {
        match fault {
            ServeFault::NoMemory => CommandFault::NoMemory,
            ServeFault::NotConsistent(number) => CommandFault::NotConsistent(number),
            ServeFault::BadMove(place) => CommandFault::BadMove(place),
            ServeFault::NoThread => CommandFault::NoThread,
            ServeFault::Unsettled => CommandFault::Unsettled,
        }
    }

    /// The exit status of the program after this fault.
    pub fn status(self) -> Status
        ensures { result ≡ status_of self.entry }
    {
        match self {
            CommandFault::NoMemory => Status::NoMemory,
            CommandFault::File { .. }
            | CommandFault::Failed { .. }
            | CommandFault::BadMove(_)
            | CommandFault::NoThread
            | CommandFault::Unsettled
            | CommandFault::NotIdle => Status::Failed,
            CommandFault::NoWarehouse(_) => Status::Usage,
            CommandFault::NotConsistent(_) => Status::NotConsistent,
        }
    }
}

impl fmt::Display for CommandFault<'_> {
    ghost use Rattle.std.specs.Prelude.{Some};
    ghost use Rattle.tpcc.specs.Faults.{reported_text};

    ghost output = { λ fault. Some (reported_text fault) };

    fn fmt<W: fmt::Write>(&self, f: &mut fmt::Formatter<W>) -> fmt::Result {
        match self {
            CommandFault::NoMemory => f.write_str("no memory"),
            CommandFault::File { path, fault } => {
                let path = Escaped(path);
                write!(f, "{path}: {fault}")
            }
            CommandFault::Failed { path, record } => {
                let path = Escaped(path);
                write!(f, "{path}: row {record}: fault {FAILED}")
            }
            CommandFault::NotConsistent(number) => write!(f, "not consistent: {number}"),
            CommandFault::BadMove(place) => write!(f, "bad move: {place}"),
            CommandFault::NoWarehouse(number) => write!(f, "no warehouse: {number}"),
            CommandFault::NoThread => f.write_str("no thread"),
            CommandFault::Unsettled => f.write_str("unsettled"),
            CommandFault::NotIdle => f.write_str("not idle"),
        }
    }
}

impl<T: Drop> From<AllocFailed<T>> for CommandFault<'_> {
    ghost from_gives = { λ _ fault. fault ≡ NoMemory };

    fn from(_error: AllocFailed<T>) -> Self {
        CommandFault::NoMemory
    }
}

impl From<AllocError> for CommandFault<'_> {
    ghost from_gives = { λ _ fault. fault ≡ NoMemory };

    fn from(_error: AllocError) -> Self {
        CommandFault::NoMemory
    }
}
