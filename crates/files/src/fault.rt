ghost use Rattle.std.specs.Prelude.{◌≡◌};
ghost use Rattle.files.specs.Fault.{fault_number, least_fault};
ghost use Rattle.files.specs.declared.fault.FileError.TheVariants.{NoMemory};

use std::alloc::AllocError;
use std::fmt;
use thiserror::Error;

/// A kind of fault in the text of a file. If a record has several faults, the least is reported, in
/// this order.
#[derive(Clone, Copy, Debug, Drop, Error, PartialEq, Eq)]
pub enum FaultKind {
    #[error("the header record is missing or not of this format")]
    NoHeader,
    #[error("a record has an unknown letter or a wrong number of fields")]
    WrongShape,
    #[error("a field is not a number, moment or text of its kind")]
    NotOfKind,
    #[error("a value is out of its column's range")]
    OutOfRange,
    #[error("a record is out of order, or a key occurs twice")]
    OutOfOrder,
    #[error("a table has a row too few or too many, or a row refers to a row that does not exist")]
    ScaleBroken,
    #[error("the end record is missing")]
    NoEnd,
    #[error("a count in the end record is wrong")]
    WrongCount,
    #[error("a record follows the end record")]
    AfterEnd,
}

impl FaultKind {
    /// The number by which the program reports the fault, from 1 to 9.
    pub fn number(self) -> u8
        ensures { result ≡ fault_number self }
    {
        match self {
            FaultKind::NoHeader => 1,
            FaultKind::WrongShape => 2,
            FaultKind::NotOfKind => 3,
            FaultKind::OutOfRange => 4,
            FaultKind::OutOfOrder => 5,
            FaultKind::ScaleBroken => 6,
            FaultKind::NoEnd => 7,
            FaultKind::WrongCount => 8,
            FaultKind::AfterEnd => 9,
        }
    }

    /// The lesser of two faults of one record, which is the one reported.
    pub fn least(self, other: FaultKind) -> FaultKind
        ensures { result ≡ least_fault self other }
    {
        if self.number() <= other.number() {
            self
        } else {
            other
        }
    }
}

/// A fault of a file's text, and the record that has it.
#[derive(Clone, Copy, Debug, Drop, Error, PartialEq, Eq)]
pub struct FileFault {
    pub kind: FaultKind,
    /// From 1.
    pub record: u64,
}

impl fmt::Display for FileFault {
    ghost use Rattle.std.specs.Prelude.{Some};
    ghost use Rattle.files.specs.Fault.{fault_text};

    ghost output = { λ fault. Some (fault_text (fault_number fault.kind) fault.«record») };

    fn fmt<W: fmt::Write>(&self, f: &mut fmt::Formatter<W>) -> fmt::Result {
        let record = self.record;
        let number = self.kind.number();
        write!(f, "row {record}: fault {number}")
    }
}

/// Why a file was not read, or was not written to its end.
#[derive(Clone, Copy, Debug, Drop, Error, PartialEq, Eq)]
pub enum FileError {
    /// An allocation for the file's contents or for a record failed.
    #[error("no memory")]
    NoMemory,
    /// Reading or writing failed at the record with this number, from 1.
    #[error("reading or writing failed at record {0}")]
    Failed(u64),
    /// The file's text has a fault.
    #[error(transparent)]
    File(FileFault),
}

impl From<AllocError> for FileError {
    ghost from_gives = { λ _ fault. fault ≡ NoMemory };

    fn from(_error: AllocError) -> FileError {
        FileError::NoMemory
    }
}
