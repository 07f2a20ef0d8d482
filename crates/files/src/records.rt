ghost use Rattle.std.specs.Prelude.{◌≡◌, ℕ, List, [], Option, None, true, false, IfOk, IfErr, OnOk};
ghost use Rattle.std.specs.Io.KnownBytes.{IsAtEnd};
ghost use Rattle.std.specs.Option.{ForSome};
ghost use Rattle.files.specs.Failure.{IfTooLong, IsNoFailure, IsOfText, LastsThrough};
ghost use Rattle.files.specs.Taken.{fields_left, fault_of};
ghost use Rattle.files.specs.Line.{BeginsRecord, IsOpen};
ghost use Rattle.files.specs.Source.{ahead, at_hand, is_begun, EndsUnlessFull};
ghost use Rattle.files.specs.Unquoted.{IsInTurn};

use crate::input::Input;
use crate::line::{Line, add, cut_line};
use crate::source::Source;
use crate::span::Span;
use crate::stop::Stop;
use crate::unquoted::{Fed, Unquoted};
use crate::{FaultKind, Fields, FileError, FileFault};
use std::alloc::Global;

/// The records of a file, in order, with their numbers from 1. Blank lines and a byte order mark at the
/// front are not records.
#[derive(Drop)]
pub struct Records<R> {
    source: Source<R>,
    // How many of the bytes in memory belong to the current record and its line end. The fields of the
    // record are among them. If the record has quotation marks, its fields are among the bytes of
    // `unquoted`, and this number is 0.
    taken: usize,
    spans: Vec<Span>,
    unquoted: Unquoted,
    is_quoted: bool,
    number: u64,
}

impl<R: Input> Records<R> {
    ghost use Rattle.files.specs.Place.{Rows, input, record_number, record_fields, text_left, file_fault, ForRecords, IsCsv, HasRead, HasLeft, IsErrorAt, IsKept, IsNext, IsNextNumber, IsUnquoting, NextIsTooLong, NextLeftIsTooLong, ReadsOn, TakesNext};

    /// The records of `source`, before the first one.
    pub fn new(alloc: Global, source: R) -> Self
        ensures number { record_number result ≡ 0 }
        ensures input { input result ≡ source }
        ensures none_read { ForSome (R.remaining source)
            (λ text. HasRead R.remaining text [] result) }
        ensures all_left { ForRecords (R.remaining source)
            (λ rows. HasLeft R.remaining rows result) }
    {
        Records {
            source: Source::new(source),
            taken: 0,
            spans: Vec::new(alloc),
            unquoted: Unquoted::new(alloc),
            is_quoted: false,
            number: 0,
        }
    }

    /// Reads the next record and returns whether there is one. Returns `Failed`, with the record's
    /// number, if a read of the source fails. Returns the fault `WrongShape` if the record has more
    /// than 65,536 bytes, and does not keep it; the size counts the fields without the quotation marks
    /// around them, plus one byte for the end of each. Returns `NoMemory` if an allocation fails. After
    /// an error, nothing is guaranteed about later records.
    pub fn advance(&mut self) -> Result<bool, FileError>
        ensures reads { IfOk result (λ found. ReadsOn R.remaining found self.old self.new) }
        ensures reads_next { IfOk result (λ found. TakesNext R.remaining found self.old self.new) }
        ensures kept { IfOk result (λ found. found ≡ true → IsKept (record_fields self.new)) }
        ensures number { IsNextNumber (record_number self.old) (record_number self.new) }
        ensures faults { IfErr result (IsErrorAt FaultKind.WrongShape (record_number self.new)) }
        ensures too_long { IfErr result (λ fault.
            fault ≡ file_fault FaultKind.WrongShape (record_number self.new)
            → NextLeftIsTooLong R.remaining self.old) }
        ensures lasts { LastsThrough R.lasts (input self.old) (input self.new) result IsOfText }
    {
        match self.next_record() {
            Ok(found) => Ok(found),
            Err(Stop::NoMemory) => Err(FileError::NoMemory),
            Err(Stop::Unreadable) => Err(FileError::Failed(self.number)),
            Err(Stop::TooLong) => Err(self.fault(FaultKind::WrongShape)),
        }
    }

    /// Checks that no record is left. If there is one, returns the fault `AfterEnd`, whatever the
    /// record contains. `NoMemory` and `Failed` are returned as by `advance`.
    pub fn expect_end(&mut self) -> Result<(), FileError>
        ensures reads { OnOk result ((text : List ℕ) (rows : Rows)
            → HasRead R.remaining text rows self.old → IsCsv text rows) }
        ensures none_left { OnOk result ((rows : Rows)
            → HasLeft R.remaining rows self.old → rows ≡ []) }
        ensures number { IsNextNumber (record_number self.old) (record_number self.new) }
        ensures faults { IfErr result (IsErrorAt FaultKind.AfterEnd (record_number self.new)) }
        ensures after_end { IfErr result (λ fault.
            fault ≡ file_fault FaultKind.AfterEnd (record_number self.new)
            → HasLeft R.remaining [] self.old → ⊥) }
        ensures lasts { LastsThrough R.lasts (input self.old) (input self.new) result IsOfText }
    {
        match self.next_record() {
            Ok(false) => Ok(()),
            Ok(true) => Err(self.fault(FaultKind::AfterEnd)),
            Err(Stop::TooLong) => Err(self.fault(FaultKind::AfterEnd)),
            Err(Stop::NoMemory) => Err(FileError::NoMemory),
            Err(Stop::Unreadable) => Err(FileError::Failed(self.number)),
        }
    }

    // Reads the next record.
    fn next_record(&mut self) -> Result<bool, Stop>
        ensures next { IfOk result (λ found.
            IsNext R.remaining (text_left R.remaining self.old) found self.new) }
        ensures too_long { IfTooLong result (NextIsTooLong (text_left R.remaining self.old)) }
        ensures lasts { LastsThrough R.lasts (input self.old) (input self.new) result IsNoFailure }
        ensures number { IsNextNumber (record_number self.old) (record_number self.new) }
    {
        self.number = self.number.saturating_add(1);
        self.leave();
        self.source.begin()?;
        if self.source.skip_line_ends()? {
            self.cut()
        } else {
            Ok(false)
        }
    }

    // Takes the bytes of the current record.
    fn leave(&mut self)
        ensures left { text_left R.remaining self.new ≡ text_left R.remaining self.old }
        ensures none_taken { self.new.taken ≡ 0 }
        ensures number { record_number self.new ≡ record_number self.old }
        ensures behind { input self.new ≡ input self.old }
    {
        let taken = self.taken.min(self.source.at_hand().len());
        self.source.consume(taken);
        self.taken = 0;
    }

    // Finds the fields of the record whose first byte is in memory.
    fn cut(&mut self) -> Result<bool, Stop>
        requires first { BeginsRecord (at_hand self.old.source) }
        requires none_taken { self.old.taken ≡ 0 }
        requires begun { is_begun self.old.source ≡ true }
        ensures next { IfOk result (λ found.
            IsNext R.remaining (ahead R.remaining self.old.source) found self.new) }
        ensures too_long { IfTooLong result (NextIsTooLong (ahead R.remaining self.old.source)) }
        ensures lasts { LastsThrough R.lasts (input self.old) (input self.new) result IsNoFailure }
        ensures number { record_number self.new ≡ record_number self.old }
    {
        self.is_quoted = false;
        for _ in 0..u64::MAX {
            match cut_line(self.source.at_hand(), &mut self.spans)? {
                Line::Ends(count) => {
                    self.taken = count;
                    return Ok(true);
                }
                Line::Quoted => return self.unquote(),
                Line::Open(from) => {
                    if !self.source.more()? {
                        return self.cut_last(from);
                    }
                }
            }
        }
        Err(Stop::NoMemory)
    }

    // Ends the last record, which has no line end. Its last field begins at `from`.
    fn cut_last(&mut self, from: usize) -> Result<bool, Stop>
        requires open { IsOpen (at_hand self.old.source) self.old.spans.items from }
        requires plain { self.old.is_quoted ≡ false }
        requires begun { is_begun self.old.source ≡ true }
        requires ended { EndsUnlessFull R.remaining self.old.source }
        ensures next { IfOk result (λ found.
            IsNext R.remaining (ahead R.remaining self.old.source) found self.new) }
        ensures too_long { IfTooLong result (NextIsTooLong (ahead R.remaining self.old.source)) }
        ensures lasts { LastsThrough R.lasts (input self.old) (input self.new) result IsNoFailure }
        ensures number { record_number self.new ≡ record_number self.old }
    {
        if self.source.is_full() {
            return Err(Stop::TooLong);
        }
        let count = self.source.at_hand().len();
        add(&mut self.spans, from, count)?;
        self.taken = count;
        Ok(true)
    }

    // Reads the record whose first byte is in memory, byte by byte.
    fn unquote(&mut self) -> Result<bool, Stop>
        requires none_taken { self.old.taken ≡ 0 }
        requires begun { is_begun self.old.source ≡ true }
        ensures next { IfOk result (λ found.
            IsNext R.remaining (ahead R.remaining self.old.source) found self.new) }
        ensures too_long { IfTooLong result (NextIsTooLong (ahead R.remaining self.old.source)) }
        ensures lasts { LastsThrough R.lasts (input self.old) (input self.new) result IsNoFailure }
        ensures number { record_number self.new ≡ record_number self.old }
    {
        self.is_quoted = true;
        self.unquoted.restart(&mut self.spans);
        for _ in 0..u64::MAX {
            match self.source.next_byte() {
                Some(byte) => match self.unquoted.feed(byte, &mut self.spans)? {
                    Fed::GoesOn => {}
                    Fed::Ends => return Ok(true),
                    Fed::TooLong => return Err(Stop::TooLong),
                },
                None => {
                    if !self.source.more()? {
                        return self.unquote_last();
                    }
                }
            }
        }
        Err(Stop::NoMemory)
    }

    // Ends the last record, if it has begun.
    fn unquote_last(&mut self) -> Result<bool, Stop>
        requires in_turn { IsInTurn self.old.unquoted self.old.spans.items }
        requires quoted { self.old.is_quoted ≡ true }
        requires none_taken { self.old.taken ≡ 0 }
        requires begun { is_begun self.old.source ≡ true }
        requires none_left { at_hand self.old.source ≡ [] }
        requires ended { IsAtEnd (R.remaining self.old.source.reader) }
        ensures next { IfOk result (λ found. (before : Option (List ℕ))
            → IsUnquoting R.remaining before self.old → IsNext R.remaining before found self.new) }
        ensures too_long { IfTooLong result ((before : Option (List ℕ))
            → IsUnquoting R.remaining before self.old → NextIsTooLong before) }
        ensures lasts { LastsThrough R.lasts (input self.old) (input self.new) result IsNoFailure }
        ensures number { record_number self.new ≡ record_number self.old }
    {
        if self.unquoted.is_too_long(&self.spans) {
            return Err(Stop::TooLong);
        }
        if !self.unquoted.is_begun() {
            return Ok(false);
        }
        self.unquoted.end_field(&mut self.spans)?;
        Ok(true)
    }

    /// The number of the current record; after the last record, the number after it.
    pub fn number(&self) -> u64
        ensures { result ≡ record_number self.now }
    {
        self.number
    }

    /// The fields of the current record.
    pub fn fields(&self) -> Fields<'_>
        ensures left { fields_left result ≡ record_fields self.now }
        ensures fault { fault_of result ≡ None }
    {
        if self.is_quoted {
            Fields::new(self.unquoted.bytes.as_slice(), self.spans.as_slice())
        } else {
            Fields::new(self.source.at_hand(), self.spans.as_slice())
        }
    }

    /// The fault of that kind at the current record.
    pub fn fault(&self, kind: FaultKind) -> FileError
        ensures { result ≡ file_fault kind (record_number self.now) }
    {
        FileError::File(FileFault {
            kind,
            record: self.number,
        })
    }
}
