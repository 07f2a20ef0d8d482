ghost use Rattle.std.specs.Prelude.{◌≡◌, ◌<◌, ◌++◌, [], false, length, IfOk, IfErr, OnOk, OnErr};
ghost use Rattle.csv.specs.Records.{fields_of, text_of};
ghost use Rattle.csv.specs.Writing.{needs_quotes};
ghost use Rattle.files.specs.Failure.{IsFailureAt, IsOfWriting};
ghost use Rattle.files.specs.Place.{IsNextNumber};
ghost use Rattle.files.specs.Sending.{Sends, Begins};
ghost use Rattle.files.specs.Written.{format, record_text};

use crate::marks::Marks;
use crate::{FileError, NewRecord, send};
use csv::{ByteRecord, WriterBuilder};
use std::alloc::{AllocError, Global};
use std::io::Write;
use std::marker::Model;
use std::mem;

// Gathered text is sent once it has at least this many bytes.
const CHUNK: usize = 65_536;

/// Gathers the text of records, each ended by one line feed, and sends it to a sink, many records at a
/// time. Only after `finish` is all that was written certain to be in the sink.
#[derive(Drop)]
pub struct RecordWriter {
    alloc: Global,
    // The text that has not been sent yet.
    text: Vec<u8>,
    // The number of records, including the current one.
    number: u64,
}

impl Model for RecordWriter {
    ghost use Rattle.files.specs.Written.{WriterView};

    ghost Value = { WriterView };

    ghost view = { λ w. record { text = w.text.items; number = w.number } };
}

impl RecordWriter {
    /// A writer that has no records yet.
    pub fn new(alloc: Global) -> Self
        ensures { result ≡ record { text = []; number = 0 } }
    {
        RecordWriter {
            alloc,
            text: Vec::new(alloc),
            number: 0,
        }
    }

    /// Writes the record. Returns `NoMemory` if an allocation fails. Returns `Failed`, with the number
    /// of this record, if the sink fails; since records are gathered before they are sent, the failure
    /// may concern earlier records. After an error, the sink has received a prefix of the text written
    /// so far, including this record, and the writer has nothing more to send.
    pub fn write<W: Write>(&mut self, sink: &mut W, row: &NewRecord) -> Result<(), FileError>
        ensures sent { OnOk result (Sends (W.contents sink.old) (W.contents sink.new)
            (self.old.text ++ record_text row.now) self.new.text) }
        ensures begun { OnErr result (Begins (W.contents sink.old) (W.contents sink.new)
            (self.old.text ++ record_text row.now)) }
        ensures none { OnErr result (self.new.text ≡ []) }
        ensures number { IsNextNumber self.old.number self.new.number }
        ensures faults { IfErr result (IsFailureAt self.new.number) }
        ensures writing { IfErr result IsOfWriting }
    {
        self.number = self.number.saturating_add(1);
        self.add(row.as_byte_record())?;
        if self.text.len() < CHUNK {
            return Ok(());
        }
        self.send_all(sink)
    }

    /// Sends all remaining text to the sink and flushes it. Its errors are those of `write`, with the
    /// number of the last record. After an error, the sink has received a prefix of what was written.
    pub fn finish<W: Write>(mut self, sink: &mut W) -> Result<(), FileError>
        ensures sent { OnOk result
            (Sends (W.contents sink.old) (W.contents sink.new) self.text []) }
        ensures begun { OnErr result
            (Begins (W.contents sink.old) (W.contents sink.new) self.text) }
        ensures faults { IfErr result (IsFailureAt self.number) }
        ensures writing { IfErr result IsOfWriting }
    {
        self.send_all(sink)?;
        match sink.flush() {
            Ok(()) => Ok(()),
            Err(_) => Err(FileError::Failed(self.number)),
        }
    }

    // Sends the gathered text.
    fn send_all<W: Write>(&mut self, sink: &mut W) -> Result<(), FileError>
        ensures sent { OnOk result
            (Sends (W.contents sink.old) (W.contents sink.new) self.old.text self.new.text) }
        ensures none { self.new.text ≡ [] }
        ensures begun { OnErr result
            (Begins (W.contents sink.old) (W.contents sink.new) self.old.text) }
        ensures number { self.new.number ≡ self.old.number }
        ensures faults { IfErr result (λ fault. fault ≡ FileError.Failed self.old.number) }
        ensures writing { IfErr result IsOfWriting }
    {
        let sent = send(sink, self.text.as_slice());
        self.text.clear();
        match sent {
            Ok(()) => Ok(()),
            Err(_) => Err(FileError::Failed(self.number)),
        }
    }

    // Gathers the record. After a failed allocation, nothing is gathered any more.
    fn add(&mut self, row: &ByteRecord) -> Result<(), AllocError>
        ensures added { OnOk result
            (self.new.text ≡ self.old.text ++ record_text (fields_of row.now)) }
        ensures none { OnErr result (self.new.text ≡ []) }
        ensures number { self.new.number ≡ self.old.number }
    {
        let text = mem::replace(&mut self.text, Vec::new(self.alloc));
        self.text = if row.len() > 1 && !needs_quotes(row.as_slice()) {
            with_plain(text, row)?
        } else {
            with_any(text, row)?
        };
        Ok(())
    }
}

// Whether the bytes contain a comma, a quotation mark or a line end. A field that contains one needs
// quotation marks.
fn needs_quotes(bytes: &[u8]) -> bool
    ensures { result ≡ needs_quotes format bytes.now }
{
    let mut at = 0;
    let mut marks = Marks::new();
    while let Some(place) = marks.next(bytes, at) {
        if matches!(bytes[place], b',' | b'"' | b'\r' | b'\n') {
            return true;
        }
        at = place + 1;
    }
    false
}

// The text followed by a record that has several fields, none of which needs quotation marks.
fn with_plain(mut text: Vec<u8>, row: &ByteRecord) -> Result<Vec<u8>, AllocError>
    requires several { 1 < length (fields_of row.now) }
    requires plain { needs_quotes format (text_of row.now) ≡ false }
    ensures { IfOk result (λ longer. longer.items ≡ text.items ++ record_text (fields_of row.now)) }
{
    let mut place = 0;
    while let Some(field) = row.get(place) {
        if place > 0 {
            text.push(b',')?;
        }
        text.extend_from_slice(field)?;
        place += 1;
    }
    text.push(b'\n')?;
    Ok(text)
}

// The text followed by any record. A writer of `csv` contains a buffer of 8 KiB, and a function that
// makes one clears the buffer on every call. So this is not part of `write`.
#[inline(never)]
fn with_any(text: Vec<u8>, row: &ByteRecord) -> Result<Vec<u8>, AllocError>
    ensures { IfOk result (λ longer. longer.items ≡ text.items ++ record_text (fields_of row.now)) }
{
    let mut writer = WriterBuilder::new().flexible(true).from_writer(text);
    if writer.write_byte_record(row).is_err() {
        return Err(AllocError);
    }
    match writer.into_inner() {
        Ok(text) => Ok(text),
        Err(_) => Err(AllocError),
    }
}
