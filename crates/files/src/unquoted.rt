ghost use Rattle.std.specs.Prelude.{◌≡◌, ◌≤◌, [], length, true, false, Ok, OnOk, IsTrue, ◌↔◌};
ghost use Rattle.csv.specs.Machine as Machine;
ghost use Rattle.csv.specs.Reading.{default_config};
ghost use Rattle.files.specs.Line.{IsBetween, is_in_record};
ghost use Rattle.files.specs.Span.{record_size, AddsSpan};
ghost use Rattle.files.specs.Unquoted.{machine_state, machine_step, fields_ended, field_begun, size_so_far, Feeds, IsInTurn};

use crate::line;
use crate::span::Span;
use crate::window::MOST_BYTES;
use std::alloc::{AllocError, Global};

/// The position within a record.
#[derive(Clone, Copy, Debug, PartialEq, Eq)]
pub enum State {
    /// Before the record's first byte.
    StartRecord,
    /// Before the record's first byte, after a carriage return.
    AfterReturn,
    /// Before the first byte of a field.
    StartField,
    /// In a field without quotation marks around it.
    InField,
    /// In a field, after its opening quotation mark.
    InQuoted,
    /// After a quotation mark in a quoted field. It ends the field or is the first of two.
    AfterQuote,
}

/// What a byte does.
#[derive(Clone, Copy, Debug, PartialEq, Eq)]
pub enum Action {
    /// It is not part of the field.
    Skip,
    /// It is part of the field.
    Copy,
    /// It ends the field.
    EndField,
    /// It ends the field and the record.
    EndRecord,
}

// The state after a byte, and what the byte does.
fn step(state: State, byte: u8) -> (State, Action)
    ensures { machine_step result ≡ Machine.step default_config (machine_state state) byte }
{
    match state {
        State::InQuoted => match byte {
            b'"' => (State::AfterQuote, Action::Skip),
            _ => (State::InQuoted, Action::Copy),
        },
        State::AfterQuote if byte == b'"' => (State::InQuoted, Action::Copy),
        State::StartField if byte == b'"' => (State::InQuoted, Action::Skip),
        State::StartRecord | State::AfterReturn => first_step(byte),
        _ => field_step(byte),
    }
}

// The step from before the first byte of a record.
fn first_step(byte: u8) -> (State, Action)
    ensures { machine_step result ≡ Machine.start_record default_config byte }
{
    match byte {
        b'\n' | b'\r' => (State::StartRecord, Action::Skip),
        b'"' => (State::InQuoted, Action::Skip),
        _ => field_step(byte),
    }
}

// The step in a field, or before its first byte if that is not a quotation mark.
fn field_step(byte: u8) -> (State, Action)
    ensures { machine_step result ≡ Machine.in_field default_config byte }
{
    match byte {
        b',' => (State::StartField, Action::EndField),
        b'\n' => (State::StartRecord, Action::EndRecord),
        b'\r' => (State::AfterReturn, Action::EndRecord),
        _ => (State::InField, Action::Copy),
    }
}

/// A record without its quotation marks, as far as it has been read. The spans of its fields are stored
/// separately.
#[derive(Drop)]
pub struct Unquoted {
    pub state: State,
    /// The bytes of the fields, one field after the other.
    pub bytes: Vec<u8>,
    /// The index at which the current field begins.
    pub from: usize,
}

/// The result of a byte.
#[derive(Clone, Copy, Debug, PartialEq, Eq)]
pub enum Fed {
    /// The record continues.
    GoesOn,
    /// The record has ended.
    Ends,
    /// The record has more bytes than the limit.
    TooLong,
}

impl Unquoted {
    /// No bytes of a record yet.
    pub fn new(alloc: Global) -> Self {
        Unquoted {
            state: State::StartRecord,
            bytes: Vec::new(alloc),
            from: 0,
        }
    }

    /// Begins a record and reuses the memory.
    pub fn restart(&mut self, spans: &mut Vec<Span>)
        ensures in_turn { IsInTurn self.new spans.new.items }
        ensures state { self.new.state ≡ State.StartRecord }
        ensures none_ended { fields_ended self.new spans.new.items ≡ [] }
        ensures none_begun { field_begun self.new ≡ [] }
    {
        self.state = State::StartRecord;
        self.bytes.clear();
        self.from = 0;
        spans.clear();
    }

    /// Whether the record has begun.
    pub fn is_begun(&self) -> bool
        ensures { result ≡ is_in_record (machine_state self.now.state) }
    {
        match self.state {
            State::StartRecord | State::AfterReturn => false,
            _ => true,
        }
    }

    /// Whether the record exceeds the limit of 65,536 bytes once its current field ends.
    pub fn is_too_long(&self, spans: &Vec<Span>) -> bool
        ensures { IsTrue result ↔ (65536 ≤ size_so_far self.now spans.now.items) }
    {
        self.bytes.len().saturating_add(spans.len()) >= MOST_BYTES
    }

    /// Processes the next byte. Returns `AllocError` if an allocation fails.
    pub fn feed(&mut self, byte: u8, spans: &mut Vec<Span>) -> Result<Fed, AllocError>
        requires { IsInTurn self.old spans.old.items }
        ensures goes_on { result ≡ Ok Fed.GoesOn → IsInTurn self.new spans.new.items
            × Feeds self.old spans.old.items byte self.new spans.new.items false }
        ensures ends { result ≡ Ok Fed.Ends → IsBetween (machine_state self.new.state)
            × (record_size (fields_ended self.new spans.new.items) ≤ 65536)
            × Feeds self.old spans.old.items byte self.new spans.new.items true }
        ensures too_long { result ≡ Ok Fed.TooLong → 65536 ≤ size_so_far self.old spans.old.items }
    {
        if self.is_too_long(spans) {
            return Ok(Fed::TooLong);
        }
        let (state, action) = step(self.state, byte);
        self.state = state;
        match action {
            Action::Skip => Ok(Fed::GoesOn),
            Action::Copy => match self.bytes.push(byte) {
                Ok(()) => Ok(Fed::GoesOn),
                Err(_) => Err(AllocError),
            },
            Action::EndField => match self.end_field(spans) {
                Ok(()) => Ok(Fed::GoesOn),
                Err(error) => Err(error),
            },
            Action::EndRecord => match self.end_field(spans) {
                Ok(()) => Ok(Fed::Ends),
                Err(error) => Err(error),
            },
        }
    }

    /// Ends the current field.
    pub fn end_field(&mut self, spans: &mut Vec<Span>) -> Result<(), AllocError>
        ensures ended { OnOk result
            (AddsSpan spans.old.items spans.new.items self.old.from (length self.old.bytes.items)) }
        ensures same { OnOk result
            (self.new ≡ record self.old { from = length self.old.bytes.items }) }
    {
        let to = self.bytes.len();
        line::add(spans, self.from, to)?;
        self.from = to;
        Ok(())
    }
}
