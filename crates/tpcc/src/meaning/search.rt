use crate::meaning::spelling::Spelling;
use files::{FaultKind, Fields};

/// Searches a faulty record from left to right for the first field that has the record's fault, by what each field
/// should be.
#[derive(Drop)]
pub struct Search<'r> {
    fields: Fields<'r>,
    fault: FaultKind,
    // How many fields were taken.
    taken: usize,
    found: Option<Found>,
}

/// The first field that has the record's fault.
#[derive(Clone, Copy, Debug)]
pub struct Found {
    /// Counted from 1. The record may lack this field.
    pub place: usize,
    pub name: &'static str,
    pub spelling: Spelling,
}

impl<'r> Search<'r> {
    /// A search before the first field of a record that has this fault.
    pub fn new(fields: Fields<'r>, fault: FaultKind) -> Self {
        Search {
            fields,
            fault,
            taken: 0,
            found: None,
        }
    }

    /// Takes the next field, which has this name and should be spelt so.
    pub fn field(&mut self, name: &'static str, spelling: Spelling) {
        spelling.take(&mut self.fields);
        self.taken = self.taken.saturating_add(1);
        self.look(self.taken, name, spelling);
    }

    /// Takes the next field, on which the rest of the record depends, and returns its word.
    pub fn word(&mut self, name: &'static str, spelling: Spelling) -> &'r str {
        let word = self.fields.word();
        self.taken = self.taken.saturating_add(1);
        self.look(self.taken, name, spelling);
        word
    }

    /// Notes a fault of this kind of the field at that place, from 1, which its spelling alone doesn't show.
    pub fn refuse(
        &mut self,
        kind: FaultKind,
        place: usize,
        name: &'static str,
        spelling: Spelling,
    ) {
        self.fields.note(kind);
        self.look(place, name, spelling);
    }

    /// How many fields were taken.
    pub fn taken(&self) -> usize {
        self.taken
    }

    /// How many fields are left.
    pub fn left(&self) -> usize {
        self.fields.left()
    }

    /// Whether there is a next field and it is empty.
    pub fn next_is_empty(&self) -> bool {
        self.fields.next_is_empty()
    }

    /// The first field that has the fault, if one that was taken has it.
    pub fn found(&self) -> Option<Found> {
        self.found
    }

    /// The place, from 1, of the first field that should not be there, if the fields that were taken should be all.
    pub fn first_too_many(&self) -> Option<usize> {
        if self.fault == FaultKind::WrongShape && self.found.is_none() && self.left() > 0 {
            Some(self.taken.saturating_add(1))
        } else {
            None
        }
    }

    // Records the field at that place if it is the first that has the fault. A lesser fault can't occur, since the
    // record's fault is its least.
    fn look(&mut self, place: usize, name: &'static str, spelling: Spelling) {
        if self.found.is_none() && self.fields.fault() == Some(self.fault) {
            self.found = Some(Found {
                place,
                name,
                spelling,
            });
        }
    }
}
