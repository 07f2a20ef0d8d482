ghost use Rattle.std.specs.Prelude.{◌≡◌, ℕ, List, [], ◌∷◌, ◌++◌, OnOk, OnErr, IfSome};
ghost use Rattle.std.specs.Fmt.{decimal, signed_decimal};
ghost use Rattle.csv.specs.Records.{fields_of};

use csv::ByteRecord;
use itoa::Buffer;
use std::alloc::{AllocError, Global};
use std::fmt::Display;
use std::marker::Model;

/// A record that is built field by field. It is cleared and used again for the next record, so that its
/// memory is allocated once. After a failed allocation it has no fields.
#[derive(Drop)]
pub struct NewRecord {
    row: ByteRecord,
    // The text of a field that is printed, before it is added.
    words: String,
}

impl Model for NewRecord {
    ghost use Rattle.std.specs.Prelude.{◌≡◌, ℕ, List, []};
    ghost use Rattle.csv.specs.Records.{fields_of, partial_of};

    ghost Value = { List (List ℕ) };

    ghost view = { λ r. fields_of r.row };

    ghost invariant = { λ r. partial_of r.row ≡ [] };
}

impl NewRecord {
    /// A record without fields.
    pub fn new(alloc: Global) -> Self
        ensures { result ≡ [] }
    {
        NewRecord {
            row: ByteRecord::new(alloc),
            words: String::new(alloc),
        }
    }

    /// Removes all fields and keeps their memory.
    pub fn clear(&mut self)
        ensures { self.new ≡ [] }
    {
        self.row.clear();
    }

    /// Appends a field with these words. Returns `AllocError` if an allocation fails; the record has no
    /// fields then.
    pub fn push(&mut self, words: &str) -> Result<(), AllocError>
        ensures added { OnOk result (self.new ≡ self.old ++ (words.now ∷ [])) }
        ensures err { OnErr result (self.new ≡ []) }
    {
        if self.row.push_field(words.as_bytes()).is_err() {
            self.row.clear();
            return Err(AllocError);
        }
        Ok(())
    }

    /// Appends a field that spells the number. Its error is that of `push`.
    pub fn push_number(&mut self, number: u64) -> Result<(), AllocError>
        ensures added { OnOk result (self.new ≡ self.old ++ (decimal number ∷ [])) }
        ensures err { OnErr result (self.new ≡ []) }
    {
        let mut buffer = Buffer::new();
        self.push(buffer.format(number))
    }

    /// Appends a field that spells the number, with `-` before a negative one. Its error is that of
    /// `push`.
    pub fn push_signed(&mut self, number: i64) -> Result<(), AllocError>
        ensures added { OnOk result (self.new ≡ self.old ++ (signed_decimal number ∷ [])) }
        ensures err { OnErr result (self.new ≡ []) }
    {
        let mut buffer = Buffer::new();
        self.push(buffer.format(number))
    }

    /// Appends a field with what the value prints. After an error, the record has no fields.
    pub fn push_display<D: Display>(&mut self, value: &D) -> Result<(), AllocError>
        ensures added { OnOk result (IfSome (D.output value.now)
            (λ words. self.new ≡ self.old ++ (words ∷ []))) }
        ensures err { OnErr result (self.new ≡ []) }
    {
        self.words.clear();
        if write!(self.words, "{value}").is_err()
            || self.row.push_field(self.words.as_bytes()).is_err()
        {
            self.row.clear();
            return Err(AllocError);
        }
        Ok(())
    }

    /// The fields so far, as a record of `csv`.
    pub fn as_byte_record(&self) -> &ByteRecord
        ensures { fields_of result.now ≡ self.now }
    {
        &self.row
    }

    /// As `as_byte_record`, by value.
    pub fn into_byte_record(self) -> ByteRecord
        ensures { fields_of result ≡ self }
    {
        self.row
    }
}
