ghost use Rattle.std.specs.Prelude.{◌≡◌, ◌&&◌, List, ℕ, [], ◌∷◌, ◌++◌, None, is_none, IfOk, IsOk};
ghost use Rattle.files.specs.Columns.{at_end};
ghost use Rattle.files.specs.Place.{Rows};
ghost use Rattle.files.specs.Taken.{fields_left, fault_of};
ghost use Rattle.schema.specs.Database.{Database, IsWithinScale};
ghost use Rattle.dataset.specs.Columns.{or_order};
ghost use Rattle.dataset.specs.Loading.{HasLoaded, HasReadTables};
ghost use Rattle.dataset.specs.Order.{follows};
ghost use Rattle.dataset.specs.Ranges.{InRange};
ghost use Rattle.dataset.specs.Records.{AreRecordsOfEither, IsHeader};
ghost use Rattle.dataset.specs.TakenAs.{IsTakenAs};

use crate::format::Format;
use crate::header::Header;
use crate::place::Place;
use crate::{
    customers, districts, end, histories, items, lines, new_orders, orders, stocks, warehouses,
};
use files::{FaultKind, Fields};
use schema::{NoMemory, Scale, ScaleFault, TableRows, Tables};
use std::alloc::Global;

/// The kind of a record that was taken.
#[derive(Clone, Copy, Debug, PartialEq, Eq)]
pub enum Taken {
    Row,
    End,
}

/// The rows of a dataset that have been read so far. A record with a fault ends the reading; it adds no
/// row, except for lines of its order.
#[derive(Drop)]
pub struct Loader {
    pub(crate) alloc: Global,
    pub(crate) format: Format,
    pub(crate) scale: Scale,
    pub(crate) rows: TableRows,
    // The place of the last record.
    last: Place,
}

impl Loader {
    /// No rows, after that header record.
    pub fn new(alloc: Global, header: Header) -> Self
        ensures format { result.format ≡ header.format }
        ensures scale { result.scale ≡ header.scale }
        ensures loads { (fields : List (List ℕ)) → IsHeader header.format header.scale fields
            → HasLoaded result (fields ∷ []) }
    {
        Loader {
            alloc,
            format: header.format,
            scale: header.scale,
            rows: TableRows::new(alloc),
            last: Place::Header,
        }
    }

    /// Takes a record. Its fault, if it has one, is noted in `fields`. Returns `NoMemory` if an
    /// allocation fails.
    pub fn take(&mut self, fields: &mut Fields) -> Result<Taken, NoMemory>
        ensures { IfOk result (λ taken. fault_of fields.old ≡ None
            → IsTakenAs taken self.old self.new fields.old fields.new) }
    {
        match fields.bytes() {
            b"I" => items::take(self, fields)?,
            b"W" => warehouses::take(self, fields)?,
            b"D" => districts::take(self, fields)?,
            b"S" => stocks::take(self, fields)?,
            b"C" => customers::take(self, fields)?,
            b"H" => histories::take(self, fields)?,
            b"O" => orders::take(self, fields)?,
            b"N" => new_orders::take(self, fields)?,
            b"L" => match self.format {
                Format::One => lines::take(self, fields)?,
                Format::Two => fields.note(FaultKind::WrongShape),
            },
            b"END" => {
                end::check(fields, &self.rows);
                let _ = fields.finish();
                return Ok(Taken::End);
            }
            _ => fields.note(FaultKind::WrongShape),
        }
        Ok(Taken::Row)
    }

    /// Moves to the place of a record whose fields were taken, and returns whether the record has no
    /// fault. Notes a field too many; and, if there is no other fault, a record out of order.
    pub(crate) fn stand_at(&mut self, place: Place, fields: &mut Fields) -> bool
        ensures fault { fault_of fields.new
            ≡ or_order (at_end (fields_left fields.old) (fault_of fields.old))
            (follows place self.old.last) }
        ensures free { result ≡ is_none (fault_of fields.new) }
        ensures same { self.new ≡ record self.old { last = place } }
    {
        self.stand_in_order(place, true, fields)
    }

    /// The same. The record is also out of order if its lines do not ascend.
    pub(crate) fn stand_in_order(
        &mut self,
        place: Place,
        lines_ascend: bool,
        fields: &mut Fields,
    ) -> bool
        ensures fault { fault_of fields.new
            ≡ or_order (at_end (fields_left fields.old) (fault_of fields.old))
            (lines_ascend && follows place self.old.last) }
        ensures free { result ≡ is_none (fault_of fields.new) }
        ensures same { self.new ≡ record self.old { last = place } }
    {
        if fields.finish().is_none() && !(lines_ascend && place.follows(self.last)) {
            fields.note(FaultKind::OutOfOrder);
        }
        self.last = place;
        fields.fault().is_none()
    }

    /// The tables of all rows. The inner `Err` is a rule of the scale that they break; no tables have
    /// the records that were read then. Returns `NoMemory` if an allocation fails.
    pub fn finish(mut self) -> Result<Result<Tables, ScaleFault>, NoMemory>
        ensures tables { IfOk result (λ checked. IfOk checked (HasReadTables self)) }
        ensures completes { IfOk result (λ checked.
            (t : Database) (read : Rows) (end : List (List ℕ)) → IsWithinScale t → InRange t
            → HasLoaded self read → AreRecordsOfEither t (read ++ end ∷ []) → IsOk checked) }
    {
        let districts = self.scale.warehouses as usize * 10;
        histories::open(self.alloc, &mut self.rows.histories, districts)?;
        let Loader { scale, rows, .. } = self;
        Ok(Tables::checked(scale, rows))
    }
}
