ghost use Rattle.std.specs.Prelude.{◌≡◌, ◌≤◌, [], length, IfOk, MatchOption};
ghost use Rattle.rows.specs.declared.keys.DistrictKey.{DistrictKey};
ghost use Rattle.indexes.specs.NameOrder.{last_at, first_at, place_cmp, IsNameRun, namesakes_among, IsMiddleAmong};

use schema::{Customer, NoMemory};
use std::alloc::Global;
use std::cmp::Ordering;
use std::marker::Model;

/// The places of a district's customers by last name, then by first name, then by number. A customer's
/// place is C_ID less 1, and below 3,000.
#[derive(Drop)]
pub(crate) struct NameRun {
    places: Vec<u16>,
}

impl Model for NameRun {
    ghost use Rattle.std.specs.Prelude.{ℕ, List};

    ghost Value = { List ℕ };

    ghost view = { λ run. run.places.items };
}

impl NameRun {
    /// Builds the run of these rows, with the library's sort. Returns NoMemory if an allocation fails;
    /// nothing stays allocated then.
    pub(crate) fn sorted(alloc: Global, rows: &[Customer]) -> Result<Self, NoMemory>
        requires { length rows.now ≤ 3000 }
        ensures { IfOk result (IsNameRun (last_at rows.now) (first_at rows.now) (length rows.now)) }
    {
        let count = rows.len() as u16;
        let mut places: Vec<u16> = (0..count).collect(alloc)?;
        places.sort_unstable_by(|a, b| compare(rows, *a, *b));
        Ok(NameRun { places })
    }

    /// Returns the number of the middle one of the customers with that last name, `None` if nobody has
    /// it. Takes two binary searches.
    pub(crate) fn middle(&self, rows: &[Customer], last: &str) -> Option<u32>
        requires { IsNameRun (last_at rows.now) (first_at rows.now) (length rows.now) self.now }
        ensures { (home : DistrictKey) → MatchOption result
            (namesakes_among rows.now home last.now ≡ []) (IsMiddleAmong rows.now home last.now) }
    {
        let from = self
            .places
            .partition_point(|place| last_name(rows, *place) < last);
        let to = self
            .places
            .partition_point(|place| last_name(rows, *place) <= last);
        if from < to {
            let middle = from + (to - from - 1) / 2;
            Some(u32::from(self.places[middle]) + 1)
        } else {
            None
        }
    }
}

// Compares two places of a run.
fn compare(rows: &[Customer], a: u16, b: u16) -> Ordering
    ensures { result ≡ place_cmp (last_at rows.now) (first_at rows.now) a b }
{
    last_name(rows, a)
        .cmp(last_name(rows, b))
        .then(first_name(rows, a).cmp(first_name(rows, b)))
        .then(a.cmp(&b))
}

// Returns the last name at a place, empty past the rows.
fn last_name(rows: &[Customer], place: u16) -> &str
    ensures { result.now ≡ last_at rows.now place }
{
    match rows.get(usize::from(place)) {
        Some(row) => row.last.as_str(),
        None => "",
    }
}

// Returns the first name at a place, empty past the rows.
fn first_name(rows: &[Customer], place: u16) -> &str
    ensures { result.now ≡ first_at rows.now place }
{
    match rows.get(usize::from(place)) {
        Some(row) => row.first.as_str(),
        None => "",
    }
}
