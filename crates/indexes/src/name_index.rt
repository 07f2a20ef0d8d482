ghost use Rattle.std.specs.Prelude.{◌≡◌, [], IfOk, MatchOption};
ghost use Rattle.indexes.specs.Namesakes.{namesakes, IsMiddleOf};
ghost use Rattle.indexes.specs.NameOrder.{FitsNamesBy};

use crate::name_run::NameRun;
use partitions::Rows;
use schema::{DistrictKey, NoMemory};
use std::alloc::Global;
use std::marker::Model;

/// The customers of each district by last name, then by first name, then by C_ID; names are compared
/// byte by byte. The index is of all districts, or of those of one warehouse. It stores only the
/// customers' numbers, two bytes each: a look-up reads the names in the rows that it is given. So the
/// index still fits when rows change, as long as no name does.
#[derive(Drop)]
pub struct NameIndex {
    runs: Vec<NameRun>,
}

impl Model for NameIndex {
    ghost use Rattle.std.specs.Prelude.{ℕ, List};

    ghost Value = { List (List ℕ) };

    ghost view = { λ index. index.runs.items };
}

impl NameIndex {
    /// Builds the index of these rows, sorted in time n log n. Returns NoMemory if an allocation fails;
    /// nothing stays allocated then.
    pub fn build<T: Rows>(alloc: Global, rows: &T) -> Result<NameIndex, NoMemory>
        ensures { IfOk result (λ index. FitsNamesBy (T.slot rows.now) index (T.tables rows.now)) }
    {
        // For the contract: each of these districts has all its customers here, at most 3,000.
        rows.scale();
        let mut runs = Vec::new(alloc);
        for slot in 0..rows.district_count() {
            let customers = rows.customers_of(rows.district_at(slot)).unwrap();
            runs.push(NameRun::sorted(alloc, customers)?)?;
        }
        Ok(NameIndex { runs })
    }

    /// Returns the C_ID of the customer whom a last name selects in a district (clauses 2.5.2.2 and
    /// 2.6.2.2): of the n customers there whose C_LAST is exactly `last`, the one with (n-1)/2 of them
    /// before it by C_FIRST, and by C_ID if first names are equal. `None` exactly if there is none, or
    /// if no row of the district is here. Takes two binary searches in the district, and never
    /// allocates.
    pub fn middle_of<T: Rows>(&self, rows: &T, home: DistrictKey, last: &str) -> Option<u32>
        requires { FitsNamesBy (T.slot rows.now) self.now (T.tables rows.now) }
        ensures { MatchOption result
            (namesakes (T.tables rows.now).customers home last.now ≡ [])
            (IsMiddleOf (T.tables rows.now).customers home last.now) }
    {
        // For the contract: the customers who are here belong to districts that are here.
        rows.scale();
        let slot = rows.district_slot(home)?;
        let customers = rows.customers_of(home)?;
        self.runs.get(slot)?.middle(customers, last)
    }
}
